ghost use Rattle.std.specs.Prelude.{◌≡◌, true};
ghost use Rattle.permit_book.specs.Permits.{is_issued, is_live, permit_of};

use crate::fixtures::{day, same};
use permit_book::{Book, Mark, Status, Trip};
use road_graph::Numbers;
use std::alloc::Global;
use std::process::Abort;
use trip_routes::SharedRoutes;

// A trip along no segment, from the second day of a month to this one.
fn trip(rt: &impl Abort, alloc: Global, caller: u32, truck: u32, last: &str) -> Trip {
    Trip {
        caller,
        truck,
        routes: SharedRoutes::along(alloc, Numbers::of(Vec::new(alloc))).expect(rt, "memory"),
        first: day(rt, "2026-03-02"),
        last: day(rt, last),
    }
}

// A book with two permits of one route, for the days 2 to 10 and 2 to 20 of a month.
fn two(rt: &impl Abort, alloc: Global) -> Book {
    let mut book = Book::new(alloc);
    let numbers = [
        book.issue(trip(rt, alloc, 7, 1, "2026-03-10"), 3, 2),
        book.issue(trip(rt, alloc, 9, 0, "2026-03-20"), 4, 4),
    ];
    assert_eq!(rt; numbers, [Ok(1), Ok(2)]);
    book
}

// A permit's number, a day, and how it stands then, or none where there is no such permit.
const STANDINGS: [(u32, &str, Option<Status>); 7] = [
    (0, "2026-03-02", None),
    (1, "2026-03-01", Some(Status::InForce)),
    (1, "2026-03-10", Some(Status::InForce)),
    (1, "2026-03-11", Some(Status::Expired)),
    (2, "2026-03-11", Some(Status::InForce)),
    (2, "2027-01-01", Some(Status::Expired)),
    (3, "2026-03-02", None),
];

#[test]
fn expires_after_its_last_day(rt: HostRuntime) {
    let book = two(&rt, rt.alloc());
    for (row, &(number, text, status)) in STANDINGS.iter().enumerate() {
        same(&rt, row, book.status(number, day(&rt, text)), status);
        same(&rt, row, book.get(number).is_some(), status.is_some());
    }
    drop(book);
}

// Whether there is a permit of this number, and it is live.
fn is_live_in(book: &Book, number: u32) -> bool
    ensures issued { result ≡ true → is_issued book.now number ≡ true }
    ensures live { result ≡ true → is_live (permit_of book.now number).mark ≡ true }
{
    match book.get(number) {
        Some(permit) => permit.mark.is_live(),
        None => false,
    }
}

// Recalls the permit of this number by posting 5, which it may.
fn recall_by_5(rt: &impl Abort, book: &mut Book, number: u32) {
    if !is_live_in(book, number) {
        rt.abort();
    }
    book.recall(number, 5);
}

// Surrenders the permit of this number, which it may.
fn surrender(rt: &impl Abort, book: &mut Book, number: u32) {
    if !is_live_in(book, number) {
        rt.abort();
    }
    book.surrender(number);
}

// Permit 1 is recalled and permit 2 surrendered, also after their days.
fn keeps_marks(rt: &impl Abort, book: &Book) {
    let late = day(rt, "2027-01-01");
    let recalled = Status::Recalled { version: 5 };
    same(rt, 1, book.status(1, late), Some(recalled));
    same(rt, 2, book.status(2, late), Some(Status::Surrendered));
    assert!(rt; book.len() == 2 && !book.is_empty());
    same(rt, 0, book.permits()[0].mark, Mark::Recalled { version: 5 });
}

#[test]
fn keeps_a_mark_after_the_last_day(rt: HostRuntime) {
    let mut book = two(&rt, rt.alloc());
    recall_by_5(&rt, &mut book, 1);
    surrender(&rt, &mut book, 2);
    keeps_marks(&rt, &book);
    drop(book);
}
