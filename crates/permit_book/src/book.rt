// The book of permits.

use crate::permit::{Mark, Permit, Status};
use crate::refusal::BookRefusal;
use crate::trip::Trip;
use permit_days::Day;
use std::alloc::Global;
use std::marker::Model;

/// The most permits of a book.
const MOST_PERMITS: usize = 1000000;

/// The permits that were issued, in the order of their numbers. The first is number 1.
#[derive(Drop)]
pub struct Book {
    permits: Vec<Permit>,
}

impl Model for Book {
    ghost use Rattle.std.specs.Prelude.{List};
    ghost use Rattle.permit_book.specs.declared.permit.Permit.{Permit};

    ghost Value = { List Permit };

    ghost use Rattle.permit_book.specs.Books.{IsBook};

    ghost view = { λ book. book.permits.items };

    ghost invariant = { λ book. IsBook book.permits.items };
}

impl Book {
    ghost use Rattle.std.specs.Prelude.{◌≡◌, ◌≤◌, ◌<◌, ◌+◌, ◌++◌, ◌∷◌, [], length, true, None, IfSome, IfOk, IfErr, OnOk, OnErr, is_some, nat_eq};
    ghost use Rattle.permit_book.specs.declared.permit.Permit.{Permit};
    ghost use Rattle.permit_book.specs.declared.permit.Mark.TheVariants as mark;
    ghost use Rattle.permit_book.specs.Permits.{next_permit, permit_of, is_issued, is_live, marked, status_in};
    ghost use Rattle.permit_book.specs.Books.{IsBook, IsIssueCause, issue_refusal};

    /// A book with no permits, which keeps the allocator for those to come. Takes no memory.
    pub fn new(alloc: Global) -> Book
        ensures { result ≡ [] }
    {
        Book {
            permits: Vec::new(alloc),
        }
    }

    /// Issues the next permit, live, and answers its number.
    ///
    /// Refusals, in this order: `Full` at 1,000,000 permits, `NoMemory`. After each the book is as it was.
    pub fn issue(&mut self, trip: Trip, version: u32, seen: u32) -> Result<u32, BookRefusal>
        ensures number { IfOk result (λ number. number ≡ length self.old + 1) }
        ensures issued { OnOk result
            (self.new ≡ self.old ++ next_permit self.old trip version seen ∷ []) }
        ensures room { OnOk result (issue_refusal self.old ≡ None) }
        ensures refused { IfErr result (λ refusal. IsIssueCause (issue_refusal self.old) refusal) }
        ensures unchanged { OnErr result (self.new ≡ self.old) }
    {
        let count = self.permits.len();
        if count >= MOST_PERMITS {
            return Err(BookRefusal::Full);
        }
        let number = count as u32 + 1;
        self.permits.reserve(1)?;
        self.permits.push_reserved(Permit {
            number,
            trip,
            version,
            seen,
            mark: Mark::Live,
        });
        Ok(number)
    }

    /// The permit of this number, or none where no such permit was issued. Takes no memory.
    pub fn get(&self, number: u32) -> Option<&Permit>
        ensures issued { is_some result ≡ is_issued self.now number }
        ensures permit { IfSome result (λ permit. permit.now ≡ permit_of self.now number) }
        ensures number { IfSome result (λ permit. permit.now.number ≡ number) }
    {
        if number == 0 {
            return None;
        }
        self.permits.get(number as usize - 1)
    }

    /// What the permit of this number is on a day, or none where no such permit was issued. Takes no memory.
    pub fn status(&self, number: u32, today: Day) -> Option<Status>
        ensures { result ≡ status_in self.now number today }
    {
        self.get(number).map(|permit| permit.status(today))
    }

    /// All permits, in the order of their numbers. Takes no memory.
    pub fn permits(&self) -> &[Permit]
        ensures permits { result.now ≡ self.now }
        ensures book { IsBook self.now }
    {
        self.permits.as_slice()
    }

    /// Marks a live permit as recalled by the posting of this number. Takes no memory.
    pub fn recall(&mut self, number: u32, version: u32)
        requires issued { is_issued self.old number ≡ true }
        requires live { is_live (permit_of self.old number).mark ≡ true }
        ensures { self.new ≡ marked self.old number (mark.Recalled version) }
    {
        self.permits[number as usize - 1].mark = Mark::Recalled { version };
    }

    /// Marks a live permit as surrendered. Takes no memory.
    pub fn surrender(&mut self, number: u32)
        requires issued { is_issued self.old number ≡ true }
        requires live { is_live (permit_of self.old number).mark ≡ true }
        ensures { self.new ≡ marked self.old number mark.Surrendered }
    {
        self.permits[number as usize - 1].mark = Mark::Surrendered;
    }

    /// How many permits were issued. Takes no memory.
    pub fn len(&self) -> u32
        ensures count { result ≡ length self.now }
        ensures few { result ≤ 1000000 }
    {
        self.permits.len() as u32
    }

    /// Whether no permit was issued. Takes no memory.
    pub fn is_empty(&self) -> bool
        ensures { result ≡ nat_eq (length self.now) 0 }
    {
        self.permits.is_empty()
    }
}
