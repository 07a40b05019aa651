// What the tests of this crate share. Rows of tables are texts: a truck by its axles, each PLACE:WEIGHT, and behind ` | ` what is
// told of it.

use axle_train::{Axle, Train, TrainRefusal};
use std::alloc::Global;
use std::fmt::Debug;
use std::process::Abort;

// What is found is what a row of a table says.
pub fn same<T: PartialEq + Debug>(rt: &impl Abort, row: &str, found: &T, wanted: &T) {
    assert_eq!(rt; found, wanted, "{row}");
}

// The number that a text writes, or 0.
pub fn number(text: &str) -> u32 {
    text.parse().unwrap_or(0)
}

// Two numbers that are written with a sign between them.
pub fn pair(text: &str, sign: char) -> (u32, u32) {
    let (first, second) = text.split_once(sign).unwrap_or((text, ""));
    (number(first), number(second))
}

// What stands in a row before ` | `, and what stands behind it.
pub fn parts(row: &str) -> (&str, &str) {
    row.split_once(" | ").unwrap_or((row, ""))
}

// The axles of a text.
fn axles(rt: &impl Abort, alloc: Global, text: &str) -> Vec<Axle> {
    let mut axles = Vec::new(alloc);
    for axle in text.split_whitespace() {
        let (place, weight) = pair(axle, ':');
        axles.push(Axle { place, weight }).expect(rt, "memory");
    }
    axles
}

// The train of these axles, or the rule that they break.
pub fn tried(rt: &impl Abort, alloc: Global, text: &str) -> Result<Train, TrainRefusal> {
    let axles = axles(rt, alloc, text);
    let tried = Train::new(&axles);
    drop(axles);
    tried
}

// The train of these axles, which are one.
pub fn train(rt: &impl Abort, alloc: Global, text: &str) -> Train {
    tried(rt, alloc, text).expect(rt, "a train")
}
