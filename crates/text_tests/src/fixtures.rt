// What the tests of this crate share.

use std::fmt::Debug;
use std::process::Abort;

// What is found is what a row of a table says.
pub fn same<T: PartialEq + Debug + Copy>(rt: &impl Abort, row: usize, found: T, wanted: T) {
    assert_eq!(rt; found, wanted, "row {row}");
}

// What is said of a text is so.
pub fn holds(rt: &impl Abort, fact: bool, text: &str) {
    assert!(rt; fact, "{text}");
}
