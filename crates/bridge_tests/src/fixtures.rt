// What the tests of this crate share.

use axle_train::Axle;
use std::fmt::Debug;
use std::process::Abort;

// What is found is what a row of a table says.
pub fn same<T: PartialEq + Debug>(rt: &impl Abort, row: usize, found: &T, wanted: &T) {
    assert_eq!(rt; found, wanted, "row {row}");
}

pub fn axle(place: u32, weight: u32) -> Axle {
    Axle { place, weight }
}

// 32 axles of 62,500 lb, 96 inches apart but for the last one, which stands at 3,000.
pub fn heavy() -> [Axle; 32] {
    let mut axles = [axle(3000, 62500); 32];
    for i in 0..31 {
        axles[i] = axle(96 * i as u32, 62500);
    }
    axles
}
