use crate::fixtures::axle;
use axle_train::Train;
use influence_line::{
    Frac, Hs20Placements, equal_fractions_are_one, nearer_is_no_less, peak_moment_is_one,
    peak_shear_is_one, small_fractions_compare,
};
use std::cmp::Ordering;
use std::test::Fail;

#[test]
fn fractions_of_the_size_of_peaks_compare_without_a_test(rt: HostRuntime) -> Result<(), Fail> {
    let greatest = Frac::of((1 << 68) - 1, (1 << 36) - 2).ok_or("not in lowest terms")?;
    let least = Frac::of(1, (1 << 36) - 1).ok_or("not in lowest terms")?;
    assert!(rt; greatest.num() < 1 << 68 && greatest.den() < 1 << 36);
    assert!(rt; least.num() < 1 << 68 && least.den() < 1 << 36);
    small_fractions_compare();
    assert!(rt; greatest.compare(&least) == Ordering::Greater);
    assert!(rt; least.compare(&greatest) == Ordering::Less);
    Ok(())
}

#[test]
fn a_peak_is_one_of_a_train_and_of_the_placements_of_the_design_truck(
    _rt: HostRuntime,
) -> Result<(), Fail> {
    let train = Train::new(&[axle(0, 1000), axle(48, 2000)])?;
    peak_moment_is_one(&train);
    peak_shear_is_one(&train);
    peak_moment_is_one(&Hs20Placements);
    peak_shear_is_one(&Hs20Placements);
    equal_fractions_are_one();
    nearer_is_no_less();
    Ok(())
}
