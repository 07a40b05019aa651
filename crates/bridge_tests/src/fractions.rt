use crate::fixtures::same;
use influence_line::Frac;
use std::alloc::Global;
use std::cmp::Ordering;
use std::process::Abort;
use std::test::Fail;

// The terms of a fraction that is made of these.
fn terms(num: u128, den: u128) -> Option<(u128, u128)> {
    match Frac::of(num, den) {
        Some(frac) => Some((frac.num(), frac.den())),
        None => None,
    }
}

// A numerator, a denominator, and whether they are in lowest terms.
fn take(rt: &impl Abort, cases: &[(u128, u128, bool)]) {
    for (row, &(num, den, taken)) in cases.iter().enumerate() {
        let wanted = if taken { Some((num, den)) } else { None };
        same(rt, row, &terms(num, den), &wanted);
    }
}

#[test]
fn only_lowest_terms_are_taken(rt: HostRuntime) {
    take(
        &rt,
        &[
            (0, 1, true),
            (1, 1, true),
            (5, 8, true),
            (u128::MAX, 1, true),
            (u128::MAX, 2, true),
            (1, u128::MAX, true),
            (1, 0, false),
            (0, 0, false),
            (0, 2, false),
            (2, 4, false),
            (6, 3, false),
            // 2^128 - 1 is a multiple of 3.
            (u128::MAX, 3, false),
            (u128::MAX, u128::MAX, false),
        ],
    );
}

// A numerator and a denominator, as they are and in lowest terms.
fn reduce(rt: &impl Abort, cases: &[(u128, u128, (u128, u128))]) {
    for (row, &(num, den, lowest)) in cases.iter().enumerate() {
        assert!(rt; den >= 1);
        let frac = Frac::reduced(num, den);
        same(rt, row, &(frac.num(), frac.den()), &lowest);
    }
}

#[test]
fn reduces_to_lowest_terms(rt: HostRuntime) {
    reduce(
        &rt,
        &[
            (0, 5, (0, 1)),
            (12, 18, (2, 3)),
            (1218816000, 360, (3385600, 1)),
            (u128::MAX, u128::MAX, (1, 1)),
        ],
    );
}

// Two fractions, and their order, or nothing where a cross product is 2^128 or more.
type Compared = ((u128, u128), (u128, u128), Option<Ordering>);

// The order of two fractions, where they can be compared, and whether they are one.
fn order(left: &Frac, right: &Frac) -> (Option<Ordering>, bool) {
    let order = if left.can_compare(right) {
        Some(left.compare(right))
    } else {
        None
    };
    (order, left == right)
}

fn compare(rt: &impl Abort, cases: &[Compared]) -> Result<(), Fail> {
    for (row, &((a, b), (c, d), wanted)) in cases.iter().enumerate() {
        let left = Frac::of(a, b).ok_or("not in lowest terms")?;
        let right = Frac::of(c, d).ok_or("not in lowest terms")?;
        let equal = wanted == Some(Ordering::Equal);
        same(rt, row, &order(&left, &right), &(wanted, equal));
    }
    Ok(())
}

#[test]
fn compares_up_to_the_last_product_of_128_bits(rt: HostRuntime) -> Result<(), Fail> {
    const HALF: u128 = u128::MAX / 2;
    const ROOT: u128 = 1 << 64;
    compare(
        &rt,
        &[
            ((u128::MAX, 1), (1, 1), Some(Ordering::Greater)),
            ((1, 1), (u128::MAX, 1), Some(Ordering::Less)),
            ((1, u128::MAX), (1, 1), Some(Ordering::Less)),
            // 2 * (2^127 - 1), and then 2 * 2^127.
            ((HALF, 1), (1, 2), Some(Ordering::Greater)),
            ((HALF + 1, 1), (1, 2), None),
            ((1, 2), (HALF, 1), Some(Ordering::Less)),
            ((1, 2), (HALF + 1, 1), None),
            // (2^64 - 1) * (2^64 + 1), and then 2^64 * 2^64.
            ((ROOT - 1, 1), (1, ROOT + 1), Some(Ordering::Greater)),
            ((ROOT, 1), (1, ROOT), None),
            ((1, 2), (1, 2), Some(Ordering::Equal)),
            ((1, 3), (1, 2), Some(Ordering::Less)),
            ((0, 1), (0, 1), Some(Ordering::Equal)),
        ],
    )
}

// A numerator and a denominator, and how they print.
fn print(rt: &impl Abort, alloc: Global, cases: &[(u128, u128, &str)]) -> Result<(), Fail> {
    for (row, &(num, den, text)) in cases.iter().enumerate() {
        let frac = Frac::of(num, den).ok_or("not in lowest terms")?;
        same(rt, row, &frac.to_string(alloc)?.as_str(), &text);
    }
    Ok(())
}

#[test]
fn prints_numerator_and_denominator(rt: HostRuntime) -> Result<(), Fail> {
    print(
        &rt,
        rt.alloc(),
        &[
            (0, 1, "0/1"),
            (1920000, 1, "1920000/1"),
            (17851584375, 8, "17851584375/8"),
            (u128::MAX, 2, "340282366920938463463374607431768211455/2"),
        ],
    )
}
