use crate::fixtures::same;
use influence_line::gcd;
use std::process::Abort;

// Two numbers, and their greatest common divisor.
fn divisors(rt: &impl Abort, cases: &[(u128, u128, u128)]) {
    for (row, &(a, b, divisor)) in cases.iter().enumerate() {
        same(rt, row, &gcd(a, b), &divisor);
    }
}

#[test]
fn divisors_by_hand(rt: HostRuntime) {
    divisors(
        &rt,
        &[
            (0, 0, 0),
            (0, 5, 5),
            (5, 0, 5),
            (12, 18, 6),
            (18, 12, 6),
            (1, u128::MAX, 1),
            (64, 48, 16),
            // 2^128 - 1 is 3 * 5 * 17 * 257 and more, and 2^64 - 1 divides it.
            (u128::MAX, 3 * 257 * 2, 771),
            (u128::MAX, 18446744073709551615, 18446744073709551615),
            (1 << 127, 1 << 70, 1 << 70),
            (3 << 100, 9 << 90, 3 << 90),
            (1218816000, 360, 360),
        ],
    );
}
