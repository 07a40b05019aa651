// Greatest common divisors.

ghost use Rattle.std.specs.Prelude.{◌≡◌, ◌*◌, ◌%◌, ◌<◌, ◌^◌};
ghost use Rattle.std.specs.Int.{IsGcd, trailing_zeros, w64};

/// The greatest common divisor; that of 0 and `b` is `b`. Takes no memory.
///
/// Remainders are taken until a machine word holds what is left. From there on it is the binary algorithm (Stein 1967),
/// which subtracts and shifts: a division takes as long as a dozen of its steps.
pub fn gcd(a: u128, b: u128) -> u128
    ensures { IsGcd a b result }
{
    let mut x = a;
    let mut y = b;
    while y > u128::from(u64::MAX) {
        let rest = x % y;
        x = y;
        y = rest;
    }
    if y == 0 {
        return x;
    }
    u128::from(gcd_of_words((x % y) as u64, y as u64))
}

/// The greatest common divisor of two words, of which the second is not 0.
fn gcd_of_words(a: u64, b: u64) -> u64
    requires some { 0 < b }
    ensures { IsGcd a b result }
{
    if a == 0 {
        return b;
    }
    let common = a.trailing_zeros().min(b.trailing_zeros());
    gcd_of_odd(odd_part(a), odd_part(b)) << common
}

/// The greatest common divisor of two odd words.
fn gcd_of_odd(a: u64, b: u64) -> u64
    requires odd { a % 2 ≡ 1 }
    requires other_odd { b % 2 ≡ 1 }
    ensures { IsGcd a b result }
{
    let mut x = a;
    let mut y = b;
    while x != y {
        let apart = odd_part(x.abs_diff(y));
        y = x.min(y);
        x = apart;
    }
    x
}

/// What is left of a word when it has been halved as often as it can be.
fn odd_part(n: u64) -> u64
    requires some { 0 < n }
    ensures halved { n ≡ 2 ^ trailing_zeros w64 n * result }
    ensures odd { result % 2 ≡ 1 }
{
    n >> n.trailing_zeros()
}
