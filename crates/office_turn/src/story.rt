//! What a value under a turn tells.
ghost use Rattle.std.specs.Prelude.{ℕ, List};

/// A value with a story. No method of it runs.
///
/// The story is a list of entries, each of which tells the number of its caller. The terms are plain data that no
/// turn changes.
pub trait Storied {
    type Entry;

    type Terms;

    ghost caller: { Self.Entry → ℕ };

    ghost story: { Self → List Self.Entry };

    ghost terms: { Self → Self.Terms };
}
