// Numbers as texts, in decimal digits of ASCII.

ghost use Rattle.std.specs.Prelude.{◌≡◌, ◌++◌, OnOk};
ghost use Rattle.std.specs.Str.{bytes_eq};

use itoa::{Buffer, Integer};
use std::alloc::AllocError;

/// Adds a number to a text.
#[inline]
pub fn write_number<N: Integer>(out: &mut Vec<u8>, n: N) -> Result<(), AllocError>
    ensures { OnOk result (out.new.items ≡ out.old.items ++ N.text n) }
{
    let mut buffer = Buffer::new();
    out.extend_from_slice(buffer.format(n).as_bytes())
}

/// Whether a text is that of a number. Takes no memory.
#[inline]
pub fn spells<N: Integer>(text: &[u8], n: N) -> bool
    ensures { result ≡ bytes_eq (N.text n) text.now }
{
    let mut buffer = Buffer::new();
    buffer.format(n).as_bytes() == text
}
