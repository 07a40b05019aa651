// Which format a first line names.

ghost use Rattle.std.specs.Prelude.{◌≡◌, IfSome, IfNone};
ghost use Rattle.journal_text.specs.Journals.{first_line};
ghost use Rattle.journal_reader.specs.Journals.{IsFirstLine};

use crate::numbers::is;
use journal_text::Format;

/// The format that a first line names.
pub fn format_of(line: &[u8]) -> Option<Format>
    ensures found { IfSome result (λ format. line.now ≡ first_line format) }
    ensures none { IfNone result (IsFirstLine line.now → ⊥) }
{
    if is(line, Format::One.first_line()) {
        Some(Format::One)
    } else if is(line, Format::Two.first_line()) {
        Some(Format::Two)
    } else if is(line, Format::Three.first_line()) {
        Some(Format::Three)
    } else {
        None
    }
}
