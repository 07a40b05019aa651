// A journal in front of something else.

ghost use Rattle.std.specs.Prelude.{◌≡◌, ◌++◌, List, ℕ};
ghost use Rattle.journal_reader.specs.Cuts.{IsCutBehindEnd};

use crate::parts::line;

/// Bytes in two parts.
#[derive(Clone, Copy, Debug)]
pub struct Cut<'a> {
    /// All up to and with the first line that begins with `end `, or all where no line does.
    pub front: &'a [u8],
    /// What follows it.
    pub rest: &'a [u8],
}

/// Cuts bytes behind the first line that begins with `end `, which is where a journal ends. Takes no memory.
#[tactic(auto, using(crate::proofs::Cutting::none_passed, crate::proofs::Cutting::one_passed, crate::proofs::Cutting::cut_here, crate::proofs::Cutting::no_cut))]
pub fn cut_behind_end(bytes: &[u8]) -> Cut
    ensures { IsCutBehindEnd bytes.now result.front.now result.rest.now }
{
    let mut rest = bytes;
    'lines: while let Some((found, behind)) = line(rest) {
        rest = behind;
        if found.starts_with(b"end ") {
            let (front, rest) = bytes.split_at(bytes.len() - rest.len());
            return Cut { front, rest };
        }
    }
    let (front, rest) = bytes.split_at(bytes.len());
    Cut { front, rest }
}
