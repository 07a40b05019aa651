// Where bytes come from.

ghost use Rattle.std.specs.Prelude.{◌≡◌, ℕ, ◌+◌, ◌≤◌, List, length, Option, IfOk, OnOk};
ghost use Rattle.std.specs.Io.KnownBytes.{Consumes, IsAtEnd, ReadConsumes};
ghost use Rattle.office_io.specs.Causes.{HasCause, OnReadFault, OnTooLong, Rose, TookAtMost, TookExactly, UnlessReadFault};

use crate::refusal::Failed;
use std::alloc::Global;
use thiserror::Error;

/// Where bytes come from.
pub trait Source {
    /// The bytes left, where the source tells them.
    ghost left: { Self → Option (List ℕ) };

    /// How often it has failed.
    ghost faults: { Self → ℕ };

    /// Fills the front of the buffer with the next bytes, and answers how many. 0 for a buffer that is not empty
    /// says that nothing is left. After `Failed` nothing was taken.
    fn read(&mut self, buffer: &mut [u8]) -> Result<usize, Failed>
        ensures bound { IfOk result (λ n. n ≤ length buffer.new) }
        ensures bytes { ReadConsumes (left self.old) (left self.new) result buffer.new }
        ensures cause { HasCause (faults self.old) (faults self.new) result };
}

/// Why not all bytes were read. What was taken stays taken.
#[derive(Clone, Copy, Debug, Drop, PartialEq, Eq, Error)]
pub enum ReadRefusal {
    #[error("the source failed")]
    ReadFault,
    #[error("more bytes than are taken")]
    TooLong,
    #[error("out of memory")]
    NoMemory,
}

// How many bytes one read asks for at the most.
const PIECE: usize = 16384;

/// All bytes that are left, where they are no more than `limit`; then nothing is left. At most `limit + 1` bytes
/// are taken, and just so many before `TooLong`. The source's count of faults rises with `ReadFault` alone.
pub fn read_all<S: Source>(
    alloc: Global,
    source: &mut S,
    limit: u32,
) -> Result<Vec<u8>, ReadRefusal>
    ensures all { IfOk result (λ bytes. Consumes (S.left source.old) (S.left source.new) bytes.items) }
    ensures end { OnOk result (IsAtEnd (S.left source.new)) }
    ensures short { IfOk result (λ bytes. length bytes.items ≤ limit) }
    ensures long { OnTooLong result (TookExactly (limit + 1) (S.left source.old) (S.left source.new)) }
    ensures fault { OnReadFault result (Rose (S.faults source.old) (S.faults source.new)) }
    ensures fault_short { OnReadFault result (TookAtMost limit (S.left source.old) (S.left source.new)) }
    ensures most { TookAtMost (limit + 1) (S.left source.old) (S.left source.new) }
    ensures stands { UnlessReadFault result (S.faults source.new ≡ S.faults source.old) }
    ensures later { S.faults source.old ≤ S.faults source.new }
{
    let mut bytes = Vec::new(alloc);
    let mut buffer = [0u8; PIECE];
    let most = limit as usize + 1;
    'pieces: while bytes.len() < most {
        let room = (most - bytes.len()).min(PIECE);
        match source.read(&mut buffer[..room]) {
            Ok(0) => return Ok(bytes),
            Ok(n) => {
                if bytes.extend_from_slice(&buffer[..n]).is_err() {
                    return Err(ReadRefusal::NoMemory);
                }
            }
            Err(Failed) => return Err(ReadRefusal::ReadFault),
        }
    }
    Err(ReadRefusal::TooLong)
}
