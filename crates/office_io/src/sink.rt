// Where bytes go.

ghost use Rattle.std.specs.Prelude.{◌≡◌, ℕ, ◌<◌, ◌≤◌, List, length, take, Option, IfOk, IfErr, OnOk, OnErr};
ghost use Rattle.std.specs.Io.KnownBytes.{Appends, WriteAppends};
ghost use Rattle.office_io.specs.Causes.{AppendedPart, HasCause, Rose};

use crate::refusal::Failed;
use thiserror::Error;

/// Where bytes go.
pub trait Sink {
    /// The bytes held, where the sink tells them.
    ghost held: { Self → Option (List ℕ) };

    /// How often it has failed.
    ghost faults: { Self → ℕ };

    /// Appends the front of the bytes, at least one where there is one, and answers how many. After `Failed` nothing
    /// was appended.
    fn write(&mut self, bytes: &[u8]) -> Result<usize, Failed>
        ensures bound { IfOk result (λ n. n ≤ length bytes.now) }
        ensures some { IfOk result (λ n. 0 < length bytes.now → 0 < n) }
        ensures bytes { WriteAppends (held self.old) (held self.new) result bytes.now }
        ensures cause { HasCause (faults self.old) (faults self.new) result };
}

/// The sink failed after it had taken so many bytes.
#[derive(Clone, Copy, Debug, Drop, PartialEq, Eq, Error)]
#[error("the sink failed after {written} bytes")]
pub struct WriteFault {
    pub written: usize,
}

/// Appends all the bytes. After a fault as many of them were appended as it says, no more, and the sink's count of
/// faults rose. Takes no memory.
pub fn write_all<K: Sink>(sink: &mut K, bytes: &[u8]) -> Result<(), WriteFault>
    ensures all { OnOk result (Appends (K.held sink.old) (K.held sink.new) bytes.now) }
    ensures within { IfErr result (λ fault. fault.written ≤ length bytes.now) }
    ensures part { IfErr result (AppendedPart (K.held sink.old) (K.held sink.new) bytes.now) }
    ensures fault { OnErr result (Rose (K.faults sink.old) (K.faults sink.new)) }
    ensures stands { OnOk result (K.faults sink.new ≡ K.faults sink.old) }
    ensures later { K.faults sink.old ≤ K.faults sink.new }
{
    let mut written = 0;
    'pieces: while written < bytes.len() {
        match sink.write(&bytes[written..]) {
            Ok(n) => written += n,
            Err(Failed) => return Err(WriteFault { written }),
        }
    }
    Ok(())
}
