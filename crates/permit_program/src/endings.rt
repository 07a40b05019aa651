// How the parts of a run end, whatever the program: the reading, the refusal, and the writing of a text.

ghost use Rattle.std.specs.Prelude.{◌≡◌, ◌+◌, ◌≤◌, IfErr, IfOk, length};
ghost use Rattle.office_io.specs.Causes.{TookAtMost};
ghost use Rattle.permit_program.specs.Runs.{Took, WroteLine, sink_at, source_at};
ghost use Rattle.permit_program.specs.Endings.{AnswersRefusal, AnswersText, AnswersUnread, WasUnread};

use crate::refusal::Refusal;
use office_io::{ReadRefusal, Sink, Source, read_all, write_all};
use std::alloc::Global;

/// Takes what a command reads: all that is left, of so many bytes at the most, or nothing.
pub fn take_bytes<S: Source>(
    alloc: Global,
    source: &mut S,
    reads: bool,
    most: u32,
) -> Result<Vec<u8>, ReadRefusal>
    ensures took { let source_at = source_at ⟦<S as Source>⟧ in
        IfOk result (λ bytes. Took reads (source_at source.old) (source_at source.new) bytes.items) }
    ensures few { IfOk result (λ bytes. length bytes.items ≤ most) }
    ensures unread { let source_at = source_at ⟦<S as Source>⟧ in
        IfErr result (WasUnread reads most (source_at source.old) (source_at source.new)) }
    ensures calm { IfOk result (λ bytes. S.faults source.new ≡ S.faults source.old) }
    ensures most { TookAtMost (most + 1) (S.left source.old) (S.left source.new) }
{
    if reads {
        read_all(alloc, source, most)
    } else {
        Ok(Vec::new(alloc))
    }
}

/// Ends a run whose bytes were not all read.
pub fn end_unread<K: Sink>(sink: &mut K, unread: ReadRefusal) -> u8
    ensures { let sink_at = sink_at ⟦<K as Sink>⟧ in AnswersUnread unread (sink_at sink.old)
        (sink_at sink.new) result }
{
    match unread {
        ReadRefusal::ReadFault => 3,
        ReadRefusal::TooLong => refuse(sink, b"refused: bytes\n", 6),
        ReadRefusal::NoMemory => 7,
    }
}

/// Ends a run whose bytes are refused.
pub fn end_refused<K: Sink>(sink: &mut K, refusal: Refusal) -> u8
    ensures { let sink_at = sink_at ⟦<K as Sink>⟧ in AnswersRefusal refusal (sink_at sink.old)
        (sink_at sink.new) result }
{
    match refusal {
        Refusal::Refused { status, line } => refuse(sink, line.as_bytes(), status),
        Refusal::NoMemory => 7,
    }
}

/// Writes what a command made: 0, or 4 where the sink fails.
pub fn end_made<K: Sink>(sink: &mut K, text: &[u8]) -> u8
    ensures { let sink_at = sink_at ⟦<K as Sink>⟧ in AnswersText text.now (sink_at sink.old)
        (sink_at sink.new) result }
{
    match write_all(sink, text) {
        Ok(()) => 0,
        Err(_) => 4,
    }
}

/// Writes the line of a refusal, and hands its status on.
pub fn refuse<K: Sink>(sink: &mut K, line: &[u8], status: u8) -> u8
    ensures status { result ≡ status }
    ensures line { let sink_at = sink_at ⟦<K as Sink>⟧ in
        WroteLine line.now (sink_at sink.old) (sink_at sink.new) }
{
    // A fault of the sink leaves the status as it is.
    let _ = write_all(sink, line);
    status
}
