use crate::fixtures::holds;
use report_text::{Cause, Kind, RecordCause, refusal_line, refusal_lines_differ, refusal_status};
use std::alloc::Global;
use std::process::Abort;

// The program writes this line for a cause in this row, and ends with this status.
fn writes(rt: &impl Abort, alloc: Global, row: u64, cause: Cause, line: &str, status: u8) {
    let text = refusal_line(alloc, row, cause).expect(rt, "memory");
    holds(rt, text.as_str() == line, line);
    holds(rt, refusal_status(cause) == status, line);
}

// A row, why its record is bad or of which kind it is one too many, the line, and the status.
const REFUSED: [(u64, Cause, &str, u8); 22] = [
    (
        1,
        Cause::Bad(RecordCause::Fields),
        "refused: record 1 fields\n",
        5,
    ),
    (
        2,
        Cause::Bad(RecordCause::Kind),
        "refused: record 2 kind\n",
        5,
    ),
    (
        3,
        Cause::Bad(RecordCause::Order),
        "refused: record 3 order\n",
        5,
    ),
    (
        4,
        Cause::Bad(RecordCause::Extra),
        "refused: record 4 extra\n",
        5,
    ),
    (
        5,
        Cause::Bad(RecordCause::Field(2)),
        "refused: record 5 field 2\n",
        5,
    ),
    (
        6,
        Cause::Bad(RecordCause::Same),
        "refused: record 6 same\n",
        5,
    ),
    (
        8,
        Cause::Bad(RecordCause::Unknown(6)),
        "refused: record 8 unknown 6\n",
        5,
    ),
    (
        9,
        Cause::Bad(RecordCause::Range(4)),
        "refused: record 9 range 4\n",
        5,
    ),
    (
        6,
        Cause::Bad(RecordCause::Train(1)),
        "refused: record 6 train 1\n",
        5,
    ),
    (
        8,
        Cause::Bad(RecordCause::SamePlace),
        "refused: record 8 same-place\n",
        5,
    ),
    (
        10,
        Cause::Bad(RecordCause::BrokenRoute),
        "refused: record 10 broken-route\n",
        5,
    ),
    (
        11,
        Cause::Bad(RecordCause::DayOrder),
        "refused: record 11 day-order\n",
        5,
    ),
    (
        10,
        Cause::Bad(RecordCause::AnnualDays),
        "refused: record 10 annual-days\n",
        5,
    ),
    (
        4_194_305,
        Cause::Bad(RecordCause::End),
        "refused: record 4194305 end\n",
        5,
    ),
    (
        4_098,
        Cause::TooMany(Kind::Nodes),
        "refused: record 4098 nodes\n",
        6,
    ),
    (
        16_387,
        Cause::TooMany(Kind::Segments),
        "refused: record 16387 segments\n",
        6,
    ),
    (
        2_180,
        Cause::TooMany(Kind::Spans),
        "refused: record 2180 spans\n",
        6,
    ),
    (
        21,
        Cause::TooMany(Kind::SpansOfSegment),
        "refused: record 21 spans-of-segment\n",
        6,
    ),
    (
        66,
        Cause::TooMany(Kind::Trucks),
        "refused: record 66 trucks\n",
        6,
    ),
    (
        18,
        Cause::TooMany(Kind::Actors),
        "refused: record 18 actors\n",
        6,
    ),
    (
        4_099,
        Cause::TooMany(Kind::Commands),
        "refused: record 4099 commands\n",
        6,
    ),
    (
        66,
        Cause::TooMany(Kind::Probes),
        "refused: record 66 probes\n",
        6,
    ),
];

#[test]
fn writes_why_a_record_is_refused(rt: HostRuntime) {
    refusal_lines_differ();
    for &(row, cause, line, status) in &REFUSED {
        writes(&rt, rt.alloc(), row, cause, line, status);
    }
}
