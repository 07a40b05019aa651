// A day on which the desk that applies again makes more entries than a history may hold.

use office_io::{MemorySink, MemorySource};
use permit_program::{Alone, run_alone};
use std::alloc::{AllocError, Global};
use std::process::Abort;

// Two ways from A to B, the segment S1 and S2 with S3 behind it, a load, and an actor.
const WAYS: &str = "\
day,2026-03-02,,,,,,
node,A,,,,,,
node,B,,,,,,
node,C,,,,,,
segment,S1,A,B,1000,,,
segment,S2,A,C,1000,,,
segment,S3,C,B,1000,,,
truck,T1,ACME,168,102,720,0:12000 180:17000 228:17000,
actor,ann,,,,,,
";

const TRIP: &str = "apply,ann,T1,A,B,,2026-03-02,2026-03-06\n";

// Each way is closed in turn, so that all permits go over to the other.
const TO_AND_FRO: &str = "\
post,ann,S1,closed,1,,,
post,ann,S1,closed,0,,,
post,ann,S3,closed,1,,,
post,ann,S3,closed,0,,,
";

const LOOK: &str = "show,ann,1,,,,,\n";

// A thousand trips, which are 2,000 entries; 996 closings that recall a thousand permits each, and as many openings, which are
// 997,992; and so many looks at a permit.
fn crowded_desk(alloc: Global, looks: u32) -> Result<String, AllocError> {
    let mut text = String::new(alloc);
    text.push_str(WAYS)?;
    repeat(&mut text, TRIP, 1000)?;
    repeat(&mut text, TO_AND_FRO, 498)?;
    repeat(&mut text, LOOK, looks)?;
    text.push_str("end,,,,,,,\n")?;
    Ok(text)
}

// These lines so often, behind a text.
fn repeat(text: &mut String, lines: &str, times: u32) -> Result<(), AllocError> {
    'times: for _ in 0..times {
        text.push_str(lines)?;
    }
    Ok(())
}

// How a run of `reroute` over a text ended, and whether it wrote that there are too many entries, and nothing else.
fn reroute(rt: &(impl Abort + AllocGlobal), text: String) -> (Alone, bool) {
    let alloc = rt.alloc();
    let mut words = Vec::new(alloc);
    let word = "reroute".to_string(alloc).expect(rt, "memory");
    words.push(word).expect(rt, "memory");
    let mut source = MemorySource::new(text.into_bytes(), Vec::new(alloc));
    let mut sink = MemorySink::new(alloc, 100, Vec::new(alloc)).expect(rt, "memory");
    let ended = run_alone(rt, words.as_slice(), &mut source, &mut sink);
    drop(words);
    drop(source);
    let refused = sink.bytes() == b"refused: entries\n".as_slice();
    drop(sink);
    (ended, refused)
}

// With nine looks there are 1,000,001 entries, which is one too many. The line is written, and nothing else.
#[test]
fn a_day_of_too_many_entries_is_refused(rt: HostRuntime) {
    let text = crowded_desk(rt.alloc(), 9).expect(&rt, "memory");
    let (ended, refused) = reroute(&rt, text);
    assert!(rt; ended == Alone::Status(10));
    assert!(rt; refused);
}
