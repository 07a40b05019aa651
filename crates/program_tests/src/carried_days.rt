// Runs of `carry`: the file of the next day, and the lines that tell how its permits are numbered.

use crate::certificates::run_telling;
use crate::days::{Front, GIVEN_BACK, GIVEN_BACK_JOURNAL, RECALLING, RECALLING_JOURNAL};
use crate::runs::{holds, joined, same};
use std::process::Abort;

// The next day behind one on which the permit of the higher of two loads was recalled: the other's goes on, under the height that was
// posted. Each row has the words, and the trucks that are written.
const GOES_ON: [(&str, &str); 3] = [
    ("carry", HIGHER_TRUCK),
    ("carry|--in-force", ""),
    ("--in-force|carry", ""),
];

const HIGHER_TRUCK: &str = "truck,T1,ACME,168,102,720,0:12000 180:17000 228:17000,\n";

const ROADS: &str = "\
day,2026-03-02,,,,,,
node,A,,,,,,
node,B,,,,,,
segment,S1,A,B,5000,,,
";

const BEHIND: &str = "\
truck,T2,BOLT,150,110,720,0:12000 180:17000 228:17000,
actor,ann,,,,,,
limit,S1,height,167,,,,
apply,ann,T2,A,B,S1,2026-03-02,2026-03-06
end,,,,,,,
";

// The next day behind one on which the only permit was given back.
const NOTHING_STANDS: &str = "\
actor,ann,,,,,,
limit,S1,height,168,,,,
end,,,,,,,
";

// A journal with its day file behind it.
fn input_of(rt: &(impl Abort + AllocGlobal), journal: &str, day: &str) -> String {
    let file = joined(rt, rt.alloc(), Front::Load.text(), day);
    joined(rt, rt.alloc(), journal, file.as_str())
}

#[test]
fn carries_on_what_stands(rt: HostRuntime) {
    let input = input_of(&rt, RECALLING_JOURNAL, RECALLING);
    for &(words, trucks) in &GOES_ON {
        let roads = joined(&rt, rt.alloc(), ROADS, trucks);
        let text = joined(&rt, rt.alloc(), roads.as_str(), BEHIND);
        let (ran, told) = run_telling(&rt, words, input.as_bytes(), &[], &[], &[]);
        same(&rt, &ran, 0, text.as_str(), words);
        holds(
            &rt,
            told.as_slice() == "carried 2 1\n".as_bytes(),
            "the line",
        );
        drop(told);
        drop(ran);
    }
}

#[test]
fn carries_no_permit_that_was_given_back(rt: HostRuntime) {
    let input = input_of(&rt, GIVEN_BACK_JOURNAL, GIVEN_BACK);
    let roads = joined(&rt, rt.alloc(), ROADS, HIGHER_TRUCK);
    let text = joined(&rt, rt.alloc(), roads.as_str(), NOTHING_STANDS);
    let (ran, told) = run_telling(&rt, "carry", input.as_bytes(), &[], &[], &[]);
    same(&rt, &ran, 0, text.as_str(), "given back");
    holds(&rt, told.is_empty(), "no line");
    drop(told);
}

// A write of the lines that fails leaves the status as it is, and a write of the file that fails ends with 4 and tells nothing.
#[test]
fn tells_a_fault_of_the_file_alone(rt: HostRuntime) {
    let input = input_of(&rt, RECALLING_JOURNAL, RECALLING);
    let (untold, nothing) = run_telling(&rt, "carry", input.as_bytes(), &[], &[], &[1]);
    holds(
        &rt,
        untold.status == 0 && !untold.text.is_empty(),
        "the file",
    );
    holds(&rt, nothing.is_empty(), "no line was taken");
    let (unwritten, silence) = run_telling(&rt, "carry", input.as_bytes(), &[], &[1], &[]);
    holds(&rt, unwritten.status == 4 && silence.is_empty(), "a fault");
    drop(nothing);
    drop(silence);
}
