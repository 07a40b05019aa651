// What each actor of a day is to do.

use crate::fixtures::holds;
use day_text::{prepare, read_day};
use office_words::Command;
use std::alloc::Global;
use std::process::Abort;

// The kind of a command by a letter.
fn letter(command: &Command) -> char {
    match command {
        Command::Apply(_) => 'a',
        Command::Post(_) => 'p',
        Command::Day(_) => 'd',
        Command::Surrender(_) => 'g',
        Command::Show(_) => 's',
    }
}

// A day, and the kinds of the commands of each actor, in order, behind a space: of three actors among each other, of whom one has
// none; of one actor; and of nobody.
const DEALT: [(&str, &str); 3] = [
    (
        "\
day,2026-03-02,,,,,,
actor,ann,,,,,,
actor,bob,,,,,,
show,ann,1,,,,,
actor,cid,,,,,,
setday,cid,2026-03-03,,,,,
setday,ann,2026-03-04,,,,,
show,cid,2,,,,,
surrender,ann,3,,,,,
end,,,,,,,
",
        " sdg  ds",
    ),
    (
        "\
day,2026-03-02,,,,,,
node,A,,,,,,
node,B,,,,,,
node,C,,,,,,
segment,S,A,B,5,,,
segment,T,B,C,5,,,
span,P,S,240,1000,,,
truck,K,ACME,168,102,720,0:1 180:1,
actor,ann,,,,,,
apply,ann,K,A,C,,2026-03-02,2026-03-06
end,,,,,,,
",
        " a",
    ),
    ("day,2026-03-02,,,,,,\nend,,,,,,,\n", ""),
];

fn kinds(rt: &impl Abort, alloc: Global, scripts: &[Vec<Command>]) -> String {
    let mut kinds = String::new(alloc);
    for script in scripts {
        kinds.push(' ').expect(rt, "memory");
        for command in script {
            kinds.push(letter(command)).expect(rt, "memory");
        }
    }
    kinds
}

// What was read is let go by a call of `drop`: where a scope lets it go, the proof of the whole function goes through its parts. For the
// same reason no function both reads and goes through a table.
fn deal(rt: &impl Abort, alloc: Global, text: &str, wanted: &str) {
    let file = read_day(alloc, text.as_bytes()).expect(rt, text);
    let file = prepare(alloc, file).expect(rt, "memory");
    let (base, _, scripts) = file.into_scripts(alloc).expect(rt, "memory");
    drop(base);
    let kinds = kinds(rt, alloc, scripts.as_slice());
    drop(scripts);
    holds(rt, kinds.as_str() == wanted, text);
}

#[test]
fn gives_each_actor_its_commands(rt: HostRuntime) {
    for &(text, wanted) in &DEALT {
        deal(&rt, rt.alloc(), text, wanted);
    }
}
