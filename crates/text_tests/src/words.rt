use crate::fixtures::same;
use command_line::{Asked, Options, Task, WordsRefusal, read_words};
use std::alloc::Global;
use std::process::Abort;

// What these words ask for. There is a bar between them.
fn read(rt: &impl Abort, alloc: Global, words: &str) -> Result<Asked, WordsRefusal> {
    let mut list = Vec::new(alloc);
    for word in words.split('|') {
        let word = word.to_string(alloc).expect(rt, "memory");
        list.push(word).expect(rt, "memory");
    }
    read_words(alloc, list.as_slice())
}

// What the documents of clap 4 say of each line: an option's value is the next word or follows `=`, before or after the
// positional (`Arg::long`); without it the default stands (`Arg::default_value`); `RangedI64ValueParser` reads as Rust's
// `i64` does, with zeros or a plus in front, and takes its range; words after `--` are positional (`Arg::last`).
// The words, and what they ask for: the task, and the seed, the size, the trucks and the gap.
const ASKED: [(&str, Task, [u32; 4]); 23] = [
    ("check", Task::Check, [1, 1, 2, 360]),
    ("day", Task::Day, [1, 1, 2, 360]),
    ("make", Task::Make, [1, 1, 2, 360]),
    ("trial", Task::Trial, [1, 1, 2, 360]),
    ("design", Task::Design, [1, 1, 2, 360]),
    ("convoy", Task::Convoy, [1, 1, 2, 360]),
    ("reroute", Task::Reroute, [1, 1, 2, 360]),
    ("--seed|5|make", Task::Make, [5, 1, 2, 360]),
    ("make|--seed=5", Task::Make, [5, 1, 2, 360]),
    ("make|--seed|007", Task::Make, [7, 1, 2, 360]),
    ("make|--seed|+5", Task::Make, [5, 1, 2, 360]),
    ("make|--seed=-0", Task::Make, [0, 1, 2, 360]),
    ("make|--seed|65535", Task::Make, [65_535, 1, 2, 360]),
    ("--size=40|trial|--seed=0", Task::Trial, [0, 40, 2, 360]),
    ("check|--size|2|--seed|3", Task::Check, [3, 2, 2, 360]),
    ("convoy|--gap|1", Task::Convoy, [1, 1, 2, 1]),
    (
        "--trucks=2|convoy|--gap=3000",
        Task::Convoy,
        [1, 1, 2, 3000],
    ),
    ("convoy|--trucks|16", Task::Convoy, [1, 1, 16, 360]),
    ("day|--gap|5|--trucks|3", Task::Day, [1, 1, 3, 5]),
    (
        "design|--gap=4|--size=3|--seed=2",
        Task::Design,
        [2, 3, 2, 4],
    ),
    ("--|make", Task::Make, [1, 1, 2, 360]),
    ("--seed|5|--|day", Task::Day, [5, 1, 2, 360]),
    ("make|--", Task::Make, [1, 1, 2, 360]),
];

#[test]
fn asks_for_a_task_with_its_numbers(rt: HostRuntime) {
    for (row, &(words, task, [seed, size, trucks, gap])) in ASKED.iter().enumerate() {
        let options = Options {
            seed,
            size,
            trucks,
            gap,
        };
        let wanted = Ok(Asked { task, options });
        same(&rt, row, read(&rt, rt.alloc(), words), wanted);
    }
}

// A number out of its range or with a word beside it is an `InvalidValue` or `ValueValidation`, a value that begins with a
// hyphen none unless it follows `=` (`Arg::allow_hyphen_values`), an option that is used twice an `ArgumentConflict`
// (`ArgAction::Set`), a name that is cut short or unknown an `UnknownArgument` (`Command::infer_long_args`), and so is a
// second positional; a missing COMMAND is a `MissingRequiredArgument` (`Arg::required`), and `-h` and `--help` end in
// `DisplayHelp`.
const REFUSED: [&str; 33] = [
    "",
    "--",
    "mak",
    "CHECK",
    "check ",
    "prüfe",
    "check|day",
    "check|check",
    "-h",
    "--help",
    "make|--help",
    "--seed|5",
    "make|--seed",
    "make|--seed|",
    "make|--seed|five",
    "make|--seed|5 ",
    "make|--seed|-1",
    "make|--seed=-1",
    "make|--seed|65536",
    "make|--seed|18446744073709551616",
    "make|--size|0",
    "make|--size|41",
    "make|--seed|1|--seed|1",
    "make|--speed|1",
    "make|--see|1",
    "make|--|--seed|5",
    "designs",
    "convoy|--trucks|1",
    "convoy|--trucks|17",
    "convoy|--gap|0",
    "convoy|--gap=3001",
    "check|--trucks|2|--trucks|2",
    "convoy|--gap",
];

#[test]
fn refuses_what_the_command_line_does_not_take(rt: HostRuntime) {
    let refused = Err(WordsRefusal::Usage);
    same(&rt, 0, read_words(rt.alloc(), &[]), refused);
    for (row, &words) in REFUSED.iter().enumerate() {
        same(&rt, row, read(&rt, rt.alloc(), words), refused);
    }
}
