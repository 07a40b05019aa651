ghost use Rattle.std.specs.Prelude.{◌≤◌};

use crate::fixtures::same;
use names::{BadName, Name};
use office_io::{
    Failed, MemorySink, MemorySource, ReadRefusal, Sink, Source, StdSink, StdSource, WriteFault,
    read_all, write_all,
};
use std::alloc::Global;
use std::process::Abort;

// A source of so many bytes x, whose calls of these numbers fail.
fn source_of(rt: &impl Abort, alloc: Global, len: usize, failing: &[u32]) -> MemorySource {
    let failing = failing.to_vec(alloc).expect(rt, "memory");
    MemorySource::new(vec![in alloc; b'x'; len].expect(rt, "memory"), failing)
}

// How many bytes are read, each of which is an x.
fn read_len(
    rt: &impl Abort,
    alloc: Global,
    source: &mut MemorySource,
    limit: u32,
) -> Result<usize, ReadRefusal>
    requires { limit ≤ 4194304 }
{
    let bytes = read_all(alloc, source, limit)?;
    let len = bytes.len();
    let all = bytes.iter().all(|b| *b == b'x');
    drop(bytes);
    assert!(rt; all);
    Ok(len)
}

// How many bytes there are, the limit, what is read, and how many bytes are read by a second call.
const READ: [(usize, u32, Result<usize, ReadRefusal>, usize); 7] = [
    (0, 0, Ok(0), 0),
    (3, 3, Ok(3), 0),
    (3, 4_194_304, Ok(3), 0),
    (40_000, 40_000, Ok(40_000), 0),
    // one byte more than the limit is taken
    (1, 0, Err(ReadRefusal::TooLong), 0),
    (5, 3, Err(ReadRefusal::TooLong), 1),
    (40_001, 40_000, Err(ReadRefusal::TooLong), 0),
];

#[test]
fn takes_all_bytes_up_to_the_limit_or_one_more(rt: HostRuntime) {
    for (row, &(len, limit, first, second)) in READ.iter().enumerate() {
        assert!(rt; limit <= 4_194_304);
        let mut source = source_of(&rt, rt.alloc(), len, &[]);
        let one = read_len(&rt, rt.alloc(), &mut source, limit);
        let other = read_len(&rt, rt.alloc(), &mut source, 10);
        drop(source);
        same(&rt, row, (one, other), (first, Ok(second)));
    }
}

// It takes three reads: two pieces, and one that finds the end.
#[test]
fn hands_on_a_fault_of_each_read(rt: HostRuntime) {
    for call in 1..=4u32 {
        let mut source = source_of(&rt, rt.alloc(), 20_000, &[call]);
        let read = read_len(&rt, rt.alloc(), &mut source, 4_194_304);
        drop(source);
        let wanted = if call < 4 {
            Err(ReadRefusal::ReadFault)
        } else {
            Ok(20_000)
        };
        same(&rt, call as usize, read, wanted);
    }
}

// Bytes that are written to a sink with room for five, whose second write fails, and what is answered.
const WRITTEN: [(&[u8], Result<(), WriteFault>); 5] = [
    (b"abc", Ok(())),
    (b"de", Err(WriteFault { written: 0 })),
    (b"de", Ok(())),
    (b"", Ok(())),
    (b"f", Err(WriteFault { written: 0 })),
];

#[test]
fn appends_what_there_is_room_for(rt: HostRuntime) {
    let failing = [2].to_vec(rt.alloc()).expect(&rt, "memory");
    let mut sink = MemorySink::new(rt.alloc(), 5, failing).expect(&rt, "memory");
    for (row, &(bytes, answer)) in WRITTEN.iter().enumerate() {
        same(&rt, row, write_all(&mut sink, bytes), answer);
    }
    let is_all = sink.bytes() == b"abcde".as_slice();
    drop(sink);
    assert!(rt; is_all);
}

#[test]
fn tells_how_much_was_written(rt: HostRuntime) {
    let mut sink = MemorySink::new(rt.alloc(), 2, Vec::new(rt.alloc())).expect(&rt, "memory");
    let answer = write_all(&mut sink, b"abc");
    let is_front = sink.bytes() == b"ab".as_slice();
    drop(sink);
    same(&rt, 0, answer, Err(WriteFault { written: 2 }));
    assert!(rt; is_front);
}

#[test]
fn adapts_a_reader(rt: HostRuntime) {
    let mut source = StdSource::new(b"abc".as_slice());
    let read = read_all(rt.alloc(), &mut source, 10).expect(&rt, "three bytes");
    let is_abc = read.as_slice() == b"abc".as_slice();
    drop(read);
    assert!(rt; is_abc);
}

// A slice that is full takes nothing, which is a fault of the sink.
#[test]
fn adapts_a_writer(rt: HostRuntime) {
    let mut room = [0u8; 2];
    let mut sink = StdSink::new(&mut room[..]);
    same(&rt, 0, sink.write(b"ab"), Ok(2));
    same(&rt, 1, sink.write(b""), Ok(0));
    same(&rt, 2, sink.write(b"c"), Err(Failed));
}

// Whether a text is a name, which then has its bytes.
fn is_name(text: &str) -> bool {
    match Name::new(text.as_bytes()) {
        Ok(name) => name.as_bytes() == text.as_bytes(),
        Err(BadName) => false,
    }
}

const NAMES: [&str; 8] = ["a", "Z", "0", "-", "_", "n0-0", "1234567890123456", "A-b_9"];

const NO_NAMES: [&str; 11] = [
    "",
    "12345678901234567",
    "a b",
    "a.b",
    "a/b",
    "a:b",
    "a@b",
    "a[b",
    "a`b",
    "a{b",
    "\u{e9}",
];

#[test]
fn names_are_short_words(rt: HostRuntime) {
    for &text in &NAMES {
        assert!(rt; is_name(text), "{text} is a name");
    }
    for &text in &NO_NAMES {
        assert!(rt; Name::new(text.as_bytes()).is_err(), "{text} is no name");
    }
}

// A name of these bytes, which are one.
fn named(rt: &impl Abort, bytes: &[u8]) -> Name {
    Name::new(bytes).expect(rt, "a name")
}

#[test]
fn names_print_and_compare_by_their_bytes(rt: HostRuntime) {
    let (one, other) = (named(&rt, b"S1"), named(&rt, b"S12"));
    assert!(rt; one == named(&rt, b"S1") && one != other);
    let text = format!(in rt.alloc(); "{one} {other}").expect(&rt, "memory");
    assert_eq!(rt; text.as_str(), "S1 S12");
}
