// What the tests of this crate share.

ghost use Rattle.std.specs.Prelude.{◌≡◌, []};
ghost use Rattle.std.specs.Arc.{arc_value};
ghost use Rattle.trip_analysis.specs.Applications.{Sound};

use day_text::read_day;
use journal_reader::read;
use journal_text::print;
use names::Name;
use notice_desk::Recall;
use office_core::Office;
use office_words::{Entry, Reply};
use permit_days::Day;
use std::alloc::Global;
use std::process::Abort;
use std::sync::Arc;
use trip_analysis::{Application, Base};

// A name of these bytes, which are one.
pub fn named(rt: &impl Abort, bytes: &[u8]) -> Name {
    Name::new(bytes).expect(rt, "a name")
}

// A recall of this permit, by the posting of this version.
pub fn recall(rt: &impl Abort, permit: u32, version: u32, carrier: &[u8]) -> Recall {
    Recall {
        permit,
        version,
        carrier: named(rt, carrier),
    }
}

// The day of a text, which writes one.
pub fn day(rt: &impl Abort, text: &str) -> Day {
    Day::read(text.as_bytes()).expect(rt, "a day")
}

// One segment from node a to node b.
pub const ALONE: &str = "segment,ab,a,b,1000,,,\n";

// That segment, and a way around it by node c.
pub const AROUND: &str = "segment,ab,a,b,1000,,,\nsegment,ac,a,c,1000,,,\nsegment,cb,c,b,1000,,,\n";

// A second segment from node a to node b.
pub const TWO_WAYS: &str = "segment,ab,a,b,1000,,,\nsegment,ab2,a,b,1000,,,\n";

// One segment, with a span of 20 ft that is rated as the design truck.
const BRIDGE: &str = "segment,ab,a,b,1000,,,\nspan,s,ab,240,1000,,,\n";

// What an office is about: its segments, the height of the first, and how many entries there is room for.
pub type About = (&'static str, u32, u32);

pub const ONE_WAY: About = (ALONE, 168, 100);

pub const WAY_AROUND: About = (AROUND, 168, 100);

pub const OVER_A_BRIDGE: About = (BRIDGE, 168, 100);

// The first truck is too high for it.
pub const SHUT_WAY: About = (ALONE, 160, 100);

pub const ROOM_FOR_ONE: About = (ALONE, 168, 1);

pub const ROOM_FOR_TWO: About = (ALONE, 168, 2);

// Three trucks with axles within the federal limits: one 168 in high, one that is lower and wide, and a legal one; and the design
// truck HS20-44, with its rear axles 14 ft apart.
const TRUCKS: &str = "\
truck,t1,ACME,168,102,720,0:12000 180:17000 228:17000,
truck,t2,BETA,150,110,720,0:12000 180:17000 228:17000,
truck,t3,ACME,162,102,720,0:12000 180:17000 228:17000,
truck,t4,ACME,150,102,720,0:8000 168:32000 336:32000,
";

// The roads and the trucks of a day file.
pub fn base_of(rt: &impl Abort, alloc: Global, text: &str) -> Base {
    let file = read_day(alloc, text.as_bytes()).expect(rt, "a day file");
    let (base, _, actors, orders) = file.into_parts();
    drop(actors);
    drop(orders);
    base
}

// Nodes a, b and c, these segments of which the first is posted at a height in inches, and the three trucks.
pub fn base(rt: &impl Abort, alloc: Global, segments: &str, height: u32) -> Base {
    let text = format!(in alloc;
        "day,2026-03-02,,,,,,\nnode,a,,,,,,\nnode,b,,,,,,\nnode,c,,,,,,\n{segments}limit,ab,height,{height},,,,\n{TRUCKS}end,,,,,,,\n"
    );
    base_of(rt, alloc, text.expect(rt, "memory").as_str())
}

// An office about this base on the first day, with room for so many entries.
pub fn office(rt: &impl Abort, alloc: Global, base: Arc<Base, Global>, most: u32) -> Office
    ensures base { result.base ≡ arc_value base }
    ensures opened { result.history ≡ [] }
{
    assert!(rt; 1 <= most && most <= 1_000_000);
    Office::start(alloc, base, day(rt, "2026-03-02"), most).expect(rt, "memory")
}

// The same about a base that nobody else has.
pub fn office_about(rt: &impl Abort, alloc: Global, base: Base, most: u32) -> Office
    ensures { result.history ≡ [] }
{
    office(rt, alloc, Arc::new(alloc, base).expect(rt, "memory"), most)
}

// The trip of a truck from the first node to another, without an asked route, from a day of March 2026 to the sixth.
pub fn application(rt: &impl Abort, base: &Base, truck: u32, to: u32, first: &str) -> Application
    ensures { Sound base.now result }
{
    assert!(rt; (truck as usize) < base.fleet().len() && to < base.network().nodes());
    let (first, last) = (day(rt, first), day(rt, "2026-03-06"));
    Application::new(base, truck, 0, to, None, first, last).expect(rt, "an application")
}

// The entries of these lines of a journal.
pub fn entries(rt: &impl Abort, alloc: Global, lines: &str) -> Vec<Entry> {
    let count = lines.lines().count();
    let text = format!(in alloc; "permit-journal 3\n{lines}end {count}\n").expect(rt, "memory");
    read(alloc, text.as_bytes()).expect(rt, lines)
}

// The journal of the office has these lines.
pub fn has_lines(rt: &impl Abort, alloc: Global, office: &Office, lines: &str) {
    let count = lines.lines().count();
    let wanted = format!(in alloc; "permit-journal 3\n{lines}end {count}\n").expect(rt, "memory");
    let journal = print(alloc, office.history()).expect(rt, "memory");
    assert!(rt; journal.as_slice() == wanted.as_bytes(), "{lines}");
}

// How many entries a full history holds, where that is the reply, and else 0.
pub fn full_at(reply: Reply) -> u32 {
    match reply {
        Reply::Full { entries } => entries,
        _ => 0,
    }
}

// The journal of the office ends with this text: the last reply, and how many entries there are.
pub fn journal_ends(rt: &impl Abort, alloc: Global, office: &Office, wanted: &str) {
    let journal = print(alloc, office.history()).expect(rt, "memory");
    assert!(rt; journal.ends_with(wanted.as_bytes()), "{wanted}");
}
