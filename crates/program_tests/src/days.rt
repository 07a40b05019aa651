// Day files and their journals, for the tests: what they begin with stands once, and a day is what follows it. Those of `examples/`
// stand there alone: the gate compares what the program writes for them, and audits it.

// A road from A to B.
const ROAD: &str = "\
day,2026-03-02,,,,,,
node,A,,,,,,
node,B,,,,,,
segment,S1,A,B,5000,,,
";

// The road, posted at 168 in, a load as high as that, which needs a permit, and an actor.
const LOAD: &str = "\
day,2026-03-02,,,,,,
node,A,,,,,,
node,B,,,,,,
segment,S1,A,B,5000,,,
limit,S1,height,168,,,,
truck,T1,ACME,168,102,720,0:12000 180:17000 228:17000,
actor,ann,,,,,,
";

// Two ways from A to B, the segment S1 and S2 with S3 behind it, that load, and an actor.
const WAYS: &str = "\
day,2026-03-02,,,,,,
node,A,,,,,,
node,B,,,,,,
node,C,,,,,,
segment,S1,A,B,1000,,,
segment,S2,A,C,1000,,,
segment,S3,C,B,1000,,,
truck,T1,ACME,168,102,720,0:12000 180:17000 228:17000,
actor,ann,,,,,,
";

// Nine records: three nodes, two segments one behind the other, a span, a truck and an actor.
const BEGUN: &str = "\
day,2026-03-02,,,,,,
node,A,,,,,,
node,B,,,,,,
node,C,,,,,,
segment,S,A,B,5,,,
segment,T,B,C,5,,,
span,P,S,240,1000,,,
truck,K,ACME,168,102,720,0:1 180:1,
actor,ann,,,,,,
";

/// What an input begins with.
#[derive(Clone, Copy)]
pub(crate) enum Front {
    Nothing,
    Road,
    Load,
    Ways,
    Begun,
    /// the record of the HS20-44 truck
    Hs20,
    /// the record of a truck of two axles of a pound
    Light,
}

impl Front {
    pub(crate) fn text(self) -> &'static str {
        match self {
            Front::Nothing => "",
            Front::Road => ROAD,
            Front::Load => LOAD,
            Front::Ways => WAYS,
            Front::Begun => BEGUN,
            Front::Hs20 => "truck,HS20,ACME,150,102,500,0:8000 168:32000 336:32000,\n",
            Front::Light => "truck,T,A,1,1,1,0:1 1:1,\n",
        }
    }
}

/// A trip of the load over its road.
pub(crate) const ISSUED: &str = "\
apply,ann,T1,A,B,,2026-03-02,2026-03-06
end,,,,,,,
";

pub(crate) const ISSUED_JOURNAL: &str = "\
permit-journal 3
1 snapshot = at 0
1 submit truck 1 from 1 to 2 asked none days 2026-03-02 2026-03-06 seen 0 route 1 = issued 1 at 0 route 1
end 2
";

/// The same until a leap day.
pub(crate) const ISSUED_TO_A_LEAP_DAY: &str = "\
apply,ann,T1,A,B,,2026-03-02,2028-02-29
end,,,,,,,
";

pub(crate) const ISSUED_TO_A_LEAP_DAY_JOURNAL: &str = "\
permit-journal 3
1 snapshot = at 0
1 submit truck 1 from 1 to 2 asked none days 2026-03-02 2028-02-29 seen 0 route 1 = issued 1 at 0 route 1
end 2
";

/// Two loads with a permit, and a posting of 167 in that recalls the higher one's; the same posting again recalls none.
pub(crate) const RECALLING: &str = "\
truck,T2,BOLT,150,110,720,0:12000 180:17000 228:17000,
apply,ann,T1,A,B,,2026-03-02,2026-03-06
apply,ann,T2,A,B,,2026-03-02,2026-03-06
post,ann,S1,height,167,,,
show,ann,1,,,,,
post,ann,S1,height,167,,,
end,,,,,,,
";

pub(crate) const RECALLING_JOURNAL: &str = "\
permit-journal 3
1 snapshot = at 0
1 submit truck 1 from 1 to 2 asked none days 2026-03-02 2026-03-06 seen 0 route 1 = issued 1 at 0 route 1
1 snapshot = at 0
1 submit truck 2 from 1 to 2 asked none days 2026-03-02 2026-03-06 seen 0 route 1 = issued 2 at 0 route 1
1 post segment 1 height 167 = posted 1 recalled 1
1 show 1 = shown 1 caller 1 truck 1 days 2026-03-02 2026-03-06 at 0 seen 0 recalled 1
1 post segment 1 height 167 = posted 2 recalled -
end 7
";

/// A day set back, a permit given back twice, and a permit that was never issued.
pub(crate) const GIVEN_BACK: &str = "\
apply,ann,T1,A,B,,2026-03-02,2026-03-06
setday,ann,2026-03-01,,,,,
surrender,ann,1,,,,,
surrender,ann,1,,,,,
show,ann,0,,,,,
end,,,,,,,
";

pub(crate) const GIVEN_BACK_JOURNAL: &str = "\
permit-journal 3
1 snapshot = at 0
1 submit truck 1 from 1 to 2 asked none days 2026-03-02 2026-03-06 seen 0 route 1 = issued 1 at 0 route 1
1 day 2026-03-01 = dayback 2026-03-02
1 surrender 1 = surrendered
1 surrender 1 = notinforce surrendered
1 show 0 = unknown
end 6
";

/// A trip that would begin before the day.
pub(crate) const LATE: &str = "\
apply,ann,T1,A,B,,2026-03-01,2026-03-06
end,,,,,,,
";

pub(crate) const LATE_JOURNAL: &str = "\
permit-journal 3
1 snapshot = at 0
1 submit truck 1 from 1 to 2 asked none days 2026-03-01 2026-03-06 seen 0 route 1 = late 2026-03-02
end 2
";

/// On the road alone, an allowance that the worst axle group is over.
pub(crate) const OVER_ALLOWANCE: &str = "\
limit,S1,allowance,1038,,,,
truck,FHWA,ACME,162,102,720,0:12000 192:17000 240:17000 564:17000 612:17000,
actor,ann,,,,,,
apply,ann,FHWA,A,B,,2026-03-02,2026-03-06
end,,,,,,,
";

pub(crate) const OVER_ALLOWANCE_JOURNAL: &str = "\
permit-journal 3
1 snapshot = at 0
1 submit truck 1 from 1 to 2 asked none days 2026-03-02 2026-03-06 seen 0 cut 1 = refused 0 segment 1 group 2-5 weight 68000 limit 65500 allowance 1038
end 2
";

/// The allowance at which that group passes.
pub(crate) const AT_ALLOWANCE: &str = "\
limit,S1,allowance,1039,,,,
truck,FHWA,ACME,162,102,720,0:12000 192:17000 240:17000 564:17000 612:17000,
actor,ann,,,,,,
apply,ann,FHWA,A,B,,2026-03-02,2026-03-06
end,,,,,,,
";

pub(crate) const AT_ALLOWANCE_JOURNAL: &str = "\
permit-journal 3
1 snapshot = at 0
1 submit truck 1 from 1 to 2 asked none days 2026-03-02 2026-03-06 seen 0 route 1 = issued 1 at 0 route 1
end 2
";

/// A bridge rated as the design truck itself, then a thousandth less.
pub(crate) const RATED: &str = "\
span,B1,S1,240,1000,,,
truck,HS20,ACME,150,102,500,0:8000 168:32000 336:32000,
actor,ann,,,,,,
apply,ann,HS20,A,B,,2026-03-02,2026-03-06
post,ann,B1,rating,999,,,
apply,ann,HS20,A,B,,2026-03-02,2026-03-06
end,,,,,,,
";

pub(crate) const RATED_JOURNAL: &str = "\
permit-journal 3
1 snapshot = at 0
1 submit truck 1 from 1 to 2 asked none days 2026-03-02 2026-03-06 seen 0 route 1 = issued 1 at 0 route 1
1 post span 1 rating 999 = posted 1 recalled 1
1 snapshot = at 1
1 submit truck 1 from 1 to 2 asked none days 2026-03-02 2026-03-06 seen 1 cut 1 = refused 1 segment 1 span 1 moment 1920000/1 hs20 1920000/1 rating 999
end 5
";

/// A truck by the two-tandem exception, which needs no permit.
pub(crate) const LEGAL: &str = "\
limit,S1,height,168,,,,
truck,T1,ACME,162,102,720,0:12000 180:17000 228:17000 564:17000 612:17000,
actor,ann,,,,,,
apply,ann,T1,A,B,,2026-03-02,2026-03-06
end,,,,,,,
";

pub(crate) const LEGAL_JOURNAL: &str = "\
permit-journal 3
1 snapshot = at 0
1 submit truck 1 from 1 to 2 asked none days 2026-03-02 2026-03-06 seen 0 none = notneeded
end 2
";

/// A permit for a year on both ways, of which a posting closes the second.
pub(crate) const ANNUAL: &str = "\
apply,ann,T1,A,B,S1|S2 S3,2026-03-02,2027-03-02
post,ann,S3,closed,1,,,
end,,,,,,,
";

pub(crate) const ANNUAL_JOURNAL: &str = "\
permit-journal 3
1 snapshot = at 0
1 submit truck 1 from 1 to 2 asked 1/2,3 days 2026-03-02 2027-03-02 seen 0 route 1/2,3 = issued 1 at 0 route 1/2,3
1 post segment 3 closed 1 = posted 1 recalled 1
end 3
";

/// A trip over both segments of the nine records.
pub(crate) const BEGUN_TRIP: &str = "\
apply,ann,K,A,C,,2026-03-02,2026-03-06
end,,,,,,,
";

pub(crate) const BEGUN_TRIP_JOURNAL: &str = "\
permit-journal 3
1 snapshot = at 0
1 submit truck 1 from 1 to 3 asked none days 2026-03-02 2026-03-06 seen 0 route 1,2 = issued 1 at 0 route 1,2
end 2
";

/// The nine records and the trip, behind the mark of UTF-8.
pub(crate) const BEGUN_MARKED: &str = "\
\u{feff}day,2026-03-02,,,,,,
node,A,,,,,,
node,B,,,,,,
node,C,,,,,,
segment,S,A,B,5,,,
segment,T,B,C,5,,,
span,P,S,240,1000,,,
truck,K,ACME,168,102,720,0:1 180:1,
actor,ann,,,,,,
apply,ann,K,A,C,,2026-03-02,2026-03-06
end,,,,,,,
";

/// The same with lines that end with two bytes, as some programs write them.
pub(crate) const BEGUN_RETURNED: &str = "\
day,2026-03-02,,,,,,\r
node,A,,,,,,\r
node,B,,,,,,\r
node,C,,,,,,\r
segment,S,A,B,5,,,\r
segment,T,B,C,5,,,\r
span,P,S,240,1000,,,\r
truck,K,ACME,168,102,720,0:1 180:1,\r
actor,ann,,,,,,\r
apply,ann,K,A,C,,2026-03-02,2026-03-06\r
end,,,,,,,\r
";

/// The road of the load and its trip, behind the mark of UTF-8, with lines that end with two bytes, and with both.
pub(crate) const ISSUED_MARKED: &str = "\
\u{feff}day,2026-03-02,,,,,,
node,A,,,,,,
node,B,,,,,,
segment,S1,A,B,5000,,,
limit,S1,height,168,,,,
truck,T1,ACME,168,102,720,0:12000 180:17000 228:17000,
actor,ann,,,,,,
apply,ann,T1,A,B,,2026-03-02,2026-03-06
end,,,,,,,
";

pub(crate) const ISSUED_RETURNED: &str = "\
day,2026-03-02,,,,,,\r
node,A,,,,,,\r
node,B,,,,,,\r
segment,S1,A,B,5000,,,\r
limit,S1,height,168,,,,\r
truck,T1,ACME,168,102,720,0:12000 180:17000 228:17000,\r
actor,ann,,,,,,\r
apply,ann,T1,A,B,,2026-03-02,2026-03-06\r
end,,,,,,,\r
";

pub(crate) const ISSUED_MARKED_AND_RETURNED: &str = "\
\u{feff}day,2026-03-02,,,,,,\r
node,A,,,,,,\r
node,B,,,,,,\r
segment,S1,A,B,5000,,,\r
limit,S1,height,168,,,,\r
truck,T1,ACME,168,102,720,0:12000 180:17000 228:17000,\r
actor,ann,,,,,,\r
apply,ann,T1,A,B,,2026-03-02,2026-03-06\r
end,,,,,,,\r
";

/// Two actors on the road of the load: one applies for it, as high as the road's posting, the other posts an inch less. The journal has
/// the posting between what the first found and its submit.
pub(crate) const MEETING: &str = "\
actor,eng,,,,,,
apply,ann,T1,A,B,,2026-03-02,2026-03-06
post,eng,S1,height,167,,,
end,,,,,,,
";

pub(crate) const MEETING_JOURNAL: &str = "\
permit-journal 3
1 snapshot = at 0
2 post segment 1 height 167 = posted 1 recalled -
1 submit truck 1 from 1 to 2 asked none days 2026-03-02 2026-03-06 seen 0 route 1 = outdated 1 fails segment 1 height 168 over 167
1 snapshot = at 1
1 submit truck 1 from 1 to 2 asked none days 2026-03-02 2026-03-06 seen 1 cut 1 = refused 1 segment 1 height 168 over 167
end 5
";

/// Two actors who apply for the load.
pub(crate) const BOTH: &str = "\
actor,bob,,,,,,
apply,ann,T1,A,B,,2026-03-02,2026-03-06
apply,bob,T1,A,B,,2026-03-02,2026-03-06
end,,,,,,,
";

/// Its journals, where each has found a route before either submits: who looks first may submit last.
pub(crate) const BOTH_ISSUED: [&str; 4] = [
    "\
permit-journal 3
1 snapshot = at 0
2 snapshot = at 0
1 submit truck 1 from 1 to 2 asked none days 2026-03-02 2026-03-06 seen 0 route 1 = issued 1 at 0 route 1
2 submit truck 1 from 1 to 2 asked none days 2026-03-02 2026-03-06 seen 0 route 1 = issued 2 at 0 route 1
end 4
",
    "\
permit-journal 3
1 snapshot = at 0
2 snapshot = at 0
2 submit truck 1 from 1 to 2 asked none days 2026-03-02 2026-03-06 seen 0 route 1 = issued 1 at 0 route 1
1 submit truck 1 from 1 to 2 asked none days 2026-03-02 2026-03-06 seen 0 route 1 = issued 2 at 0 route 1
end 4
",
    "\
permit-journal 3
2 snapshot = at 0
1 snapshot = at 0
1 submit truck 1 from 1 to 2 asked none days 2026-03-02 2026-03-06 seen 0 route 1 = issued 1 at 0 route 1
2 submit truck 1 from 1 to 2 asked none days 2026-03-02 2026-03-06 seen 0 route 1 = issued 2 at 0 route 1
end 4
",
    "\
permit-journal 3
2 snapshot = at 0
1 snapshot = at 0
2 submit truck 1 from 1 to 2 asked none days 2026-03-02 2026-03-06 seen 0 route 1 = issued 1 at 0 route 1
1 submit truck 1 from 1 to 2 asked none days 2026-03-02 2026-03-06 seen 0 route 1 = issued 2 at 0 route 1
end 4
",
];

/// Two actors on that road: one applies, the other shuts the road and opens it, four times. The journal has a posting between what the
/// first found and its submit in each of its eight attempts.
pub(crate) const OVERTAKING: &str = "\
actor,eng,,,,,,
apply,ann,T1,A,B,,2026-03-02,2026-03-06
post,eng,S1,closed,1,,,
post,eng,S1,closed,0,,,
post,eng,S1,closed,1,,,
post,eng,S1,closed,0,,,
post,eng,S1,closed,1,,,
post,eng,S1,closed,0,,,
post,eng,S1,closed,1,,,
post,eng,S1,closed,0,,,
end,,,,,,,
";

pub(crate) const OVERTAKING_JOURNAL: &str = "\
permit-journal 3
1 snapshot = at 0
2 post segment 1 closed 1 = posted 1 recalled -
1 submit truck 1 from 1 to 2 asked none days 2026-03-02 2026-03-06 seen 0 route 1 = outdated 1 fails segment 1 closed
1 snapshot = at 1
2 post segment 1 closed 0 = posted 2 recalled -
1 submit truck 1 from 1 to 2 asked none days 2026-03-02 2026-03-06 seen 1 cut 1 = outdated 2 meets segment 1
1 snapshot = at 2
2 post segment 1 closed 1 = posted 3 recalled -
1 submit truck 1 from 1 to 2 asked none days 2026-03-02 2026-03-06 seen 2 route 1 = outdated 3 fails segment 1 closed
1 snapshot = at 3
2 post segment 1 closed 0 = posted 4 recalled -
1 submit truck 1 from 1 to 2 asked none days 2026-03-02 2026-03-06 seen 3 cut 1 = outdated 4 meets segment 1
1 snapshot = at 4
2 post segment 1 closed 1 = posted 5 recalled -
1 submit truck 1 from 1 to 2 asked none days 2026-03-02 2026-03-06 seen 4 route 1 = outdated 5 fails segment 1 closed
1 snapshot = at 5
2 post segment 1 closed 0 = posted 6 recalled -
1 submit truck 1 from 1 to 2 asked none days 2026-03-02 2026-03-06 seen 5 cut 1 = outdated 6 meets segment 1
1 snapshot = at 6
2 post segment 1 closed 1 = posted 7 recalled -
1 submit truck 1 from 1 to 2 asked none days 2026-03-02 2026-03-06 seen 6 route 1 = outdated 7 fails segment 1 closed
1 snapshot = at 7
2 post segment 1 closed 0 = posted 8 recalled -
1 submit truck 1 from 1 to 2 asked none days 2026-03-02 2026-03-06 seen 7 cut 1 = outdated 8 meets segment 1
1 held truck 1 from 1 to 2 asked none days 2026-03-02 2026-03-06 = issued 1 at 8 route 1
end 25
";
