// Records each of which is refused, behind why.

use crate::days::Front;

// Records that are none, behind why each is refused.
const NONE: &str = "\
fields: node,D,,,,,
fields: node,D,,,,,,,
kind: road,D,,,,,,
kind: probe,240,1000,,,,,
order: day,2026-03-02,,,,,,
extra: node,D,x,,,,,
extra: segment,U,A,B,5,x,,
extra: limit,S,height,168,,,,x
extra: span,Q,S,240,1000,,x,
extra: truck,L,ACME,168,102,720,0:1 180:1,x
extra: actor,bob,x,,,,,
extra: post,ann,S,height,1,x,,
extra: setday,ann,2026-03-02,x,,,,
extra: surrender,ann,1,x,,,,
extra: show,ann,1,x,,,,
extra: end,x,,,,,,
";

// Fields of another form.
const FORMS: &str = "\
field 2: node,,,,,,,
field 2: node,12345678901234567,,,,,,
field 5: segment,U,A,B,-5,,,
field 4: segment,U,A,,1234567890,,,
field 3: limit,S,rating,1,,,,
field 5: span,Q,S,240,1 0,,,
field 7: truck,L,ACME,168,102,720,0:1;180:1,
field 4: post,ann,S,weight,1,,,
field 3: setday,ann,2026/03/02,,,,,
field 3: surrender,ann,x,,,,,
field 6: apply,ann,K,A,B,S  T,2026-03-02,2026-03-06
field 7: apply,ann,K,A,B,,2026-3-02,2026-03-06
field 8: apply,ann,K,A,B,,2026-03-02,20260306
";

// Names that are taken or missing.
const NAMES: &str = "\
same: node,A,,,,,,
same: segment,S,D,D,0,,,
same: span,P,U,0,1000,,,
same: truck,K,ACME,0,102,720,0:1 180:1,
same: actor,ann,,,,,,
unknown 3: segment,U,D,D,0,,,
unknown 4: segment,U,A,D,0,,,
unknown 2: limit,U,height,0,,,,
unknown 3: span,Q,U,0,1000,,,
unknown 2: apply,bob,L,D,D,U,0000-01-01,0000-01-01
unknown 3: apply,ann,L,D,D,U,0000-01-01,0000-01-01
unknown 4: apply,ann,K,D,D,U,0000-01-01,0000-01-01
unknown 5: apply,ann,K,A,D,U,0000-01-01,0000-01-01
unknown 6: apply,ann,K,A,A,S U,0000-01-01,0000-01-01
unknown 2: post,bob,U,height,0,,,
unknown 3: post,ann,P,height,0,,,
unknown 3: post,ann,S,rating,0,,,
unknown 2: setday,bob,0000-01-01,,,,,
unknown 2: show,bob,1,,,,,
";

// Values out of range.
const VALUES: &str = "\
range 5: segment,U,A,B,0,,,
range 5: segment,U,A,B,10000001,,,
range 4: limit,S,closed,2,,,,
range 4: limit,S,height,1000,,,,
range 4: span,Q,S,6001,100001,,,
range 5: span,Q,S,240,100001,,,
range 4: truck,L,ACME,0,0,0,0:1,
range 5: truck,L,ACME,168,1000,0,0:1,
range 6: truck,L,ACME,168,102,10000,0:1,
train 1: truck,L,ACME,168,102,720,0:1,
train 3: truck,L,ACME,168,102,720,0:1 0:1,
train 4: truck,L,ACME,168,102,720,0:1 180:0,
train 6: truck,L,ACME,168,102,720,0:1 3001:1,
range 5: post,ann,S,gross,0,,,
range 5: post,ann,P,rating,100001,,,
range 3: setday,ann,2026-13-01,,,,,
range 7: apply,ann,K,A,A,S,2026-00-01,0000-01-01
range 8: apply,ann,K,A,A,S,2026-03-02,0000-01-01
same-place: apply,ann,K,A,A,S,2026-03-06,2026-03-02
broken-route: apply,ann,K,A,C,S,2026-03-06,2026-03-02
broken-route: apply,ann,K,A,C,T S,2026-03-06,2026-03-02
day-order: apply,ann,K,A,C,S T,2026-03-06,2026-03-02
";

// Routes of another form, that are no walks, or for too long.
const ROUTES: &str = "\
annual-days: apply,ann,T1,A,B,S1|S2 S3,2026-03-02,2027-03-03
annual-days: apply,ann,T1,A,B,S1|S1,2026-03-02,2027-03-03
day-order: apply,ann,T1,A,B,S1|S1,2026-03-02,2026-03-01
broken-route: apply,ann,T1,A,B,S1|S2,2026-03-02,2027-03-02
broken-route: apply,ann,T1,A,B,S2|S1,2026-03-02,2027-03-03
broken-route: apply,ann,T1,A,B,S1|S3 S2,2026-03-02,2026-03-01
unknown 6: apply,ann,T1,A,B,S1|S4,2026-03-02,2026-03-01
field 6: apply,ann,T1,A,B,S1|,2026-03-02,2027-03-02
field 6: apply,ann,T1,A,B,|S1,2026-03-02,2027-03-02
field 6: apply,ann,T1,A,B,|,2026-03-02,2027-03-02
field 6: apply,ann,T1,A,B,||,2026-03-02,2027-03-02
field 6: apply,ann,T1,A,B,S1||S1,2026-03-02,2027-03-02
field 6: apply,ann,T1,A,B,S1 |S1,2026-03-02,2027-03-02
field 6: apply,ann,T1,A,B,S1| S1,2026-03-02,2027-03-02
field 6: apply,ann,T1,A,B,S1|S1|S1|S1|S1|S1|S1|S1|S1,2026-03-02,2027-03-02
";

// Trips from a place to itself, over a road that is not there, and to 29 February of a year that has none.
const TRIPS: &str = "\
same-place: apply,ann,T1,A,A,,2026-03-02,2026-03-06
unknown 6: apply,ann,T1,A,B,S9,2026-03-02,2026-03-06
range 8: apply,ann,T1,A,B,,2026-03-02,2027-02-29
";

// What begins no day.
const BEGINNINGS: &str = "\
order: node,A,,,,,,
order: end,,,,,,,
range 2: day,0000-01-01,,,,,,
";

// What begins no check file.
const NO_CHECKS: &str = "\
order: probe,240,1000,,,,,
extra: truck,T,A,1,1,1,0:1 1:1,x
field 3: truck,T,A B,1,1,1,0:1 1:1,
range 6: truck,T,A,1,1,0,0:1,
train 1: truck,T,A,1,1,1,0:1,
";

// What stands behind the truck of no check file.
const NO_PROBES: &str = "\
order: truck,T,A,1,1,1,0:1 1:1,
kind: node,A,,,,,,
field 3: probe,0,x,,,,,
range 2: probe,0,100001,,,,,
range 3: probe,6000,100001,,,,,
";

// The word of a run, what its input begins with, the number of the record behind that, and records, each of which is refused there.
pub(crate) const RECORDS: [(&str, Front, u32, &str); 9] = [
    ("day", Front::Begun, 10, NONE),
    ("day", Front::Begun, 10, FORMS),
    ("day", Front::Begun, 10, NAMES),
    ("day", Front::Begun, 10, VALUES),
    ("day", Front::Ways, 10, ROUTES),
    ("day", Front::Load, 8, TRIPS),
    ("day", Front::Nothing, 1, BEGINNINGS),
    ("check", Front::Nothing, 1, NO_CHECKS),
    ("check", Front::Light, 2, NO_PROBES),
];
