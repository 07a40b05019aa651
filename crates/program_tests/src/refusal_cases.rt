// Cases of words that ask for nothing, and of whole inputs that are refused.

use crate::cases::Case;
use crate::days::{Front, MEETING};
use crate::report_cases::FHWA;

const USAGE: &str =
    "usage: permit_cli check|day|make|trial|audit|design|convoy|reroute [--seed N] [--size N] [--trucks N] [--gap N]\n";

// Words that ask for nothing are answered by how the program is used; which these are is tested where words are read.
pub(crate) const WORDS: [Case; 8] = [
    ("", Front::Nothing, FHWA, 2, USAGE),
    ("check|check", Front::Nothing, FHWA, 2, USAGE),
    ("Day", Front::Nothing, FHWA, 2, USAGE),
    ("day ", Front::Nothing, FHWA, 2, USAGE),
    ("--help", Front::Nothing, FHWA, 2, USAGE),
    ("make|--size|41", Front::Nothing, FHWA, 2, USAGE),
    ("convoy|--trucks|1", Front::Nothing, FHWA, 2, USAGE),
    ("convoy|--gap|3001", Front::Nothing, FHWA, 2, USAGE),
];

// Inputs that are no file of their task; trucks that are no convoy: 2 * 612 + 2,500 = 3,724 in, 7 * 5 = 35 axles, and six axles of
// 200,000 lb twice. Of some the last line is cut off.
pub(crate) const REFUSED: [Case; 21] = [
    ("check", Front::Nothing, "", 5, "refused: record 1 end\n"),
    ("check", Front::Light, "", 5, "refused: record 2 end\n"),
    (
        "check",
        Front::Light,
        "end,,,,,,,\nend,,,,,,,\n",
        5,
        "refused: record 3 order\n",
    ),
    ("check", Front::Load, MEETING, 5, "refused: record 1 kind\n"),
    ("design", Front::Nothing, "", 5, "refused: record 1 end\n"),
    (
        "design",
        Front::Load,
        MEETING,
        5,
        "refused: record 1 kind\n",
    ),
    (
        "convoy|--gap|2500",
        Front::Nothing,
        FHWA,
        5,
        "refused: convoy 2\n",
    ),
    (
        "convoy|--trucks|7",
        Front::Nothing,
        FHWA,
        5,
        "refused: convoy 1\n",
    ),
    (
        "convoy",
        Front::Nothing,
        "truck,HEAVY,ACME,150,102,500,0:200000 1:200000 2:200000 3:200000 4:200000 5:200000,\nend,,,,,,,\n",
        5,
        "refused: convoy 3\n",
    ),
    (
        "convoy|--gap|2500",
        Front::Load,
        MEETING,
        5,
        "refused: record 1 kind\n",
    ),
    ("reroute", Front::Nothing, "", 5, "refused: record 1 end\n"),
    (
        "reroute",
        Front::Nothing,
        FHWA,
        5,
        "refused: record 1 order\n",
    ),
    ("day", Front::Nothing, "", 5, "refused: record 1 end\n"),
    (
        "day",
        Front::Nothing,
        "day,\"2026-0",
        5,
        "refused: record 1 fields\n",
    ),
    ("day", Front::Nothing, FHWA, 5, "refused: record 1 order\n"),
    (
        "day",
        Front::Nothing,
        "day,2026-03-02,,,,,,\nend,,,,,,,\nend,,,,,,,\n",
        5,
        "refused: record 3 order\n",
    ),
    (
        "day",
        Front::Nothing,
        "day,2026-03-02,,,,,,\nend,,,,,,,\nroad,,,,,,,\n",
        5,
        "refused: record 3 kind\n",
    ),
    ("day", Front::Begun, "", 5, "refused: record 10 end\n"),
    (
        "day",
        Front::Begun,
        "\"node",
        5,
        "refused: record 10 fields\n",
    ),
    (
        "day",
        Front::Road,
        "\
limit,S1,height,168,,,,
truck,T1,ACME,168,102,720,0:12000,
actor,ann,,,,,,
apply,ann,T1,A,A,S9,2026-03-02,2026-03-06
end,,,,,,,
",
        5,
        "refused: record 6 train 1\n",
    ),
    (
        "day",
        Front::Nothing,
        "\
day,2026-03-02,,,,,,
actor,a1,,,,,,
actor,a2,,,,,,
actor,a3,,,,,,
actor,a4,,,,,,
actor,a5,,,,,,
actor,a6,,,,,,
actor,a7,,,,,,
actor,a8,,,,,,
actor,a9,,,,,,
actor,b1,,,,,,
actor,b2,,,,,,
actor,b3,,,,,,
actor,b4,,,,,,
actor,b5,,,,,,
actor,b6,,,,,,
actor,b7,,,,,,
actor,b8,,,,,,
end,,,,,,,
",
        6,
        "refused: record 18 actors\n",
    ),
];
