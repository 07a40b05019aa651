// Cases of runs that write a report.

use crate::cases::Case;
use crate::days::{Front, MEETING};

/// The example truck of the Federal Highway Administration.
pub(crate) const FHWA: &str = "\
truck,FHWA,ACME,162,102,720,0:12000 192:17000 240:17000 564:17000 612:17000,
end,,,,,,,
";

const FHWA_REPORT: &str = "\
truck FHWA axles 5 gross 80000
over 2-5 68000 65500 formula
legal no
";

// Reports of `check`: the example truck; two like it, of which one meets the two-tandem exception and the other is one inch short of
// it; a truck that is too high and too wide; every rule of a finding; two axles of a pound, an inch apart, whose moment is greatest
// where the middle of the span is a quarter of an inch from an axle, 239.5 * 239.5 / 480; the HS20-44 truck on a span that carries it
// by the least rating that is enough, and by a thousandth less; and on two spans, of which the rating of one fits by equality and
// that of the other by nothing.
pub(crate) const CHECKS: [Case; 9] = [
    ("check", Front::Nothing, FHWA, 0, FHWA_REPORT),
    ("--size|2|check", Front::Nothing, FHWA, 0, FHWA_REPORT),
    (
        "check",
        Front::Nothing,
        "\
truck,FHWA,ACME,162,102,720,0:12000 180:17000 228:17000 564:17000 612:17000,
end,,,,,,,
",
        0,
        "\
truck FHWA axles 5 gross 80000
legal yes
",
    ),
    (
        "check",
        Front::Nothing,
        "\
truck,FHWA,ACME,162,102,720,0:12000 180:17000 228:17000 563:17000 611:17000,
end,,,,,,,
",
        0,
        "\
truck FHWA axles 5 gross 80000
over 2-5 68000 66000 formula
legal no
",
    ),
    (
        "check",
        Front::Nothing,
        "\
truck,TWO,ACME,163,103,720,0:12000 180:17000 228:17000,
end,,,,,,,
",
        0,
        "\
truck TWO axles 3 gross 46000
high 163 162
wide 103 102
legal no
",
    ),
    (
        "check",
        Front::Nothing,
        "\
truck,FOUR,A,162,102,9999,0:21000 40:1 81:33000 3000:30000,
end,,,,,,,
",
        0,
        "\
truck FOUR axles 4 gross 84001
over 1-1 21000 20000 single
over 1-2 21001 20000 single
over 1-3 54001 34000 tandem
over 3-3 33000 20000 single
over 4-4 30000 20000 single
over 1-4 84001 80000 gross
legal no
",
    ),
    (
        "check",
        Front::Light,
        "\
probe,240,1000,,,,,
end,,,,,,,
",
        0,
        "\
truck T axles 2 gross 2
legal yes
span 240
moment 229441/1920 at 4 479 479 axle 1 run 1-2
shear 479/240 at 0 left
hs20 1920000/1 41600/1
rating 1000 fits
",
    ),
    (
        "check",
        Front::Hs20,
        "\
probe,240,1000,,,,,
probe,240,999,,,,,
end,,,,,,,
",
        0,
        "\
truck HS20 axles 3 gross 72000
over 1-3 72000 57000 formula
over 2-2 32000 20000 single
over 2-3 64000 44000 formula
over 3-3 32000 20000 single
legal no
span 240
moment 1920000/1 at 1 -48 120 axle 2 run 2-2
shear 41600/1 at -168 left
hs20 1920000/1 41600/1
rating 1000 fits
span 240
moment 1920000/1 at 1 -48 120 axle 2 run 2-2
shear 41600/1 at -168 left
hs20 1920000/1 41600/1
rating 999 moment
",
    ),
    (
        "check",
        Front::Hs20,
        "\
probe,360,1000,,,,,
probe,1200,0,,,,,
end,,,,,,,
",
        0,
        "\
truck HS20 axles 3 gross 72000
over 1-3 72000 57000 formula
over 2-2 32000 20000 single
over 2-3 64000 44000 formula
over 3-3 32000 20000 single
legal no
span 360
moment 3385600/1 at 1 -30 138 axle 2 run 2-3
shear 49600/1 at 24 right
hs20 3385600/1 49600/1
rating 1000 fits
span 1200
moment 18287040/1 at 1 404 572 axle 2 run 1-3
shear 65280/1 at 864 right
hs20 18287040/1 65280/1
rating 0 moment
",
    ),
];

// Reports of `design`. On 240 in two axles of 24,000 lb that are 48 in apart govern, with 24000 * 432 * 432 / 1920 and
// 24000 + 24000 * 192 / 240; the HS20-44 truck has 1,920,000 and 41,600, which are 823.05 and 962.96 thousandths. On 1,200 in the truck
// governs, and on 1,800 in the lane load: (20 * 1800 * 1800 + 13500 * 1800) / 3 and (80 * 1800 + 78000) / 3.
// Reports of `convoy`. With 48 in between two HS20-44 trucks the rear axle of the first and the front axle of the second give
// 40000 * 115.2 * 115.2 / 240; the shear has the middle axle of the first truck at the left support: 32000 + 32000 * 72 / 240 +
// 8000 * 24 / 240. With 360 in they are never on 240 in at once, and so are the last two of three trucks.
pub(crate) const LOADINGS: [Case; 4] = [
    (
        "design",
        Front::Hs20,
        "\
probe,240,823,,,,,
probe,240,962,,,,,
probe,240,963,,,,,
probe,1200,999,,,,,
probe,1200,1000,,,,,
probe,1800,1000,,,,,
end,,,,,,,
",
        0,
        "\
span 240
moment 2332800/1 military
shear 43200/1 military
rating 823 moment
span 240
moment 2332800/1 military
shear 43200/1 military
rating 962 shear
span 240
moment 2332800/1 military
shear 43200/1 military
rating 963 fits
span 1200
moment 18287040/1 truck
shear 65280/1 truck
rating 999 moment
span 1200
moment 18287040/1 truck
shear 65280/1 truck
rating 1000 fits
span 1800
moment 29700000/1 lane
shear 74000/1 lane
rating 1000 fits
",
    ),
    (
        "convoy|--trucks|2|--gap|48",
        Front::Hs20,
        "\
probe,240,1152,,,,,
probe,240,1151,,,,,
end,,,,,,,
",
        0,
        "\
convoy 2 gap 48 axles 6 gross 144000
span 240
moment 2211840/1
shear 42400/1
rating 1152 fits
span 240
moment 2211840/1
shear 42400/1
rating 1151 moment
",
    ),
    (
        "convoy",
        Front::Hs20,
        "\
probe,240,1000,,,,,
end,,,,,,,
",
        0,
        "\
convoy 2 gap 360 axles 6 gross 144000
span 240
moment 1920000/1
shear 41600/1
rating 1000 fits
",
    ),
    (
        "--trucks=3|convoy",
        Front::Hs20,
        "end,,,,,,,\n",
        0,
        "convoy 3 gap 360 axles 9 gross 216000\n",
    ),
];

// Reports of `reroute`, which reads options and uses none. Both ways are closed in turn. Then the permit is for both ways, so that
// closing the longer one recalls it; the replacement goes the shorter way, is recalled a day before its last and replaced once more;
// what was refused is not tried again when its way opens. Then there is no other way, and last there is nothing.
pub(crate) const REROUTES: [Case; 5] = [
    (
        "reroute",
        Front::Ways,
        "\
apply,ann,T1,A,B,,2026-03-02,2026-03-06
post,ann,S1,closed,1,,,
post,ann,S3,closed,1,,,
end,,,,,,,
",
        0,
        "\
permit 1 replaced 2 at 1 route 2,3
permit 2 refused 2 segment 1 closed
",
    ),
    (
        "reroute|--gap|7",
        Front::Ways,
        "\
apply,ann,T1,A,B,,2026-03-02,2026-03-06
post,ann,S1,closed,1,,,
post,ann,S3,closed,1,,,
end,,,,,,,
",
        0,
        "\
permit 1 replaced 2 at 1 route 2,3
permit 2 refused 2 segment 1 closed
",
    ),
    (
        "reroute",
        Front::Ways,
        "\
actor,eve,,,,,,
apply,ann,T1,A,B,S1|S2 S3,2026-03-02,2026-03-06
post,eve,S3,closed,1,,,
post,eve,S3,closed,0,,,
setday,ann,2026-03-05,,,,,
post,eve,S1,height,167,,,
post,eve,S2,gross,45000,,,
post,eve,S1,height,168,,,
end,,,,,,,
",
        0,
        "\
permit 1 replaced 2 at 1 route 1
permit 2 replaced 3 at 3 route 2,3
permit 3 refused 4 segment 1 height 168 over 167
",
    ),
    (
        "reroute",
        Front::Load,
        MEETING,
        0,
        "permit 1 refused 1 segment 1 height 168 over 167\n",
    ),
    (
        "reroute",
        Front::Nothing,
        "day,2026-03-02,,,,,,\nend,,,,,,,\n",
        0,
        "",
    ),
];
