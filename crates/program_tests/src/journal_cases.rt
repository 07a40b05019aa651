// Cases of runs that write a journal.

use crate::cases::{Case, Notices};
use crate::days::{
    ANNUAL, ANNUAL_JOURNAL, AT_ALLOWANCE, AT_ALLOWANCE_JOURNAL, BEGUN_MARKED, BEGUN_RETURNED,
    BEGUN_TRIP, BEGUN_TRIP_JOURNAL, Front, GIVEN_BACK, GIVEN_BACK_JOURNAL, ISSUED, ISSUED_JOURNAL,
    ISSUED_MARKED, ISSUED_MARKED_AND_RETURNED, ISSUED_RETURNED, ISSUED_TO_A_LEAP_DAY,
    ISSUED_TO_A_LEAP_DAY_JOURNAL, LATE, LATE_JOURNAL, LEGAL, LEGAL_JOURNAL, OVER_ALLOWANCE,
    OVER_ALLOWANCE_JOURNAL, RATED, RATED_JOURNAL, RECALLING, RECALLING_JOURNAL,
};

// Whole journals of days, which audits judge legal.
pub(crate) const DAYS: [Case; 19] = [
    ("day", Front::Load, ISSUED, 0, ISSUED_JOURNAL),
    (
        "day",
        Front::Load,
        ISSUED_TO_A_LEAP_DAY,
        0,
        ISSUED_TO_A_LEAP_DAY_JOURNAL,
    ),
    ("day", Front::Load, RECALLING, 0, RECALLING_JOURNAL),
    ("day", Front::Load, GIVEN_BACK, 0, GIVEN_BACK_JOURNAL),
    ("day", Front::Load, LATE, 0, LATE_JOURNAL),
    (
        "day",
        Front::Road,
        OVER_ALLOWANCE,
        0,
        OVER_ALLOWANCE_JOURNAL,
    ),
    ("day", Front::Road, AT_ALLOWANCE, 0, AT_ALLOWANCE_JOURNAL),
    ("day", Front::Road, RATED, 0, RATED_JOURNAL),
    ("day", Front::Road, LEGAL, 0, LEGAL_JOURNAL),
    ("day", Front::Ways, ANNUAL, 0, ANNUAL_JOURNAL),
    ("day", Front::Begun, BEGUN_TRIP, 0, BEGUN_TRIP_JOURNAL),
    (
        "day",
        Front::Load,
        "apply,ann,T1,A,B,S1,2026-03-02,2026-03-06\nend,,,,,,,\n",
        0,
        "permit-journal 3\n1 snapshot = at 0\n1 submit truck 1 from 1 to 2 asked 1 days 2026-03-02 2026-03-06 seen 0 route 1 = issued 1 at 0 route 1\nend 2\n",
    ),
    // what is asked for: any route, one, or up to eight, of which some may be equal
    (
        "day",
        Front::Ways,
        "apply,ann,T1,A,B,,2026-03-02,2030-03-02\nend,,,,,,,\n",
        0,
        "permit-journal 3\n1 snapshot = at 0\n1 submit truck 1 from 1 to 2 asked none days 2026-03-02 2030-03-02 seen 0 route 1 = issued 1 at 0 route 1\nend 2\n",
    ),
    (
        "day",
        Front::Ways,
        "apply,ann,T1,A,B,S2 S3,2026-03-02,2030-03-02\nend,,,,,,,\n",
        0,
        "permit-journal 3\n1 snapshot = at 0\n1 submit truck 1 from 1 to 2 asked 2,3 days 2026-03-02 2030-03-02 seen 0 route 2,3 = issued 1 at 0 route 2,3\nend 2\n",
    ),
    (
        "day",
        Front::Ways,
        "apply,ann,T1,A,B,S1|S2 S3,2026-03-02,2027-03-02\nend,,,,,,,\n",
        0,
        "permit-journal 3\n1 snapshot = at 0\n1 submit truck 1 from 1 to 2 asked 1/2,3 days 2026-03-02 2027-03-02 seen 0 route 1/2,3 = issued 1 at 0 route 1/2,3\nend 2\n",
    ),
    (
        "day",
        Front::Ways,
        "apply,ann,T1,A,B,S2 S3|S1,2026-03-02,2026-03-02\nend,,,,,,,\n",
        0,
        "permit-journal 3\n1 snapshot = at 0\n1 submit truck 1 from 1 to 2 asked 2,3/1 days 2026-03-02 2026-03-02 seen 0 route 2,3/1 = issued 1 at 0 route 2,3/1\nend 2\n",
    ),
    (
        "day",
        Front::Ways,
        "apply,ann,T1,A,B,S1|S1,2026-03-02,2027-03-02\nend,,,,,,,\n",
        0,
        "permit-journal 3\n1 snapshot = at 0\n1 submit truck 1 from 1 to 2 asked 1/1 days 2026-03-02 2027-03-02 seen 0 route 1/1 = issued 1 at 0 route 1/1\nend 2\n",
    ),
    (
        "day",
        Front::Ways,
        "apply,ann,T1,A,B,S1|S1|S2 S3|S1|S1|S1|S1|S2 S3,2026-03-02,2027-03-02\nend,,,,,,,\n",
        0,
        "permit-journal 3\n1 snapshot = at 0\n1 submit truck 1 from 1 to 2 asked 1/1/2,3/1/1/1/1/2,3 days 2026-03-02 2027-03-02 seen 0 route 1/1/2,3/1/1/1/1/2,3 = issued 1 at 0 route 1/1/2,3/1/1/1/1/2,3\nend 2\n",
    ),
    // no actor
    (
        "day",
        Front::Nothing,
        "day,2026-03-02,,,,,,\nend,,,,,,,\n",
        0,
        "permit-journal 3\nend 0\n",
    ),
];

// Days behind the mark of UTF-8, and with lines that end with two bytes, as some programs write them.
pub(crate) const WRITTEN: [Case; 5] = [
    ("day", Front::Nothing, BEGUN_MARKED, 0, BEGUN_TRIP_JOURNAL),
    ("day", Front::Nothing, BEGUN_RETURNED, 0, BEGUN_TRIP_JOURNAL),
    ("day", Front::Nothing, ISSUED_MARKED, 0, ISSUED_JOURNAL),
    ("day", Front::Nothing, ISSUED_RETURNED, 0, ISSUED_JOURNAL),
    (
        "day",
        Front::Nothing,
        ISSUED_MARKED_AND_RETURNED,
        0,
        ISSUED_JOURNAL,
    ),
];

// A posting recalls permit 1, of a carrier ACME: who hears of all recalls is told of it, after the whole journal was written. Where it
// can't be told the status is 8, and the journal stands.
pub(crate) const HEARD: [(Case, Notices); 2] = [
    (
        ("day", Front::Load, RECALLING, 0, RECALLING_JOURNAL),
        Notices::Told("1 1 ACME\n"),
    ),
    (
        ("day", Front::Load, RECALLING, 8, RECALLING_JOURNAL),
        Notices::Unheard,
    ),
];
