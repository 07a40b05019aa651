use crate::fixtures::same;
use bridge_formula::limit;

// A spread in inches, how many axles, and their limit in the federal bridge formula table.
const TABLE: [(u32, u32, u32); 27] = [
    // whole feet, from 9 on
    (9 * 12, 2, 39000),
    (10 * 12, 2, 40000),
    (9 * 12, 3, 42500),
    (10 * 12, 3, 43500),
    (11 * 12, 3, 44000),
    (12 * 12, 3, 45000),
    (13 * 12, 3, 45500),
    (20 * 12, 3, 51000),
    (32 * 12, 3, 60000),
    (12 * 12, 4, 50000),
    (16 * 12, 4, 52500),
    (20 * 12, 4, 55500),
    (35 * 12, 4, 65500),
    (36 * 12, 4, 66000),
    (57 * 12, 4, 80000),
    (16 * 12, 5, 58000),
    (20 * 12, 5, 60500),
    (36 * 12, 5, 70500),
    (51 * 12, 5, 80000),
    (20 * 12, 6, 66000),
    (43 * 12, 6, 80000),
    (24 * 12, 7, 74000),
    // the table's line 'more than 8 and less than 9 feet', and spreads between whole feet
    (97, 2, 38000),
    (97, 3, 42000),
    (431, 4, 66000),
    (131, 3, 44000),
    (133, 3, 44500),
];

#[test]
fn agrees_with_the_published_table(rt: HostRuntime) {
    for &(inches, axles, pounds) in &TABLE {
        assert!(rt; 96 < inches && inches <= 3000 && 2 <= axles && axles <= 32);
        let found = limit(inches, axles);
        assert_eq!(rt; found, pounds, "{axles} axles over {inches} in");
    }
}
