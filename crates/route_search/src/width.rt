// How many feet a bucket of waiting nodes takes.

ghost use Rattle.std.specs.Prelude.{◌<◌};

use road_graph::Network;

/// About how many nodes are looked at.
const SAMPLE: u32 = 16;

/// The binary logarithm of a width for the buckets: one more than the mean of those of the segments, as the segments that
/// end at some nodes tell it. A few very long segments do not make it much greater.
pub(crate) fn shift(network: &Network) -> u32
    ensures { result < 64 }
{
    let nodes = network.nodes();
    let step = nodes / SAMPLE + 1;
    let mut sum: u64 = 0;
    let mut count: u64 = 0;
    let mut node = 0;
    'nodes: while node < nodes {
        for arrival in network.incoming(node) {
            let logarithm = 31 - arrival.feet.max(1).leading_zeros();
            sum = sum.saturating_add(u64::from(logarithm));
            count = count.saturating_add(1);
        }
        node += step;
    }
    (sum / count.max(1)).min(62) as u32 + 1
}
