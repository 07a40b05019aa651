// What is answered for one start alone.

use road_graph::{Numbers, SharedNumbers};

/// The shortest passable walk, or why there is none.
#[derive(Debug, Drop)]
pub enum Shortest {
    /// Of the passable walks of least length the first in dictionary order.
    Route {
        /// The numbers of its segments.
        segments: Numbers,
        /// Its length in feet.
        length: u64,
    },
    /// There are walks, and none is passable.
    Cut {
        /// The nodes that passable walks reach, rising.
        reached: SharedNumbers,
    },
    /// There is no walk.
    NoRoad {
        /// The nodes that walks reach, rising.
        reached: SharedNumbers,
    },
}
