//! Which limit of a road segment a load fails first, and whether it fails any.
//!
//! A load is a truck as the road sees it: its height, width and length, and its axles. A segment is tested in this order:
//! it is closed; the load is higher, wider, longer or heavier than is posted; a group of axles weighs more than the
//! allowance of its limit by 23 CFR 658.17; a tridem group weighs more than is posted; and then, for each bridge span by rising number, the peak moment and the peak
//! end shear are over the span's rating in thousandths of the HS20-44 truck's of the AASHTO Standard Specifications.
//! Every limit is met at equality. The order, and the legal height of 162 in, are this project's own.
//!
//! A load keeps what its axles ask of spans, so that it is found once for all who judge it. Whether a segment meets
//! a load is told without peaks; they are computed where a limit is named.
#![tactic(auto)]

mod crossing;
mod first_limit;
mod laws;
mod limit;
mod load;
mod met_limits;
mod steps;

pub use first_limit::first_failing;
pub use hs20_truck::Kept;
pub use laws::{
    limits_are_of_their_segment, named_limit_fails, named_limit_is_first,
    none_is_named_where_none_fails,
};
pub use limit::Limit;
pub use load::{Load, Range, is_cross_section, is_length};
pub use met_limits::{meets, meets_at_first};
pub use steps::Steps;
