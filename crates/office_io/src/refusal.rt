// The refusal that sources and sinks share.

use thiserror::Error;

/// A source or a sink failed in this call. Its count of faults rose.
#[derive(Clone, Copy, Debug, Drop, PartialEq, Eq, Error)]
#[error("the outside failed")]
pub struct Failed;
