// Changes of limits and ratings.

ghost use Rattle.std.specs.Prelude.{◌≡◌, ◌<◌, length, true};
ghost use Rattle.restriction_log.specs.Changes.{change_of, replaced_by, takes, touched};

use road_graph::{Network, Span, What};

/// One limit of a segment, or the rating of a span, as it is to be from now on.
#[derive(Clone, Copy, Debug, PartialEq, Eq)]
pub enum Change {
    /// The segment is closed, or open again.
    Closed { segment: u32, closed: bool },
    /// The greatest height.
    Height { segment: u32, inches: u32 },
    /// The greatest width.
    Width { segment: u32, inches: u32 },
    /// The greatest length.
    Length { segment: u32, inches: u32 },
    /// The greatest gross weight.
    Gross { segment: u32, pounds: u32 },
    /// The allowance on the limit of each axle group.
    Allowance { segment: u32, permille: u32 },
    /// The greatest weight of a tridem group.
    Tridem { segment: u32, pounds: u32 },
    /// The load rating of a span.
    Rating { span: u32, permille: u32 },
}

/// What a change replaces, and by which number: a limit of a segment, or the rating of a span.
#[derive(Clone, Copy)]
pub enum Replaced {
    Limit {
        segment: u32,
        what: What,
        value: u32,
    },
    Rating {
        span: u32,
        permille: u32,
    },
}

impl Change {
    /// The change of a limit of a segment to this value. A segment is closed by 1, and open by any other number. Takes no
    /// memory.
    pub fn of(segment: u32, what: What, value: u32) -> Change
        ensures { result ≡ change_of segment what value }
    {
        match what {
            What::Closed => Change::Closed {
                segment,
                closed: value == 1,
            },
            What::Height => Change::Height {
                segment,
                inches: value,
            },
            What::Width => Change::Width {
                segment,
                inches: value,
            },
            What::Length => Change::Length {
                segment,
                inches: value,
            },
            What::Gross => Change::Gross {
                segment,
                pounds: value,
            },
            What::Allowance => Change::Allowance {
                segment,
                permille: value,
            },
            What::Tridem => Change::Tridem {
                segment,
                pounds: value,
            },
        }
    }

    /// What the change replaces, and by which number. Takes no memory.
    pub fn replaced(self) -> Replaced
        ensures { result ≡ replaced_by self }
    {
        let (segment, what, value) = match self {
            Change::Closed { segment, closed } => (segment, What::Closed, u32::from(closed)),
            Change::Height { segment, inches } => (segment, What::Height, inches),
            Change::Width { segment, inches } => (segment, What::Width, inches),
            Change::Length { segment, inches } => (segment, What::Length, inches),
            Change::Gross { segment, pounds } => (segment, What::Gross, pounds),
            Change::Allowance { segment, permille } => (segment, What::Allowance, permille),
            Change::Tridem { segment, pounds } => (segment, What::Tridem, pounds),
            Change::Rating { span, permille } => return Replaced::Rating { span, permille },
        };
        Replaced::Limit {
            segment,
            what,
            value,
        }
    }
}

/// Whether the segment or the span that the change names is there, and the value is in its range. Takes no memory.
pub fn takes(network: &Network, change: &Change) -> bool
    ensures { result ≡ takes network.now change.now }
{
    match change.replaced() {
        Replaced::Limit {
            segment,
            what,
            value,
        } => segment < network.segments() && what.takes(value),
        Replaced::Rating { span, permille } => {
            span < network.spans() && Span::takes_rating(permille)
        }
    }
}

/// The segment that the change names, itself or by its span. Takes no memory.
pub fn touched(network: &Network, change: &Change) -> u32
    requires { takes network.now change.now ≡ true }
    ensures value { result ≡ touched network.now change.now }
    ensures within { result < length network.now.segments }
{
    match change.replaced() {
        Replaced::Limit { segment, .. } => segment,
        Replaced::Rating { span, .. } => network.span(span).segment,
    }
}
