// The effects of a loading on a span.

use influence_line::Frac;

/// The two effects of a loading on a span: its peak moment in pounds times inches, and its peak end
/// shear in pounds.
#[derive(Clone, Copy, Debug, PartialEq, Eq)]
pub struct Effects {
    pub moment: Frac,
    pub shear: Frac,
}

/// The effects of a truck on a span, and those of the design truck there.
#[derive(Clone, Copy, PartialEq, Eq)]
pub struct Study {
    pub truck: Effects,
    pub design: Effects,
}
