// The numbers of the rules: spreads and sizes in inches, weights in pounds.

/// 23 CFR 658.5: axles at most this far apart are a single axle.
pub const SINGLE_SPREAD: u32 = 40;

/// 23 CFR 658.5: axles further apart than a single axle's and at most this far are a tandem axle.
pub const TANDEM_SPREAD: u32 = 96;

/// Three axles further apart, from first to last, than a tandem axle's and at most this far are a tridem group. No federal rule
/// has one, and this is the project's own choice.
pub const TRIDEM_SPREAD: u32 = 144;

/// 23 CFR 658.17(e): 36 ft, the least distance from first to last at which two tandem axles have a limit of their own.
pub const TWO_TANDEM_SPREAD: u32 = 432;

/// 23 CFR 658.17(c): the limit of a single axle.
pub const SINGLE_LIMIT: u32 = 20000;

/// 23 CFR 658.17(d): the limit of a tandem axle.
pub const TANDEM_LIMIT: u32 = 34000;

/// 23 CFR 658.17(e): the limit of two tandem axles, 34,000 lb each.
pub const TWO_TANDEM_LIMIT: u32 = 68000;

/// 23 CFR 658.17(b): the limit of the gross weight.
pub const GROSS_LIMIT: u32 = 80000;

/// 23 CFR 658.15: the greatest legal width.
pub const LEGAL_WIDTH: u32 = 102;

/// The greatest legal height, 13 ft 6 in. No federal rule has one, and this is the project's own choice.
pub const LEGAL_HEIGHT: u32 = 162;
