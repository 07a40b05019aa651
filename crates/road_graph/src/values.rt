// The limits of a segment.

ghost use Rattle.std.specs.Prelude.{◌≡◌};
ghost use Rattle.road_graph.specs.Ranges.{is_limit, default_values, with_value};
ghost use Rattle.road_graph.specs.Words.{what_of, what_word};

/// The limits in force on a segment.
#[derive(Clone, Copy, Debug, PartialEq, Eq)]
pub struct Values {
    /// Whether nothing may pass.
    pub closed: bool,
    /// The greatest height in inches, 1 to 999.
    pub height: u32,
    /// The greatest width in inches, 1 to 999.
    pub width: u32,
    /// The greatest length in inches, 1 to 9,999.
    pub length: u32,
    /// The greatest gross weight in pounds, 1 to 2,000,000.
    pub gross: u32,
    /// What an axle group may weigh, in per mille of its federal limit, 0 to 100,000.
    pub allowance: u32,
    /// The greatest weight of a tridem group in pounds, 1 to 600,000.
    pub tridem: u32,
}

/// Which of the limits of a segment is meant.
#[derive(Clone, Copy, Debug, PartialEq, Eq)]
pub enum What {
    /// Whether the segment is closed: 1 says yes, 0 says no.
    Closed,
    /// The greatest height.
    Height,
    /// The greatest width.
    Width,
    /// The greatest length.
    Length,
    /// The greatest gross weight.
    Gross,
    /// The allowance on the limit of each axle group.
    Allowance,
    /// The greatest weight of a tridem group.
    Tridem,
}

impl What {
    /// The word for this limit, in records and in journals. Takes no memory.
    pub fn word(self) -> &'static str
        ensures { result.now ≡ what_word self }
    {
        match self {
            What::Closed => "closed",
            What::Height => "height",
            What::Width => "width",
            What::Length => "length",
            What::Gross => "gross",
            What::Allowance => "allowance",
            What::Tridem => "tridem",
        }
    }

    /// The limit of this word. Takes no memory.
    pub fn of_word(text: &[u8]) -> Option<What>
        ensures { result ≡ what_of text.now }
    {
        if text == "closed".as_bytes() {
            Some(What::Closed)
        } else if text == "height".as_bytes() {
            Some(What::Height)
        } else if text == "width".as_bytes() {
            Some(What::Width)
        } else if text == "length".as_bytes() {
            Some(What::Length)
        } else if text == "gross".as_bytes() {
            Some(What::Gross)
        } else if text == "allowance".as_bytes() {
            Some(What::Allowance)
        } else if text == "tridem".as_bytes() {
            Some(What::Tridem)
        } else {
            None
        }
    }

    /// Whether the value is in the range of this limit. Takes no memory.
    pub fn takes(self, value: u32) -> bool
        ensures { result ≡ is_limit self value }
    {
        match self {
            What::Closed => value <= 1,
            What::Height | What::Width => 1 <= value && value <= 999,
            What::Length => 1 <= value && value <= 9999,
            What::Gross => 1 <= value && value <= 2000000,
            What::Allowance => value <= 100000,
            What::Tridem => 1 <= value && value <= 600000,
        }
    }
}

impl Values {
    /// These limits with one of them replaced. Takes no memory.
    pub fn with(self, what: What, value: u32) -> Values
        ensures { result ≡ with_value self what value }
    {
        let mut values = self;
        match what {
            What::Closed => values.closed = value == 1,
            What::Height => values.height = value,
            What::Width => values.width = value,
            What::Length => values.length = value,
            What::Gross => values.gross = value,
            What::Allowance => values.allowance = value,
            What::Tridem => values.tridem = value,
        }
        values
    }
}

/// The limits of a segment on which none is set.
impl Default for Values {
    ghost is_default = { λ values. values ≡ default_values };

    fn default() -> Values {
        Values {
            closed: false,
            height: 999,
            width: 999,
            length: 9999,
            gross: 2000000,
            allowance: 100000,
            tridem: 600000,
        }
    }
}
