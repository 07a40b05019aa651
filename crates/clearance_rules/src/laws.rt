// Laws of the definitions, each on a function without code.

ghost use Rattle.clearance_rules.specs.Laws.{NamedLimitFails, NamedLimitIsFirst, NoneNamedWhereNoneFails, LimitsAgree};

/// A law, and no code: the limit that is named for a segment is one of that segment, its two sides are those of the load and
/// of the segment, and it fails the load.
pub fn named_limit_fails()
    ensures { NamedLimitFails }
{}

/// A law, and no code: the limit that is named for a segment is the first that fails the load there, in the order of the
/// segment's limits; and what is the first that fails is named.
pub fn named_limit_is_first()
    ensures { NamedLimitIsFirst }
{}

/// A law, and no code: no limit is named for a segment exactly where none fails the load there.
pub fn none_is_named_where_none_fails()
    ensures { NoneNamedWhereNoneFails }
{}

/// A law, and no code: two states that agree on what is posted on a segment, and on the ratings of its spans, have the same
/// first failing limit there.
pub fn limits_are_of_their_segment()
    ensures { LimitsAgree }
{}
