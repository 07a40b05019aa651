// Laws of the definitions, each on a function without code.

ghost use Rattle.axle_limits.specs.Limits.{GroupLimitIsComputed};
ghost use Rattle.axle_limits.specs.Groups.{GroupsAreListed};
ghost use Rattle.axle_limits.specs.Tridems.{TridemIsComputed};
ghost use Rattle.axle_limits.specs.Worst.{WorstIsThere, WorstIsOne};

/// A law, and no code: the rules give each group one limit, which `group_limit_of` computes.
pub fn group_limit_is_computed()
    ensures { GroupLimitIsComputed }
{}

/// A law, and no code: `groups_of` has all groups of the axles and nothing else, by first axle and then by last.
pub fn all_groups_are_listed()
    ensures { GroupsAreListed }
{}

/// A law, and no code: some group of the axles is the worst, it is the one that `worst_of` finds, and no other one is.
pub fn there_is_one_worst_group()
    ensures there { WorstIsThere }
    ensures one { WorstIsOne }
{}

/// A law, and no code: the heaviest tridem group is the one that `heaviest_tridem_of` finds, and it finds none exactly where no
/// axles are a tridem group.
pub fn tridem_is_computed()
    ensures { TridemIsComputed }
{}
