// Laws of the next day.

ghost use Rattle.next_day.specs.Laws.{NextDaysAreDays, NextDaysBegin, StandingAreInForce};

/// A law, and no code: the permits that go on behind a legal history are just those in force, by rising number.
pub fn standing_permits_are_in_force()
    ensures { StandingAreInForce }
{}

/// A law, and no code: the next day behind a legal history of all commands of a day file is a day file again. It is on the day that
/// the history left, and its roads are as they were in force.
pub fn next_days_are_days()
    ensures { NextDaysAreDays }
{}

/// A law, and no code: the next day begins with the permits that stood. Carried out one after another, each of its applications is
/// issued its permit at once, at version 0 and with the routes that it had; and there is no other such history.
pub fn next_days_begin()
    ensures { NextDaysBegin }
{}
