// Laws of the days that are made.

ghost use Rattle.day_maker.specs.Laws.{MadeDaysAreAccepted};

/// A law, and no code: what is made of a seed and a size from 1 to 40 is accepted as a day file.
pub fn made_days_are_accepted()
    ensures { MadeDaysAreAccepted }
{}
