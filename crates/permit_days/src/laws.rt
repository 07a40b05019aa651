// Laws of days.

ghost use Rattle.permit_days.specs.Laws.{AreOrderedByCalendar, AreOrderedByNumber, ReadsBack};

/// The text of a day is read as that day.
pub fn every_day_reads_back()
    ensures { ReadsBack }
{}

/// A day comes before another in the order of bytes exactly where its year is earlier, or, in one year, its month, or, in
/// one month, its day.
pub fn days_follow_the_calendar()
    ensures { AreOrderedByCalendar }
{}

/// A day comes before another in the order of bytes exactly where its number is below the other's.
pub fn days_follow_their_numbers()
    ensures { AreOrderedByNumber }
{}
