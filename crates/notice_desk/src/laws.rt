// Laws of deliveries that come one after another.

ghost use Rattle.notice_desk.specs.Laws.{DeliveriesGoOn, DeliveriesResume, DeliveriesResumeWithout, NewAreToldAll};

/// A delivery to those who are through with nothing tells each of them all that is its own.
pub fn new_are_told_all()
    ensures { NewAreToldAll }
{}

/// After a delivery that was done, one of the same list or of a longer one tells only what the earlier one
/// did not: both leave what the later one alone would have left.
pub fn deliveries_go_on()
    ensures { DeliveriesGoOn }
{}

/// After a delivery that a fault stopped, the next one, of the same list or of a longer one, tells each
/// recall that was left, once.
pub fn deliveries_resume()
    ensures { DeliveriesResume }
{}

/// The same for those who stay, where one is dropped before the next delivery.
pub fn deliveries_resume_without()
    ensures { DeliveriesResumeWithout }
{}
