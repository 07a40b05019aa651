// What a carrier asks for.

ghost use Rattle.std.specs.Prelude.{◌≡◌, ◌<◌, ◌↔◌, length, true, None, Some, All, IfOk, IfErr, OnOk, OnErr, option_map};
ghost use Rattle.trip_analysis.specs.Applications.{AreAskedRoutes, AreThere, AreAskedThere, IsApplicationCause, IsSoundOn, Sound, application_of, application_refusal, asked_refusal, break_from, days_refusal};

use crate::application_refusal::ApplicationRefusal;
use crate::base::Base;
use permit_days::Day;
use road_graph::{Network, NoMemory};
use trip_routes::SharedRoutes;

/// The most days that the last day of an annual permit lies after the first.
const YEAR: u32 = 365;

/// An application for a permit: the number of the truck, the nodes where the trip begins and ends, the routes that are
/// asked for, if any are, and the first and the last day. It is annual where it asks for two routes or more.
#[derive(Drop)]
pub struct Application {
    truck: u32,
    from: u32,
    to: u32,
    asked: Option<SharedRoutes>,
    first: Day,
    last: Day,
}

impl Application {
    /// The application of these six fields, whose truck, nodes and segments are there. Takes no memory.
    ///
    /// Refusals, in this order: `SamePlace`, `BrokenRoute`, `DayOrder`, `AnnualDays`.
    pub fn new(
        base: &Base,
        truck: u32,
        from: u32,
        to: u32,
        asked: Option<SharedRoutes>,
        first: Day,
        last: Day,
    ) -> Result<Application, ApplicationRefusal>
        requires truck { truck < length base.now.fleet }
        requires there { AreThere base.now.roads from to asked }
        ensures fields { IfOk result (λ a. a ≡ application_of truck from to asked first last) }
        ensures sound { IfOk result (λ a. Sound base.now a) }
        ensures taken { OnOk result (application_refusal base.now.roads from to asked first last ≡ None) }
        ensures refused { IfErr result
            (IsApplicationCause (application_refusal base.now.roads from to asked first last)) }
    {
        let application = Application::of_fields(truck, from, to, asked, first, last);
        application.checked_on(base.network())
    }

    /// The same application, where nothing refuses it on these roads: the refusals are those of `new`. For a reader whose fleet
    /// still grows. Takes no memory.
    pub fn checked_on(self, network: &Network) -> Result<Application, ApplicationRefusal>
        requires there { AreThere network.now self.from self.to self.asked }
        ensures same { IfOk result (λ a. a ≡ self) }
        ensures sound { IfOk result (IsSoundOn network.now self.truck) }
        ensures taken { OnOk result
            (application_refusal network.now self.from self.to self.asked self.first self.last ≡ None) }
        ensures refused { IfErr result
            (IsApplicationCause (application_refusal network.now self.from self.to self.asked self.first self.last)) }
    {
        self.try_on(network)?;
        Ok(self)
    }

    /// The application of these six fields, of which nothing is tested. Takes no memory.
    pub fn of_fields(
        truck: u32,
        from: u32,
        to: u32,
        asked: Option<SharedRoutes>,
        first: Day,
        last: Day,
    ) -> Application
        ensures { result ≡ application_of truck from to asked first last }
    {
        Application {
            truck,
            from,
            to,
            asked,
            first,
            last,
        }
    }

    /// Whether it can be asked of this base: whether all that it names is there, and no cause refuses it. Takes no memory.
    pub fn is_sound(&self, base: &Base) -> bool
        ensures { (result ≡ true) ↔ Sound base.now self.now }
    {
        self.is_there(base) && self.try_on(base.network()).is_ok()
    }

    /// The number of the truck. Takes no memory.
    pub fn truck(&self) -> u32
        ensures { result ≡ self.now.truck }
    {
        self.truck
    }

    /// The node where the trip begins. Takes no memory.
    pub fn from(&self) -> u32
        ensures { result ≡ self.now.from }
    {
        self.from
    }

    /// The node where it ends. Takes no memory.
    pub fn to(&self) -> u32
        ensures { result ≡ self.now.to }
    {
        self.to
    }

    /// The routes that are asked for. Takes no memory.
    pub fn asked(&self) -> Option<&SharedRoutes>
        ensures { option_map (λ n. n.now) result ≡ self.now.asked }
    {
        self.asked.as_ref()
    }

    /// The first day. Takes no memory.
    pub fn first(&self) -> Day
        ensures { result ≡ self.now.first }
    {
        self.first
    }

    /// The last day. Takes no memory.
    pub fn last(&self) -> Day
        ensures { result ≡ self.now.last }
    {
        self.last
    }

    /// The same application once more. Its asked routes get one more owner, and none is copied.
    pub fn try_clone(&self) -> Result<Application, NoMemory>
        ensures { IfOk result (λ a. a ≡ self.now) }
    {
        let asked = match &self.asked {
            Some(routes) => Some(routes.clone()?),
            None => None,
        };
        Ok(Application {
            truck: self.truck,
            from: self.from,
            to: self.to,
            asked,
            first: self.first,
            last: self.last,
        })
    }

    // Whether its truck, its nodes and the segments of its asked routes are there.
    fn is_there(&self, base: &Base) -> bool
        ensures { (result ≡ true) ↔ ((self.now.truck < length base.now.fleet)
            × AreThere base.now.roads self.now.from self.now.to self.now.asked) }
    {
        let network = base.network();
        let nodes = network.nodes();
        let has_ends = self.from < nodes && self.to < nodes;
        if !has_ends || self.truck as usize >= base.fleet().len() {
            return false;
        }
        match &self.asked {
            Some(routes) => {
                let count = network.segments();
                routes.all().iter().all(|s| *s < count)
            }
            None => true,
        }
    }

    // Refuses it for the first cause that applies on these roads, where all that it names is there.
    fn try_on(&self, network: &Network) -> Result<(), ApplicationRefusal>
        requires { AreThere network.now self.now.from self.now.to self.now.asked }
        ensures routes { OnOk result (AreAskedRoutes self.now.asked) }
        ensures taken { OnOk result
            (application_refusal network.now self.now.from self.now.to self.now.asked self.now.first self.now.last ≡ None) }
        ensures refused { IfErr result
            (IsApplicationCause (application_refusal network.now self.now.from self.now.to self.now.asked self.now.first self.now.last)) }
    {
        if self.from == self.to {
            return Err(ApplicationRefusal::SamePlace);
        }
        try_asked(network, self.from, self.to, &self.asked)?;
        let annual = match &self.asked {
            Some(routes) => routes.len() >= 2,
            None => false,
        };
        try_days(annual, self.first, self.last)
    }
}

// Refuses days of which the last is before the first, or too long after it for an annual permit.
fn try_days(annual: bool, first: Day, last: Day) -> Result<(), ApplicationRefusal>
    ensures taken { OnOk result (days_refusal annual first last ≡ None) }
    ensures refused { IfErr result (IsApplicationCause (days_refusal annual first last)) }
{
    if last < first {
        return Err(ApplicationRefusal::DayOrder);
    }
    let days = last.days_since(first);
    if annual && days > YEAR {
        return Err(ApplicationRefusal::AnnualDays { days });
    }
    Ok(())
}

// Refuses the first of the asked routes that breaks off.
fn try_asked(
    network: &Network,
    from: u32,
    to: u32,
    asked: &Option<SharedRoutes>,
) -> Result<(), ApplicationRefusal>
    requires { AreAskedThere network.now asked.now }
    ensures routes { OnOk result (AreAskedRoutes asked.now) }
    ensures taken { OnOk result (asked_refusal network.now.segments from to asked.now ≡ None) }
    ensures refused { IfErr result (IsApplicationCause
        (asked_refusal network.now.segments from to asked.now)) }
{
    let Some(routes) = asked else {
        return Ok(());
    };
    for route in 0..routes.len() {
        if let Some(at) = find_break(network, from, to, routes.route(route)) {
            return Err(ApplicationRefusal::BrokenRoute { route, at });
        }
    }
    Ok(())
}

// Where a route breaks off, if it does.
fn find_break(network: &Network, from: u32, to: u32, route: &[u32]) -> Option<usize>
    requires there { All (λ s. s < length network.now.segments) route.now }
    ensures { result ≡ break_from network.now.segments 0 from to route.now }
{
    let mut node = from;
    for i in 0..route.len() {
        let segment = network.segment(route[i]);
        if segment.from != node {
            return Some(i);
        }
        node = segment.to;
    }
    if node == to { None } else { Some(route.len()) }
}
