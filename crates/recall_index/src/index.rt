// The numbers that use each segment.

ghost use Rattle.std.specs.Prelude.{◌≡◌, ◌<◌, length, All, IfOk, OnOk, OnErr};
ghost use Rattle.std.specs.List.Sorted.{IsStrictlyIncreasing};
ghost use Rattle.recall_index.specs.Uses.{AreAllOrNone, AreBelow, AreRemoved, AreTakenOut, AreAllThere, IsAdded, IsRemoved, IsThere, unused, using_in};

use crate::users::Users;
use names::NoMemory;
use std::alloc::Global;
use std::marker::Model;

/// For each segment the numbers whose route holds it.
///
/// Contracts see these lists, in the order of the segments.
#[derive(Drop)]
pub struct Index {
    users: Vec<Users>,
}

impl Model for Index {
    ghost use Rattle.std.specs.Prelude.{List, ℕ};

    ghost Value = { List (List ℕ) };

    ghost view = { λ index. index.users.items };
}

impl Index {
    /// An index of so many segments, which nothing uses yet.
    pub fn new(alloc: Global, segments: u32) -> Result<Index, NoMemory>
        ensures { IfOk result (λ index. index ≡ unused segments) }
    {
        let mut users = Vec::new(alloc);
        for _segment in 0..segments {
            users.push(Users::none(alloc))?;
        }
        Ok(Index { users })
    }

    /// Adds a number, which is above all that are there, at each segment that its route holds. `NoMemory` where no memory
    /// was left, and then the index is as it was.
    pub fn add(&mut self, number: u32, route: &[u32]) -> Result<(), NoMemory>
        requires segments { All (λ s. s < length self.old) route.now }
        requires above { AreBelow number self.old }
        ensures added { OnOk result (IsAdded self.old number route.now self.new) }
        ensures unchanged { OnErr result (self.new ≡ self.old) }
    {
        for i in 0..route.len() {
            let place = route[i] as usize;
            if let Err(NoMemory) = self.users[place].add(number, first_room(place)) {
                self.take_out(&[number], &route[..i]);
                return Err(NoMemory);
            }
        }
        Ok(())
    }

    /// Takes out a number, which was added with this route. Takes no memory.
    pub fn remove(&mut self, number: u32, route: &[u32])
        requires segments { All (λ s. s < length self.old) route.now }
        requires there { IsThere self.old number route.now }
        ensures { IsRemoved self.old number self.new }
    {
        self.take_out(&[number], route);
    }

    /// Takes out rising numbers, each of which was added with this route. Takes no memory.
    pub fn remove_each(&mut self, numbers: &[u32], route: &[u32])
        requires segments { All (λ s. s < length self.old) route.now }
        requires rising { IsStrictlyIncreasing numbers.now }
        requires there { AreAllThere self.old numbers.now route.now }
        ensures { AreRemoved self.old numbers.now self.new }
    {
        self.take_out(numbers, route);
    }

    /// The numbers whose route holds the segment, rising and each once. Takes no memory.
    pub fn using(&self, segment: u32) -> &[u32]
        requires { segment < length self.now }
        ensures value { result.now ≡ using_in self.now segment }
        ensures rising { IsStrictlyIncreasing result.now }
    {
        self.users[segment as usize].as_slice()
    }

    // Takes out rising numbers at each of these segments, where all of them are or none.
    fn take_out(&mut self, numbers: &[u32], segments: &[u32])
        requires segments { All (λ s. s < length self.old) segments.now }
        requires rising { IsStrictlyIncreasing numbers.now }
        requires among { All (λ s. AreAllOrNone numbers.now (using_in self.old s)) segments.now }
        ensures { AreTakenOut self.old numbers.now segments.now self.new }
    {
        for i in 0..segments.len() {
            self.users[segments[i] as usize].remove_each(numbers);
        }
    }
}

// For how many numbers a segment takes room at first. Many permits may have the same route, so the lists of its segments grow
// together. Their rooms differ, so that not all of them have to be moved in one turn, where they double.
fn first_room(segment: usize) -> usize {
    8 + segment % 8
}
