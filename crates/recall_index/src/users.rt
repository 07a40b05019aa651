// The numbers that use one segment.

ghost use Rattle.std.specs.Prelude.{◌≡◌, ◌≤◌, [], All, OnOk, OnErr};
ghost use Rattle.std.specs.List.Sorted.{IsStrictlyIncreasing};
ghost use Rattle.recall_index.specs.Uses.{AreAllOrNone, is_in, with_last, without_each};

use crate::removal::{is_block, place_of, sift};
use names::NoMemory;
use std::alloc::Global;
use std::marker::Model;

/// The numbers that use one segment, rising.
#[derive(Drop)]
pub(crate) struct Users {
    numbers: Vec<u32>,
}

impl Model for Users {
    ghost use Rattle.std.specs.Prelude.{List, ℕ};
    ghost use Rattle.std.specs.List.Sorted.{IsStrictlyIncreasing};

    ghost Value = { List ℕ };

    ghost view = { λ users. users.numbers.items };

    ghost invariant = { λ users. IsStrictlyIncreasing users.numbers.items };
}

impl Users {
    /// No numbers.
    pub(crate) fn none(alloc: Global) -> Users
        ensures { result ≡ [] }
    {
        Users {
            numbers: Vec::new(alloc),
        }
    }

    /// The numbers, rising.
    pub(crate) fn as_slice(&self) -> &[u32]
        ensures value { result.now ≡ self.now }
        ensures rising { IsStrictlyIncreasing result.now }
    {
        self.numbers.as_slice()
    }

    /// Adds a number behind those that are there, which are below it, unless it is there itself. The first of all takes room
    /// for so many.
    pub(crate) fn add(&mut self, number: u32, room: usize) -> Result<(), NoMemory>
        requires { All (λ n. n ≤ number) self.old }
        ensures added { OnOk result (self.new ≡ with_last number self.old) }
        ensures unchanged { OnErr result (self.new ≡ self.old) }
    {
        if is_among(&self.numbers, number) {
            return Ok(());
        }
        if self.numbers.capacity() == 0 {
            self.numbers.reserve(room)?;
        }
        self.numbers.push(number)?;
        Ok(())
    }

    /// Takes out rising numbers, all of which are there or none. Those that stand as one block leave without a look at each,
    /// and at the end without a move.
    pub(crate) fn remove_each(&mut self, these: &[u32])
        requires rising { IsStrictlyIncreasing these.now }
        requires among { AreAllOrNone these.now self.old }
        ensures { self.new ≡ without_each these.now self.old }
    {
        if these.is_empty() {
            return;
        }
        let all = &mut self.numbers;
        let at = place_of(all.as_slice(), these);
        if is_block(all.as_slice(), at, these) {
            let rest = all.len() - these.len();
            all.copy_within(at + these.len().., at);
            all.truncate(rest);
        } else {
            sift(all, at, these);
        }
    }
}

// Whether a number is among rising ones that are not above it. Only the last can be it.
fn is_among(numbers: &[u32], number: u32) -> bool
    requires rising { IsStrictlyIncreasing numbers.now }
    requires below { All (λ n. n ≤ number) numbers.now }
    ensures { result ≡ is_in number numbers.now }
{
    match numbers.last() {
        Some(last) => *last == number,
        None => false,
    }
}
