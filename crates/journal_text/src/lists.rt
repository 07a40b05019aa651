// The text of a list of places.

ghost use Rattle.std.specs.Prelude.{◌≡◌, ◌∷◌, ◌++◌, OnOk};
ghost use Rattle.journal_text.specs.Words.{index, list_text};

use crate::words::place_list;
use std::alloc::{AllocError, Global};
use std::marker::Model;

/// The list of places that was printed last, and its text behind a space. There is no text before any was printed, or where
/// there was no memory for it.
///
/// A permit has the routes that were proposed for it, many trips may lead along one route, and many to a goal that is shut,
/// whose cuts are one long list of nodes. Such a list is printed once, and then copied.
#[derive(Drop)]
pub(crate) struct LastList<'a> {
    places: &'a [u32],
    text: Vec<u8>,
}

impl<'a> Model for LastList<'a> {
    ghost use Rattle.journal_text.specs.Lists.{IsListText};

    ghost Value = { Unit {0} };

    ghost view = { λ l. tt };

    ghost invariant = { λ l. IsListText l.places.now l.text.items };
}

impl<'a> LastList<'a> {
    /// No list, before any was printed.
    pub fn none(alloc: Global) -> LastList<'a> {
        LastList {
            places: &[],
            text: Vec::new(alloc),
        }
    }

    /// Prints a byte, and the indices of a list, counted from 1.
    pub fn print(
        &mut self,
        out: &mut Vec<u8>,
        before: u8,
        places: &'a [u32],
    ) -> Result<(), AllocError>
        ensures { OnOk result (out.new.items ≡ out.old.items ++ (before ∷ list_text index places.now)) }
    {
        if self.text.is_empty() || places != self.places {
            self.text.clear();
            self.places = places;
            if let Err(e) = place_list(&mut self.text, b' ', places) {
                self.text.clear();
                return Err(e);
            }
        }
        out.push(before)?;
        out.extend_from_slice(&self.text[1..])
    }
}
