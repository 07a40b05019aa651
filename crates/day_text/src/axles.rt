// The field of axles.

ghost use Rattle.std.specs.Prelude.{◌≡◌, ◌==◌, ◌<◌, IfOk, map};
ghost use Rattle.std.specs.List.{slice_split};
ghost use Rattle.day_text.specs.Fields.{axle_of, axles_of};

use crate::fields::parse_number;
use axle_train::Axle;
use std::alloc::{AllocError, Global};
use std::marker::Model;

/// The axles of a field.
#[derive(Drop)]
pub struct Axles {
    list: Vec<Axle>,
}

impl Model for Axles {
    ghost use Rattle.std.specs.Prelude.{List};
    ghost use Rattle.axle_train.specs.declared.axle.Axle.{Axle};

    ghost Value = { List Axle };

    ghost view = { λ a. a.list.items };
}

impl Axles {
    /// The axles as a slice.
    pub fn as_slice(&self) -> &[Axle]
        ensures { result.now ≡ self.now }
    {
        self.list.as_slice()
    }
}

/// The axles of a field, with one space between them, or `None` where it has another form.
pub fn parse_axles(alloc: Global, text: &str) -> Result<Option<Axles>, AllocError>
    ensures { IfOk result (λ axles. axles ≡ axles_of text.now) }
{
    let parts = split_at(alloc, text, ' ')?;
    let mut list = Vec::new(alloc);
    'parts: for part in &parts {
        match parse_axle(alloc, part)? {
            Some(axle) => list.push(axle)?,
            None => return Ok(None),
        }
    }
    Ok(Some(Axles { list }))
}

// The axle PLACE:WEIGHT.
fn parse_axle(alloc: Global, text: &str) -> Result<Option<Axle>, AllocError>
    ensures { IfOk result (λ axle. axle ≡ axle_of text.now) }
{
    let parts = split_at(alloc, text, ':')?;
    if parts.len() == 2
        && let Some(place) = parse_number(parts[0])
        && let Some(weight) = parse_number(parts[1])
    {
        Ok(Some(Axle { place, weight }))
    } else {
        Ok(None)
    }
}

// The parts of a text around each separator, which is a byte.
fn split_at(alloc: Global, text: &str, separator: char) -> Result<Vec<&str>, AllocError>
    requires { separator < 128 }
    ensures { IfOk result (λ v. map (λ x. x.now) v.items ≡ slice_split (λ b. b == separator) text.now) }
{
    text.split(separator).collect(alloc)
}
