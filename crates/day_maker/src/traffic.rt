// The traffic that is made: trucks, actors and their commands.

ghost use Rattle.std.specs.Prelude.{◌≡◌, ◌≤◌, ◌+◌, OnOk, IfOk};
ghost use Rattle.day_maker.specs.Made.{actors, application, axles, command, commands, posting, truck, trucks};
ghost use Rattle.day_maker.specs.Texts.{page_after};

use crate::field::Field;
use crate::page::Page;
use axle_train::Axle;
use std::alloc::AllocError;

/// The four trucks.
pub(crate) fn put_trucks(page: &mut Page) -> Result<(), AllocError>
    ensures { OnOk result (page.new ≡ page_after trucks page.old) }
{
    'trucks: for t in 1..5 {
        put_truck(page, t)?;
    }
    Ok(())
}

/// The four actors.
#[tactic(auto, unfolding(crate::specs::Made::actors))]
pub(crate) fn put_actors(page: &mut Page) -> Result<(), AllocError>
    ensures { OnOk result (page.new ≡ page_after actors page.old) }
{
    page.put("actor", &[Field::Numbered(b'a', 1)])?;
    page.put("actor", &[Field::Numbered(b'a', 2)])?;
    page.put("actor", &[Field::Numbered(b'a', 3)])?;
    page.put("actor", &[Field::Word("eng")])?;
    Ok(())
}

/// The commands.
pub(crate) fn put_commands(page: &mut Page, size: u32) -> Result<(), AllocError>
    requires some { 1 ≤ size }
    requires small { size ≤ 40 }
    ensures { OnOk result (page.new ≡ page_after (commands size) page.old) }
{
    'commands: for _ in 0..20 * size {
        put_command(page, size)?;
    }
    Ok(())
}

// A truck.
#[tactic(auto, unfolding(crate::specs::Made::truck))]
fn put_truck(page: &mut Page, t: u32) -> Result<(), AllocError>
    ensures { OnOk result (page.new ≡ page_after (truck t) page.old) }
{
    let height = 160 + page.draw(20);
    let width = 100 + page.draw(60);
    let more = 4 + page.draw(4);
    let train = draw_axles(page, more)?;
    page.put(
        "truck",
        &[
            Field::Numbered(b't', t),
            Field::Numbered(b'c', t % 2),
            Field::Number(height),
            Field::Number(width),
            Field::Number(900),
            Field::Axles(train.as_slice()),
        ],
    )
}

// The first axle, and so many behind it, each of a drawn weight.
#[tactic(auto, unfolding(crate::specs::Made::axles))]
fn draw_axles(page: &mut Page, more: u32) -> Result<Vec<Axle>, AllocError>
    requires { more ≤ 7 }
    ensures train { IfOk result (λ train. train.items ≡ (axles more page.old.number).0) }
    ensures next { OnOk result (page.new ≡ record page.old { number = (axles more page.old.number).1 }) }
{
    let mut train = Vec::with_capacity(page.alloc(), 8)?;
    train.push(Axle {
        place: 0,
        weight: 12000,
    })?;
    'axles: for i in 0..more {
        let weight = 16000 + 500 * page.draw(20);
        train.push(Axle {
            place: 180 + 54 * i,
            weight,
        })?;
    }
    Ok(train)
}

// A command: a posting, or an application.
#[tactic(auto, unfolding(crate::specs::Made::command))]
fn put_command(page: &mut Page, size: u32) -> Result<(), AllocError>
    requires some { 1 ≤ size }
    requires small { size ≤ 40 }
    ensures { OnOk result (page.new ≡ page_after (command size) page.old) }
{
    if page.draw(4) == 0 {
        put_posting(page, size)
    } else {
        put_application(page, size)
    }
}

// A posting of a height on a segment to the east.
#[tactic(auto, unfolding(crate::specs::Made::posting))]
fn put_posting(page: &mut Page, size: u32) -> Result<(), AllocError>
    requires some { 1 ≤ size }
    requires small { size ≤ 40 }
    ensures { OnOk result (page.new ≡ page_after (posting size) page.old) }
{
    let r = page.draw(size + 1);
    let c = page.draw(size);
    let height = Field::Number(150 + page.draw(60));
    let on = Field::Cell(b'e', r, c);
    page.put(
        "post",
        &[Field::Word("eng"), on, Field::Word("height"), height],
    )
}

// An application from the first node to the last one.
#[tactic(auto, unfolding(crate::specs::Made::application))]
fn put_application(page: &mut Page, size: u32) -> Result<(), AllocError>
    ensures { OnOk result (page.new ≡ page_after (application size) page.old) }
{
    let actor = Field::Numbered(b'a', 1 + page.draw(3));
    let truck = Field::Numbered(b't', 1 + page.draw(4));
    page.put(
        "apply",
        &[
            actor,
            truck,
            Field::Cell(b'n', 0, 0),
            Field::Cell(b'n', size, size),
            Field::Word(""),
            Field::Word("2026-01-01"),
            Field::Word("2026-12-31"),
        ],
    )?;
    Ok(())
}
