// The records of commands.

ghost use Rattle.std.specs.Prelude.{◌≡◌, ◌<◌, ◌++◌, true, length, map, All, OnOk};
ghost use Rattle.restriction_log.specs.Changes.{takes_replaced};
ghost use Rattle.trip_analysis.specs.Applications.{Sound};
ghost use Rattle.office_words.specs.Commands.{MayCarryOut};
ghost use Rattle.day_text.specs.Bounds.{IsCommandWithin};
ghost use Rattle.day_writer.specs.Orders.{application_row, command_row, order_row, posting_row};
ghost use Rattle.day_writer.specs.Sheets.{AreTrucksThere, parts_of_sheet};
ghost use Rattle.day_writer.specs.Texts.{line, text_of};
ghost use Rattle.day_writer.specs.Writable.{IsWritable};

use crate::field::Field;
use crate::page::Page;
use crate::routes::write_asked;
use crate::write::Sheet;
use day_text::Command;
use names::Name;
use restriction_log::{Change, Replaced};
use road_graph::Network;
use std::alloc::AllocError;
use trip_analysis::Application;

/// The commands, in their order.
pub(crate) fn put_commands(page: &mut Page, sheet: &Sheet) -> Result<(), AllocError>
    requires trucks { AreTrucksThere sheet.now }
    requires writable { IsWritable (parts_of_sheet sheet.now) }
    ensures { let file = parts_of_sheet sheet.now in
        OnOk result (page.new ≡ page.old ++ text_of (map (order_row file.base file.actors) file.commands)) }
{
    let (actors, commands) = (sheet.actors, sheet.commands);
    'commands: for i in 0..commands.len() {
        let order = &commands[i];
        put_command(page, sheet, actors[order.actor as usize], &order.command)?;
    }
    Ok(())
}

// A command of an actor.
fn put_command(
    page: &mut Page,
    sheet: &Sheet,
    actor: Name,
    command: &Command,
) -> Result<(), AllocError>
    requires trucks { AreTrucksThere sheet.now }
    requires sound { MayCarryOut (parts_of_sheet sheet.now).base command.now }
    requires within { IsCommandWithin (parts_of_sheet sheet.now).base.roads command.now }
    ensures { let base = (parts_of_sheet sheet.now).base in
        OnOk result (page.new ≡ page.old ++ line (command_row base actor command.now)) }
{
    match command {
        Command::Apply(application) => put_application(page, sheet, actor, application),
        Command::Post(change) => put_posting(page, sheet.base.network(), actor, change.replaced()),
        Command::Day(day) => page.put("setday", &[Field::Name(actor), Field::Day(*day)]),
        Command::Surrender(number) => {
            page.put("surrender", &[Field::Name(actor), Field::Number(*number)])
        }
        Command::Show(number) => { page.put("show", &[Field::Name(actor), Field::Number(*number)]) }
    }
}

// An application.
fn put_application(
    page: &mut Page,
    sheet: &Sheet,
    actor: Name,
    application: &Application,
) -> Result<(), AllocError>
    requires trucks { AreTrucksThere sheet.now }
    requires sound { Sound (parts_of_sheet sheet.now).base application.now }
    ensures { let base = (parts_of_sheet sheet.now).base in
        OnOk result (page.new ≡ page.old ++ line (application_row base actor application.now)) }
{
    let network = sheet.base.network();
    let number = sheet.trucks[application.truck() as usize];
    let truck = &sheet.base.fleet()[number as usize];
    let from = network.node(application.from());
    let to = network.node(application.to());
    let mut routes = Vec::new(page.alloc());
    write_asked(&mut routes, network, application.asked())?;
    page.put(
        "apply",
        &[
            Field::Name(actor),
            Field::Name(truck.name),
            Field::Name(from),
            Field::Name(to),
            Field::Text(&routes),
            Field::Day(application.first()),
            Field::Day(application.last()),
        ],
    )?;
    Ok(())
}

// A posting, by what it replaces.
fn put_posting(
    page: &mut Page,
    network: &Network,
    actor: Name,
    replaced: Replaced,
) -> Result<(), AllocError>
    requires { takes_replaced network.now replaced ≡ true }
    ensures { OnOk result (page.new ≡ page.old ++ line (posting_row network.now actor replaced)) }
{
    let (item, word, value) = match replaced {
        Replaced::Limit {
            segment,
            what,
            value,
        } => (network.segment(segment).name, what.word(), value),
        Replaced::Rating { span, permille } => (network.span(span).name, "rating", permille),
    };
    page.put(
        "post",
        &[
            Field::Name(actor),
            Field::Name(item),
            Field::Text(word.as_bytes()),
            Field::Number(value),
        ],
    )
}
