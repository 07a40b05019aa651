// What `carry` makes: the file of the next day, and the lines that tell how its permits are numbered.

ghost use Rattle.std.specs.Prelude.{◌≡◌, ◌≤◌, ◌++◌, IfErr, IfOk, OnOk, length, map};
ghost use Rattle.permit_program.specs.Command.{IsRefusalOf, Makes};
ghost use Rattle.clerk_program.specs.Carry.{AreCarriedLines, carried_line, carried_lines, carry};
ghost use Rattle.clerk_program.specs.Judging.{IsWholeDay};
ghost use Rattle.clerk_program.specs.Carrying.{GoesOn, IsCarriedDay, IsReadyToCarry};

use crate::judging::MOST_DAY;
use crate::refusals::of_bytes;
use crate::whole_day::{WholeDay, read_whole};
use day_writer::{Sheet, write_day};
use names::NoMemory;
use next_day::{NextDay, Standing, next_day};
use office_io::write_number;
use permit_program::Refusal;
use std::alloc::{AllocError, Global};

/// A day that is carried over: the text of the next day's file, and a line for each permit that goes on.
#[derive(Drop)]
pub(crate) struct Carried {
    pub(crate) text: Vec<u8>,
    pub(crate) lines: Vec<u8>,
}

/// The file of the next day behind the journal at the head of the bytes, with all trucks or only those that hold a permit in force.
/// It is refused as `read_whole` says, and then with status 6 where the text has too many bytes for a day file.
pub(crate) fn carry_over(alloc: Global, bytes: &[u8], in_force: bool) -> Result<Carried, Refusal>
    ensures made { IfOk result (λ carried. Makes (carry in_force) bytes.now carried.text.items) }
    ensures told { IfOk result (λ carried. AreCarriedLines bytes.now carried.lines.items) }
    ensures refused { IfErr result (IsRefusalOf (carry in_force) bytes.now) }
{
    let day = match read_whole(alloc, bytes) {
        Ok(day) => day,
        Err(refusal) => return Err(refusal),
    };
    let carried = carry_day(alloc, &day, in_force)?;
    if carried.text.len() > MOST_DAY {
        return Err(of_bytes(alloc));
    }
    Ok(carried)
}

// The next day behind a whole one, however long its text is.
fn carry_day(alloc: Global, day: &WholeDay, in_force: bool) -> Result<Carried, NoMemory>
    requires { IsReadyToCarry day.now }
    ensures { IfOk result (IsCarriedDay in_force day.now) }
{
    let next = what_goes_on(alloc, day, in_force)?;
    let sheet = Sheet {
        base: &day.base,
        state: day.office.state(),
        trucks: next.trucks.as_slice(),
        day: day.office.today(),
        actors: day.actors.as_slice(),
        commands: next.commands.as_slice(),
    };
    let text = write_day(alloc, &sheet)?;
    let lines = lines_of(alloc, next.standing.as_slice())?;
    Ok(Carried { text, lines })
}

// What goes on behind a day.
fn what_goes_on(alloc: Global, day: &WholeDay, in_force: bool) -> Result<NextDay, NoMemory>
    ensures { IfOk result (GoesOn in_force day.now) }
{
    let trucks = day.base.fleet().len() as u32;
    next_day(alloc, in_force, trucks, &day.office, day.history.as_slice())
}

// The lines of these permits, which are numbered anew.
fn lines_of(alloc: Global, standing: &[Standing]) -> Result<Vec<u8>, AllocError>
    requires { length standing.now ≤ 1000000 }
    ensures { IfOk result (λ lines. lines.items ≡ carried_lines 0 (map (λ p. p.number) standing.now)) }
{
    let mut lines = Vec::new(alloc);
    'permits: for i in 0..standing.len() {
        write_line(&mut lines, standing[i].number, i as u32 + 1)?;
    }
    Ok(lines)
}

// The line of a permit, by its number and that on the next day.
fn write_line(out: &mut Vec<u8>, old: u32, new: u32) -> Result<(), AllocError>
    ensures { OnOk result (out.new.items ≡ out.old.items ++ carried_line old new) }
{
    out.extend_from_slice(b"carried ")?;
    write_number(out, old)?;
    out.push(b' ')?;
    write_number(out, new)?;
    out.push(b'\n')?;
    Ok(())
}
