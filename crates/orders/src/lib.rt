// What a command asks of the machine, read off its line. What only shows something is shown here, and asks nothing.
#![tactic(auto)]

mod asking;
pub mod images;
mod setting;
mod stores;

use console::commands::Command;
use console::values::Said;
use console::{commands, values};
use names::register::Reg;
use panel::parts::Part;
use panel::view::View;
use panel::{code, registers};
use std::rt::Files;

// The runs of 65,535 steps after which execute stops by itself.
pub const RUNS: usize = 100;

// What origin asks about: a byte of memory, or a part of the state.
#[derive(Clone, Copy)]
pub enum Asked {
    Byte(u16),
    Part(Part),
}

// Calls on the machine, to be made one after the other; the bytes that they are given stand in the room that the line was read into.
#[derive(Clone, Copy)]
pub enum Order<'a> {
    Tick(u16),
    Back(u16),
    // A lone step, which a halted machine refuses, and then a run.
    Steps(u16),
    // So many steps, or runs until the machine is halted.
    Run(Option<u16>),
    // Back to a break or past a watched store: so many records at most, or as many as are held.
    RunBack(Option<u16>),
    Sent,
    Reset,
    Set(Reg, u16),
    // Bytes from the keyboard.
    Keys(&'a [u8]),
    // Bytes poked from an address on.
    Pokes(u16, &'a [u8]),
    // An instruction's two bytes.
    Code(u16, &'a [u8]),
    // Back to before the last change of what is asked about.
    Origin(Asked),
}

// The number of times, once where none is given. That it is 0 is said.
fn times(rt: &impl Print, line: &[u8], of_none: &[u8]) -> Result<u16, Said> {
    let n = values::only(rt, line)?.unwrap_or(1);
    if n == 0 {
        report::text(rt, of_none);
        return Err(Said);
    }
    Ok(n)
}

// An order behind whose name nothing stands.
fn bare<'a>(rt: &impl Print, order: Order<'a>, line: &[u8]) -> Result<Order<'a>, Said> {
    if values::is_end(rt, line) {
        Ok(order)
    } else {
        Err(Said)
    }
}

// The commands that only show something; the others are no commands on the machine.
fn shown(rt: &(impl Print + Files), command: Command, line: &[u8], view: View) -> Result<(), Said> {
    match command {
        Command::Csr => registers::csr(rt, view, line),
        Command::Help => commands::help(rt, line),
        Command::List => code::list(rt, view, line)?,
        Command::Save => images::save(rt, line, view.ram)?,
        Command::Brief => commands::brief(rt, line),
        _ => {}
    }
    Ok(())
}

// An arm for each command: what it asks of the machine, if anything.
fn parsed<'a>(
    rt: &(impl Print + Files),
    command: Command,
    line: &[u8],
    view: View,
    room: &'a mut [u8],
) -> Result<Option<Order<'a>>, Said> {
    let ram = view.ram.len();
    let order = match command {
        Command::Assemble => stores::assembled(rt, line, ram, room)?,
        Command::Back => Order::Back(values::only(rt, line)?.unwrap_or(1)),
        Command::Key => stores::keys(rt, line, room)?,
        Command::Load => images::load(rt, line, ram, room)?,
        Command::Memset => stores::memset(rt, line, ram, room)?,
        Command::Origin => Order::Origin(asking::origin(rt, line, ram)?),
        Command::Register => return setting::register(rt, line, view),
        Command::Reset => bare(rt, Order::Reset, line)?,
        Command::Step => Order::Steps(times(rt, line, b"0 steps: nothing was done\n")?),
        Command::Sent => bare(rt, Order::Sent, line)?,
        Command::Tick => Order::Tick(times(rt, line, b"0 ticks: nothing was done\n")?),
        Command::Execute => Order::Run(values::only(rt, line)?),
        Command::Rexecute => Order::RunBack(values::only(rt, line)?),
        _ => {
            shown(rt, command, line, view)?;
            return Ok(None);
        }
    };
    Ok(Some(order))
}

// What a command asks of the machine, by the line behind its name; none where it asks nothing, or something was wrong with the line, which was said.
pub fn read<'a>(
    rt: &(impl Print + Files),
    command: Command,
    line: &[u8],
    view: View,
    room: &'a mut [u8],
) -> Option<Order<'a>> {
    parsed(rt, command, line, view, room).unwrap_or(None)
}
