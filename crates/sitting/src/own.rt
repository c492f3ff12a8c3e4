// The commands of the desk itself.
use crate::scripts;
use crate::state::Desk;
use console::commands::Command;
use console::values;
use console::values::Said;
use panel::dumps;
use panel::dumps::{Base, Form, Unit};
use panel::view::View;
use std::fs::File;
use std::rt::Files;
use stops::commands;

fn dump(
    rt: &impl Print,
    d: &mut Desk,
    unit: Unit,
    base: Base,
    line: &[u8],
    view: View,
) -> Result<(), Said> {
    d.dump = dumps::dump(rt, d.dump, Form { unit, base }, view, line)?;
    Ok(())
}

fn quit(rt: &impl Print, d: &mut Desk, line: &[u8]) -> Result<(), Said> {
    if values::is_end(rt, line) {
        d.is_over = true;
    }
    Ok(())
}

// A command on the desk, by the line behind its name; one that is none leaves all as it is.
pub fn tend(
    rt: &(impl Print + Files<File = File>),
    command: Command,
    d: &mut Desk,
    line: &[u8],
    view: View,
    slots: usize,
) -> Result<(), Said> {
    match command {
        Command::Dump => dump(rt, d, Unit::Byte, Base::Hexadecimal, line, view),
        Command::Dumpd => dump(rt, d, Unit::Byte, Base::Decimal, line, view),
        Command::Dumpw => dump(rt, d, Unit::Word, Base::Hexadecimal, line, view),
        Command::Dumpwd => dump(rt, d, Unit::Word, Base::Decimal, line, view),
        Command::Break => commands::set_break(rt, &mut d.stops, line),
        Command::Watch => commands::set_watch(rt, &mut d.stops, line),
        Command::Do => scripts::follow(rt, d, line),
        Command::History => scripts::history(rt, d, line, view.held(), slots),
        Command::Quit => quit(rt, d, line),
        _ => Ok(()),
    }
}
