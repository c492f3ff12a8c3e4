// Where lines come from.
use crate::state;
use crate::state::Desk;
use console::lines;
use console::lines::Unfit;

fn prompt(rt: &impl Print, d: &Desk) {
    if (d.depth == 0) & d.is_terminal {
        report::text(rt, b"desk> ");
    }
}

fn read(rt: &(impl Print + Input), d: &mut Desk, room: &mut [u8]) -> Result<Option<usize>, Unfit> {
    prompt(rt, d);
    match state::source(d) {
        Some(file) => lines::read(file, room),
        None => lines::read(&mut rt.reader(), room),
    }
}

// The next line, from where commands come from now: how long it is in the room. None where there is no line, which is said, or where they come from ends.
pub fn next(rt: &(impl Print + Input), d: &mut Desk, room: &mut [u8]) -> Option<usize> {
    match read(rt, d, room) {
        Ok(Some(n)) => return Some(n),
        Ok(None) => state::leave(rt, d),
        Err(Unfit::TooLong) => report::text(
            rt,
            b"the line is longer than 4,096 bytes; nothing was done\n",
        ),
        Err(Unfit::Endless) => {
            report::text(
                rt,
                b"a million bytes and no line's end; no more is read from there\n",
            );
            state::leave(rt, d);
        }
    }
    None
}
