// The desk: MB50's debugger on the laptop, over the proved machine. It reads commands from standard input, a line each.
#![tactic(auto)]

ghost use Rattle.std.specs.Prelude.{◌≡◌, length};

use bus::state::Stretch;
use console::arguments::Settings;
use console::commands::Command;
use console::{arguments, commands, files, words};
use orders::images;
use sitting::state::Desk;
use sitting::{input, own, state};
use stopping::lent;
use stopping::lent::Lent;

// Of each room the `ensures` gives only the length, so that no proof writes the zeros out.
fn ram_room() -> [u8; 65504]
    ensures { 65504 ≡ length result }
{
    [0u8; 65504]
}

fn journal_room() -> [u16; 32768]
    ensures { 32768 ≡ length result }
{
    [0u16; 32768]
}

// A command, by the line behind its name. Each is one on the machine, in `orders`, or one on the desk, in `sitting`, and goes through the other as it came.
fn obey(rt: &HostRuntime, command: Command, d: &mut Desk, line: &[u8], lent: &mut Lent) {
    operating::operate(rt, command, line, &mut d.stops, lent);
    let slots = lent.journal.len() / 32;
    let _ = own::tend(rt, command, d, line, lent.view(), slots);
}

// A line: a command, or nothing, or a remark that begins with #.
fn perform(rt: &HostRuntime, d: &mut Desk, line: &[u8], lent: &mut Lent) {
    let Some((name, rest)) = words::next(line) else {
        return;
    };
    if name.starts_with(b"#") {
        return;
    }
    match commands::find(name) {
        Ok(command) => obey(rt, command, d, rest, lent),
        Err(why) => commands::unfound(rt, why, name),
    }
}

// The next line from where commands come from now, done.
fn turn(rt: &HostRuntime, d: &mut Desk, lent: &mut Lent) {
    let mut room = io::buffer();
    let Some(n) = input::next(rt, d, &mut room) else {
        return;
    };
    let line = words::front(&room, n);
    let mark = state::marked(d);
    perform(rt, d, line, lent);
    state::log(mark, d, line);
}

// The machine at the start, with its protected addresses.
fn started(stretch: Option<(u16, u16)>) -> [u16; 32] {
    let (first, last) = stretch.unwrap_or((1, 0));
    boundary::words::start(Stretch { first, last })
}

// A proved loop has to end, and nothing says that the input does. So the loop counts its turns, up to a number that no one uses up.
fn session(rt: &HostRuntime, stretch: Option<(u16, u16)>, ram: &mut [u8], journal: &mut [u16]) {
    let mut d = state::opened(rt);
    let mut machine = started(stretch);
    let mut lent = lent::of(&mut machine, ram, journal);
    for _ in 0..u64::MAX {
        turn(rt, &mut d, &mut lent);
        if d.is_over {
            return;
        }
    }
}

// The memory at the start is the image, or zeros.
fn begin(rt: &HostRuntime, s: Settings, ram: &mut [u8], journal: &mut [u16]) {
    if images::start_image(rt, s.image, ram).is_ok() {
        arguments::tell_stretch(rt, s.board.stretch);
        session(rt, s.board.stretch, ram, journal);
    }
}

fn main(rt: HostRuntime) {
    files::hold_standard(&rt);
    let Some(s) = arguments::read(&rt) else {
        return;
    };
    let bytes = s.board.ram.min(65504);
    let words = s.board.words.min(32768);
    let mut ram = ram_room();
    let mut journal = journal_room();
    begin(&rt, s, &mut ram[..bytes], &mut journal[..words]);
}
