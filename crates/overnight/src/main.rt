// The overnight pen bench: a list of pens run through the firmware, one after the other. It writes a line for each pen.
#![tactic(auto)]

ghost use Rattle.std.specs.Prelude.{◌≡◌, length};
ghost use Rattle.calls.specs.Calls.{world_of};
ghost use Rattle.manifests.specs.Manifests.{lines as lines_of};
ghost use Rattle.manifests.specs.Code.{HeadsOf};
ghost use Rattle.pens.specs.Pen.{after_pens};

use bus::state::Stretch;
use calls::state;
use calls::state::Machine;
use console::files::hold_standard;
use console::rows::Row;
use evening::arguments::Settings;
use evening::{arguments, files, firmware, given};
use night::lines::{Cause, Told};
use night::totals::Totals;
use night::{lines, progress, totals};
use pens::Report;
use watching::Ending;

// Of each room the `ensures` gives only the length, so that no proof writes the zeros out.
fn ram_room() -> [u8; 65504]
    ensures { 65504 ≡ length result }
{
    [0u8; 65504]
}

fn journal_room() -> [u16; 32768]
    ensures { 32768 ≡ length result }
{
    [0u16; 32768]
}

fn setup_room() -> [u16; 131]
    ensures { 131 ≡ length result }
{
    [0u16; 131]
}

// Room for a list of 1,048,576 bytes, and one more that says that it is too long.
fn list_room() -> [u8; 1048577]
    ensures { 1048577 ≡ length result }
{
    [0u8; 1048577]
}

// Room for two tables of heads, of 65,535 and of 65,536.
fn heads_room() -> [usize; 131071]
    ensures { 131071 ≡ length result }
{
    [0usize; 131071]
}

// Room for the longest line: a name has at most 65,503 letters of two bytes each.
fn row_room() -> [u8; 131072]
    ensures { 131072 ≡ length result }
{
    [0u8; 131072]
}

// Room for the refused pens that are told one by one.
fn refused_room() -> [u8; 32768]
    ensures { 32768 ≡ length result }
{
    [0u8; 32768]
}

// What a night has come to, with the rooms for a line and for the refused pens.
#[derive(Drop)]
struct Night<'a, 'b> {
    totals: Totals,
    row: &'a mut [u8],
    refused: Row<'b>,
}

fn opened<'a, 'b>(totals: Totals, row: &'a mut [u8], refused: &'b mut [u8]) -> Night<'a, 'b> {
    Night {
        totals,
        row,
        refused: Row::new(refused),
    }
}

fn cause(e: Ending) -> Cause {
    match e {
        Ending::Break => Cause::Stop,
        Ending::Halted => Cause::Halted,
        Ending::Budget | Ending::Refused | Ending::Watch => Cause::Budget,
    }
}

fn tell_accepted(rt: &HostRuntime, night: &mut Night, line: &[u8], name: &[u8], r: Report) {
    let told = Told {
        r0: r.r0,
        cause: cause(r.ending),
        steps: r.steps,
        bus: r.bus,
    };
    let t = totals::with_accepted(night.totals, told.cause);
    let written = lines::accepted(&mut *night.row, line, told, name);
    night.totals = progress::written(rt, t, written);
}

// A line that is no number has a question mark for its pen.
fn tell_refused(rt: &HostRuntime, night: &mut Night, line: &[u8], number: u8) {
    let is_pen = manifests::read_number(line).is_some();
    let pen: &[u8] = if is_pen { line } else { b"?" };
    let t = totals::with_refused(night.totals, pen, is_pen, number, &mut night.refused);
    let written = lines::refused(&mut *night.row, pen, number);
    night.totals = progress::written(rt, t, written);
}

// A pen's line, written and counted.
fn tell<'a>(
    rt: &HostRuntime,
    night: &mut Night,
    line: &[u8],
    today: &'a [u8],
    last_good: &'a [u8],
    r: Report,
) {
    if r.number == 0 {
        let name = manifests::lookup(today, last_good, r.held);
        tell_accepted(rt, night, line, name, r);
    } else {
        tell_refused(rt, night, line, r.number);
    }
    night.totals = progress::shown(rt, night.totals);
}

// The pens of a list, one after the other. The loop goes on at the end that `line_end` answers, of which `after_pens` speaks: a place, and no count.
fn list<'a>(
    rt: &HostRuntime,
    m: Machine,
    ram: &mut [u8],
    journal: &mut [u16],
    lines: &[u8],
    today: &'a [u8],
    today_heads: &[usize],
    last_good: &'a [u8],
    last_heads: &[usize],
    setup: &[u16],
    night: &mut Night,
) -> Machine
    requires { HeadsOf today.now today_heads.now × HeadsOf last_good.now last_heads.now }
    ensures { world_of result ram.new journal.new
        ≡ after_pens (lines_of lines.now) today.now last_good.now setup.now (world_of m ram.old journal.old) }
{
    let mut machine = m;
    let mut at: usize = 0;
    while at < lines.len() {
        let end = manifests::line_end(lines, at);
        let line = &lines[at..end];
        let r = pens::pen(
            machine,
            ram,
            journal,
            line,
            today,
            today_heads,
            last_good,
            last_heads,
            setup,
        );
        tell(rt, night, line, today, last_good, r);
        machine = r.machine;
        at = end + 1;
    }
    machine
}

// The list, where nothing refuses all of it, and what it came to.
fn run<'a>(
    rt: &HostRuntime,
    ram: &mut [u8],
    journal: &mut [u16],
    lines: &[u8],
    today: &'a [u8],
    last_good: &'a [u8],
    s: Settings,
) {
    let (first, last) = s.board.stretch.unwrap_or((1, 0));
    let m = state::start(Stretch { first, last });
    if let Err(why) = pens::refusal(m, ram, journal, s.setup) {
        given::refused(rt, u8::from(why), s.setup);
        return;
    }
    let mut today_heads = heads_room();
    manifests::index(today, &mut today_heads);
    let mut last_heads = heads_room();
    manifests::index(last_good, &mut last_heads);
    let mut row = row_room();
    let mut refused = refused_room();
    let mut night = opened(progress::begin(rt, lines), &mut row, &mut refused);
    list(
        rt,
        m,
        ram,
        journal,
        lines,
        today,
        &today_heads,
        last_good,
        &last_heads,
        s.setup,
        &mut night,
    );
    tell_all(rt, &night);
}

// What the list came to, at its end.
fn tell_all(rt: &HostRuntime, night: &Night) {
    progress::clear(rt, night.totals);
    totals::tell_all(rt, night.totals, night.refused.bytes());
}

// The firmware and the lists are read, each whole, before anything runs; what is wrong with each is said.
fn begin(rt: &HostRuntime, s: Settings, ram: &mut [u8], journal: &mut [u16]) {
    let loaded = firmware::load(rt, s.paths.firmware, ram);
    let mut room = list_room();
    let lines = files::read_lines(rt, s.paths.pens, &mut room);
    let mut today_room = list_room();
    let today = files::read_lines(rt, s.paths.today, &mut today_room);
    let mut last_good_room = list_room();
    let last_good = files::read_lines(rt, s.paths.last_good, &mut last_good_room);
    if let (Ok(()), Ok(lines), Ok(today), Ok(last_good)) = (loaded, lines, today, last_good) {
        run(rt, ram, journal, lines, today, last_good, s);
    }
}

fn main(rt: HostRuntime) {
    hold_standard(&rt);
    let mut setup = setup_room();
    let Some(s) = arguments::read(&rt, &mut setup) else {
        return;
    };
    if !files::is_output_open(&rt) {
        return;
    }
    let bytes = s.board.ram.min(65504);
    let words = s.board.words.min(32768);
    let mut ram = ram_room();
    let mut journal = journal_room();
    begin(&rt, s, &mut ram[..bytes], &mut journal[..words]);
}
