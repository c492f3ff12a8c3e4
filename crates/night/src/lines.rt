// The lines of standard output, each made in a row before it is written.
use console::rows::Row;

// A pen that was accepted, but for its name.
#[derive(Clone, Copy)]
pub struct Told {
    pub r0: u16,
    pub cause: Cause,
    pub steps: u16,
    pub bus: u32,
}

// Why a run stopped.
#[derive(Clone, Copy)]
pub enum Cause {
    Stop,
    Halted,
    Budget,
}

impl Cause {
    fn word(self) -> &'static [u8] {
        match self {
            Cause::Stop => b"stop",
            Cause::Halted => b"halted",
            Cause::Budget => b"budget",
        }
    }
}

// What the run came to, with a tab before each part.
fn put_run(row: &mut Row<'_>, t: Told) {
    row.put(b'\t');
    row.put_hex(t.r0, 4);
    row.put(b'\t');
    row.put_all(t.cause.word());
    row.put(b'\t');
    row.put_number(u64::from(t.steps));
    row.put(b'\t');
    row.put_number(u64::from(t.bus));
}

// The line of an accepted pen, made in the room.
pub fn accepted<'a>(room: &'a mut [u8], pen: &[u8], t: Told, name: &[u8]) -> &'a [u8] {
    let mut row = Row::new(room);
    row.put_all(pen);
    put_run(&mut row, t);
    row.put(b'\t');
    row.put_all(name);
    row.put(b'\n');
    row.finished()
}

// The line of a refused pen.
pub fn refused<'a>(room: &'a mut [u8], pen: &[u8], number: u8) -> &'a [u8] {
    let mut row = Row::new(room);
    row.put_all(pen);
    row.put_all(b"\trefused\t");
    row.put_number(u64::from(number));
    row.put(b'\n');
    row.finished()
}
