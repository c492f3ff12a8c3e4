// Why a run stopped, where a break or a watch stopped it.
ghost use Rattle.std.specs.Prelude.{◌≡◌, ◌<◌, None, Some, IsSome};
ghost use Rattle.telling.specs.declared.causes.Kind.TheVariants.{Watch};

use console::rows::Row;

#[derive(Clone, Copy, PartialEq, Eq)]
pub enum Kind {
    Break,
    Watch,
}

impl Kind {
    // By the number that a list's entry has; 0 is none.
    pub fn numbered(n: u16) -> Option<Kind>
        ensures none { n ≡ 0 → result ≡ None }
        ensures watch { n ≡ 2 → result ≡ Some Watch }
        ensures other { 0 < n → IsSome result }
    {
        match n {
            0 => None,
            2 => Some(Kind::Watch),
            _ => Some(Kind::Break),
        }
    }
}

// The entry that stopped a run, by kind and address; its hits, where they count; and of a watch the byte that was stored over, before and after.
#[derive(Clone, Copy)]
pub struct Stop {
    pub kind: Kind,
    pub address: u16,
    pub hits: Option<u16>,
    pub old: u8,
    pub new: u8,
}

// The entry.
fn put_entry(row: &mut Row, stop: Stop) {
    match stop.kind {
        Kind::Break => row.put_all(b"break "),
        Kind::Watch => row.put_all(b"watch "),
    }
    row.put_hex(stop.address, 4);
}

// How often it was hit.
fn put_hits(row: &mut Row, hits: u16) {
    row.put_all(b" (hit ");
    row.put_decimal(hits, 1);
    row.put(b')');
}

// What became of a watch's byte.
fn put_byte(row: &mut Row, stop: Stop) {
    row.put_all(b": [");
    row.put_hex(stop.address, 4);
    row.put_all(b"] ");
    row.put_hex(stop.old as u16, 2);
    row.put_all(b" -> ");
    row.put_hex(stop.new as u16, 2);
}

fn put(row: &mut Row, stop: Stop) {
    put_entry(row, stop);
    if let Some(hits) = stop.hits {
        put_hits(row, hits);
    }
    if stop.kind == Kind::Watch {
        put_byte(row, stop);
    }
}

// The cause, in words that are put into the room; none where neither a break nor a watch stopped the run.
pub fn told<'a>(room: &'a mut [u8], stop: Option<Stop>) -> Option<&'a [u8]> {
    let stop = stop?;
    let mut row = Row::new(room);
    put(&mut row, stop);
    Some(row.finished())
}
