// Bytes put one after the other: rows of text before they are written, names, copies of memory.
ghost use Rattle.std.specs.Prelude.{◌≡◌, ◌+◌, ◌≤◌, ◌<◌, [], ◌∷◌, length, take};
ghost use Rattle.console.specs.Rows.{Longer};

use crate::words;

// A room for bytes, and how far it is filled. What finds no room is let go.
#[derive(Drop)]
pub struct Row<'a> {
    room: &'a mut [u8],
    filled: usize,
}

impl<'a> Row<'a> {
    pub fn new(room: &'a mut [u8]) -> Row<'a>
        ensures { (result.filled ≡ 0) × (result.room.now ≡ room.old) }
    {
        Row { room, filled: 0 }
    }

    pub fn put(&mut self, b: u8)
        ensures fits { self.old.filled < length self.old.room.now → Longer (b ∷ []) self.old.filled self.old.room.now self.new.filled self.new.room.now }
        ensures room { length self.new.room.now ≡ length self.old.room.now }
    {
        if self.filled < self.room.len() {
            self.room[self.filled] = b;
            self.filled += 1;
        }
    }

    pub fn put_all(&mut self, bytes: &[u8])
        ensures fits { self.old.filled + length bytes.now ≤ length self.old.room.now → Longer bytes.now self.old.filled self.old.room.now self.new.filled self.new.room.now }
        ensures room { length self.new.room.now ≡ length self.old.room.now }
    {
        for &b in bytes {
            self.put(b);
        }
    }

    pub fn put_hex(&mut self, n: u16, width: usize)
        ensures { length self.new.room.now ≡ length self.old.room.now }
    {
        let mut digits = [0u8; 16];
        let k = io::hex(n as u64, width, &mut digits);
        self.put_all(&digits[..k]);
    }

    pub fn put_number(&mut self, n: u64)
        ensures { length self.new.room.now ≡ length self.old.room.now }
    {
        let mut digits = [0u8; 20];
        let k = io::decimal(n, &mut digits);
        self.put_all(&digits[..k]);
    }

    // With blanks in front, as many as make the width.
    pub fn put_decimal(&mut self, n: u16, width: usize)
        ensures { length self.new.room.now ≡ length self.old.room.now }
    {
        let mut digits = [0u8; 20];
        let k = io::decimal(n as u64, &mut digits);
        for _ in k..width {
            self.put(b' ');
        }
        self.put_all(&digits[..k]);
    }

    // The next byte goes to a place, and what stands before it stays.
    pub fn to(&mut self, place: usize)
        ensures { (self.new.filled ≡ place) × (self.new.room.now ≡ self.old.room.now) }
    {
        self.filled = place;
    }

    // What was put.
    pub fn bytes(&self) -> &[u8]
        ensures { self.now.filled ≤ length self.now.room.now → result.now ≡ take self.now.filled self.now.room.now }
    {
        words::front(self.room, self.filled)
    }

    // The same, lent for as long as the room is.
    pub fn finished(self) -> &'a [u8]
        ensures { self.entry.filled ≤ length self.entry.room.now → result.now ≡ take self.entry.filled self.entry.room.now }
    {
        let room = self.room;
        words::front(room, self.filled)
    }

    pub fn write(&self, rt: &impl Print) {
        report::text(rt, self.bytes());
    }
}
