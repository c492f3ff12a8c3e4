// The machine as it is looked at: the 32 words of its state, and its RAM.
ghost use Rattle.std.specs.Prelude.{◌≡◌, slice_index};

use crate::parts;
use bus::address;

#[derive(Clone, Copy)]
pub struct View<'a> {
    pub state: &'a [u16; 32],
    pub ram: &'a [u8],
}

impl View<'_> {
    pub fn pc(self) -> u16
        ensures { result ≡ slice_index self.entry.state.now 15 }
    {
        parts::pc(self.state)
    }

    // Register f, which holds the flags.
    pub fn f(self) -> u16
        ensures { result ≡ slice_index self.entry.state.now 14 }
    {
        parts::f(self.state)
    }

    // How many records are held.
    pub fn held(self) -> u16
        ensures { result ≡ slice_index self.entry.state.now 26 }
    {
        parts::held(self.state)
    }

    // The byte at an address, as the processor reads it.
    pub fn byte_at(self, at: u16) -> u8 {
        address::read_byte(parts::devices(self.state), self.ram, at)
    }

    // The word at an address, as the processor reads it.
    pub fn word_at(self, at: u16) -> u16 {
        address::read_word(parts::devices(self.state), self.ram, at)
    }

    // Whether a store by an instruction to an address is dropped.
    pub fn drops(self, at: u16) -> bool {
        address::drops(parts::stretch(self.state), self.ram.len(), at)
    }
}
