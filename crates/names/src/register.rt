// The sixteen registers and the sixteen control and status registers, by number and by name.
ghost use Rattle.std.specs.Prelude.{◌≡◌};
ghost use Rattle.names.specs.Names.{register_name, csr_name, reg_numbered, reg_named, csr_numbered, csr_named};
ghost use Rattle.names.specs.Code.{pack, fixed_keyed, number_near};

use crate::keys;

#[derive(Clone, Copy)]
pub struct Reg {
    pub number: u8,
}

// Where the registers that the rules name stand among the sixteen.
pub const IA: usize = Reg::IA.number as usize;

pub const F: usize = Reg::F.number as usize;

pub const PC: usize = Reg::PC.number as usize;

// The canonical name as one number, its first byte lowest: `r` and one or two digits; 0 where there is no such register.
fn register_key(number: u8) -> u64
    ensures { result ≡ pack (register_name number) }
{
    let n = number as u64;
    match number {
        0..=9 => 0x3072 + 0x100 * n,
        10..=15 => 0x303172 + 0x10000 * (n - 10),
        _ => 0,
    }
}

// The number that a canonical name with this key has, by its last digit. Of other keys it says nothing.
#[tactic(auto, unfolding(crate::specs::Code::number_near))]
fn near(key: u64) -> u8
    ensures { result ≡ number_near key }
{
    if key < 0x10000 {
        (key / 0x100 % 16) as u8
    } else {
        ((10 + key / 0x10000 % 16) % 16) as u8
    }
}

impl Reg {
    pub const SP: Reg = Reg { number: 11 };

    pub const CA: Reg = Reg { number: 12 };

    pub const IA: Reg = Reg { number: 13 };

    pub const F: Reg = Reg { number: 14 };

    pub const PC: Reg = Reg { number: 15 };

    pub fn from_number(n: u8) -> Option<Reg>
        ensures { result ≡ reg_numbered n }
    {
        (n <= 15).then_some(Reg { number: n })
    }

    // The canonical name as one number, its first byte lowest; 0 where there is no such register: `name` can't fail, and its contract speaks of every number.
    pub fn name(self) -> u64
        ensures { result ≡ pack (register_name self.number) }
    {
        register_key(self.number)
    }

    // By the key of a fixed name.
    #[tactic(auto, unfolding(crate::specs::Code::fixed_keyed))]
    fn fixed(key: u64) -> Option<Reg>
        ensures { result ≡ fixed_keyed key }
    {
        match key {
            0x7073 => Some(Reg::SP),
            0x6163 => Some(Reg::CA),
            0x6169 => Some(Reg::IA),
            0x66 => Some(Reg::F),
            0x6370 => Some(Reg::PC),
            _ => None,
        }
    }

    // By a canonical or a fixed name, of either case.
    pub fn from_name(name: &[u8]) -> Option<Reg>
        ensures { result ≡ reg_named name.now }
    {
        let key = keys::key(name)?;
        let number = near(key);
        if register_key(number) == key {
            Reg::from_number(number)
        } else {
            Reg::fixed(key)
        }
    }
}

// Of a trait for `Reg` and `Csr` only the one line of `from_number` would be shared, since names are found otherwise; so they have none.
#[derive(Clone, Copy)]
pub struct Csr {
    pub number: u8,
}

// The name as one number: `cs` before the name of the register with the same number; 0 where there is no such CSR.
fn csr_key(number: u8) -> u64
    ensures { result ≡ pack (csr_name number) }
{
    if number < 16 {
        0x7363 + 0x10000 * register_key(number)
    } else {
        0
    }
}

impl Csr {
    pub fn from_number(n: u8) -> Option<Csr>
        ensures { result ≡ csr_numbered n }
    {
        (n <= 15).then_some(Csr { number: n })
    }

    pub fn name(self) -> u64
        ensures { result ≡ pack (csr_name self.number) }
    {
        csr_key(self.number)
    }

    pub fn from_name(name: &[u8]) -> Option<Csr>
        ensures { result ≡ csr_named name.now }
    {
        let key = keys::key(name)?;
        let number = near(key / 0x10000);
        if csr_key(number) == key {
            Csr::from_number(number)
        } else {
            None
        }
    }
}
