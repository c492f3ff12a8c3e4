// origin: which byte of memory, register or status register is asked about.
use crate::Asked;
use console::values::Said;
use console::{values, words};
use lexis::numbers;
use names::register::{Csr, Reg};
use panel::parts::Part;

// An address, where the word is no register's name.
fn address_in(rt: &impl Print, word: &[u8], ram: usize) -> Result<Asked, Said> {
    match numbers::number(word) {
        Ok(v) if !v.negative & ((v.bits as usize) < ram) => Ok(Asked::Byte(v.bits)),
        _ => {
            values::complain(rt, b"neither a register nor an address of RAM", word);
            Err(Said)
        }
    }
}

fn part(word: &[u8]) -> Option<Part> {
    let register = Reg::from_name(word).map(Part::Register);
    register.or_else(|| Csr::from_name(word).map(Part::Status))
}

// origin ADDR or NAME
pub fn origin(rt: &impl Print, line: &[u8], ram: usize) -> Result<Asked, Said> {
    let Some((word, rest)) = words::next(line) else {
        report::text(rt, b"an address or a register's name is needed\n");
        return Err(Said);
    };
    if !values::is_end(rt, rest) {
        return Err(Said);
    }
    match part(word) {
        Some(part) => Ok(Asked::Part(part)),
        None => address_in(rt, word, ram),
    }
}
