// The text of a word, as `mv r1, r2`.
ghost use Rattle.std.specs.Prelude.{◌≡◌, ◌∷◌, ◌++◌, ◌+◌, ◌≤◌, ◌<◌, ltb, length};
ghost use Rattle.std.proofs.lemmas.List.Edits.{sets};
ghost use Rattle.isa.specs.Code.{TellsAll};
ghost use Rattle.names.specs.Code.{pack};
ghost use Rattle.text.specs.Answer.{listed_as};
ghost use Rattle.text.specs.Listing.{first_is_csr, second_is_csr, operand_name, fit_says, fit_leaves, list_says, list_leaves};
ghost use Rattle.text.specs.Code.{key_text};

use isa::opcode;
use names::register::{Csr, Reg};

// Why there is no text: refusal 10 or 11.
#[derive(Clone, Copy)]
pub enum NoText {
    Reason2,
    NoRoom,
}

// The name of an operand as a key: at most five bytes.
fn operand(is_csr: bool, n: u8) -> u64
    requires { n < 16 }
    ensures { (result ≡ pack (operand_name is_csr n)) × (result < 1099511627776) }
{
    if is_csr {
        Csr { number: n }.name()
    } else {
        Reg { number: n }.name()
    }
}

// What stands between the mnemonic and the comma, as a key.
fn first_key(code: u8, n: u8) -> u64
    requires { n < 16 }
    ensures { key_text result ≡ 32 ∷ operand_name (first_is_csr code) n }
{
    32 + 256 * operand(code == 4, n)
}

// What stands from the comma on.
fn second_key(code: u8, n: u8) -> u64
    requires { n < 16 }
    ensures { key_text result ≡ 44 ∷ 32 ∷ operand_name (second_is_csr code) n }
{
    44 + 256 * (32 + 256 * operand(code == 3, n))
}

// How many bytes a key has, down to the last that is not 0.
fn width(key: u64) -> usize
    ensures { result ≡ length (key_text key) }
{
    8 - key.leading_zeros() as usize / 8
}

// The bytes of a key, first byte lowest, stored from `at` on; the place after them. One by one: a copy of so few bytes, of a length that is not known before,
// would be a call of the C library, of which the C boundary needs nothing.
fn put(out: &mut [u8], at: usize, key: u64) -> usize
    requires { at + length (key_text key) ≤ length out.old }
    ensures { (result ≡ at + length (key_text key)) × (out.new ≡ sets out.old at (key_text key)) }
{
    let end = at + width(key);
    let mut rest = key;
    for i in at..end {
        out[i] = (rest % 256) as u8;
        rest = rest / 256;
    }
    end
}

// No text is longer than 16 bytes, so that with room for these nothing is counted.
fn is_short(room: usize, m: u64, d: u64, s: u64) -> bool
    requires { length (key_text m ++ key_text d ++ key_text s) ≤ 16 }
    ensures { result ≡ ltb room (length (key_text m) + length (key_text d) + length (key_text s)) }
{
    room < 16 && room < width(m) + width(d) + width(s)
}

// The bytes of three keys, one after the other, if there is room for all.
fn put3(out: &mut [u8], m: u64, d: u64, s: u64) -> Result<usize, NoText>
    requires { length (key_text m ++ key_text d ++ key_text s) ≤ 16 }
    ensures result_value { listed_as result ≡ fit_says (key_text m ++ key_text d ++ key_text s) (length out.old) }
    ensures out_after { out.new ≡ fit_leaves (key_text m ++ key_text d ++ key_text s) out.old }
{
    if is_short(out.len(), m, d, s) {
        return Err(NoText::NoRoom);
    }
    let a = put(out, 0, m);
    let b = put(out, a, d);
    let c = put(out, b, s);
    Ok(c)
}

// The same as `list`, by a table that is lent: making one costs more than a line. Another table's names could be longer than the room that is made for
// them, so it asks for the one that tells the rules.
pub fn list_in(table: &[u8; 256], word: u16, out: &mut [u8]) -> Result<usize, NoText>
    requires { TellsAll table.now }
    ensures result_value { listed_as result ≡ list_says word (length out.old) }
    ensures out_after { out.new ≡ list_leaves word out.old }
{
    let code = (word % 256) as u8;
    let first = (word / 4096) as u8;
    let second = (word / 256 % 16) as u8;
    let m = opcode::mnemonic(table, code);
    if m == 0 {
        return Err(NoText::Reason2);
    }
    put3(out, m, first_key(code, first), second_key(code, second))
}

// The text of a word at the front of the output, its length; 10 where the opcode gives reason 2, then 11.
pub fn list(word: u16, out: &mut [u8]) -> Result<usize, NoText>
    ensures result_value { listed_as result ≡ list_says word (length out.old) }
    ensures out_after { out.new ≡ list_leaves word out.old }
{
    let table = opcode::table();
    list_in(&table, word, out)
}
