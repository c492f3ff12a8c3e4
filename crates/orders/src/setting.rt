// register: one or all shown, or one set.
use crate::Order;
use console::values::Said;
use console::{values, words};
use panel::registers;
use panel::view::View;

// register [NAME [VALUE]]
pub fn register<'a>(rt: &impl Print, line: &[u8], view: View) -> Result<Option<Order<'a>>, Said> {
    let Some((word, rest)) = words::next(line) else {
        registers::show_registers(rt, view);
        return Ok(None);
    };
    let Some(register) = registers::register(word) else {
        values::complain(rt, b"no such register", word);
        return Err(Said);
    };
    let value = values::last(rt, rest)?;
    if value.is_none() {
        registers::show_register(rt, view, register);
    }
    Ok(value.map(|content| Order::Set(register, content)))
}
