// A buffer, of which the beginning is lent to the calls.
#[derive(Drop)]
pub struct Buffer<'a, T> {
    pub all: &'a mut [T],
    pub lent: usize,
}

impl<T: Copy> Buffer<'_, T> {
    pub fn lent(&mut self) -> &mut [T] {
        let n = self.lent.min(self.all.len());
        let all = &mut *self.all;
        &mut all[..n]
    }

    // A beginning of another length; the one before stays where the buffer is shorter.
    pub fn lend(&mut self, length: u16) {
        let n = usize::from(length);
        if n <= self.all.len() {
            self.lent = n;
        }
    }

    // One item; past the end nothing.
    pub fn put(&mut self, at: u16, item: T) {
        if let Some(place) = self.all.get_mut(usize::from(at)) {
            *place = item;
        }
    }
}

fn filling(a: usize, from: u8) -> u8 {
    ((a % 251 * 37 + from as usize) % 251) as u8
}

pub fn fill(ram: &mut [u8], from: u8) {
    for (a, byte) in ram.iter_mut().enumerate() {
        *byte = filling(a, from);
    }
}
