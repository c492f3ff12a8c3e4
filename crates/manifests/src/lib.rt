// Pen numbers, and manifests in which a pen is looked up.
#![tactic(auto)]

mod fronts;
mod indexing;
mod scanning;

ghost use Rattle.std.specs.Prelude.{◌≡◌, ◌-◌, ◌≤◌, length, take, drop};
ghost use Rattle.manifests.specs.Manifests.{number_of, name_of};
ghost use Rattle.manifests.specs.Code.{line_end, heads_of, held_from};

// Where a name lies in a manifest.
#[derive(Clone, Copy)]
pub struct Part {
    pub from: usize,
    pub to: usize,
}

impl Part {
    // Its bytes, as far as the manifest has them.
    fn of<'a>(self, s: &'a [u8]) -> &'a [u8]
        ensures { result.now ≡ take (self.to - self.from) (drop self.from s.now) }
    {
        let end = self.to.min(s.len());
        let start = self.from.min(end);
        &s[start..end]
    }
}

// Which manifest holds a pen, and where its name lies there.
#[derive(Clone, Copy)]
pub enum Held {
    Today(Part),
    LastGood(Part),
}

// A pen's number, from its line.
pub fn read_number(s: &[u8]) -> Option<u32>
    ensures { result ≡ number_of s.now }
{
    let digits = fronts::read_digits(s);
    if digits.count == 0 || digits.count < s.len() {
        return None;
    }
    Some(digits.value)
}

// The place of the first LF at a place or after it, or the end.
pub fn line_end(s: &[u8], at: usize) -> usize
    ensures value { result ≡ line_end s.now at }
    ensures lower_bound { at ≤ result }
    ensures upper_bound { at ≤ length s.now → result ≤ length s.now }
{
    if s.len() <= at {
        return at;
    }
    let rest = &s[at..];
    at + rest.iter().position(|b| *b == b'\n').unwrap_or(rest.len())
}

// Where the name lies of a pen by its line, looked up from heads: a manifest's own make it quick, and empty ones have every line looked through.
pub fn find(
    line: &[u8],
    today: &[u8],
    today_heads: &[usize],
    last_good: &[u8],
    last_heads: &[usize],
) -> Option<Held>
    ensures { result ≡ held_from line.now today.now today_heads.now last_good.now last_heads.now }
{
    let number = read_number(line)?;
    if let Some(part) = scanning::place(today, today_heads, number) {
        return Some(Held::Today(part));
    }
    let part = scanning::place(last_good, last_heads, number)?;
    Some(Held::LastGood(part))
}

// The name of a pen that was found: the very bytes of the manifest that holds it.
pub fn lookup<'a>(today: &'a [u8], last_good: &'a [u8], held: Option<Held>) -> &'a [u8]
    ensures { result.now ≡ name_of today.now last_good.now held }
{
    let Some(held) = held else {
        return &[];
    };
    match held {
        Held::Today(part) => part.of(today),
        Held::LastGood(part) => part.of(last_good),
    }
}

// The heads of a manifest, for `find`: two tables, for remainders by two lengths.
pub fn index(s: &[u8], heads: &mut [usize])
    ensures { heads.new ≡ heads_of (length heads.old) s.now }
{
    let half = heads.len() / 2;
    let (first, second) = heads.split_at_mut(half);
    indexing::table(s, first);
    indexing::table(s, second);
}
