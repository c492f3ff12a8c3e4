// The list: its entries one after the other, without an address of one kind twice.
ghost use Rattle.std.specs.Prelude.{◌+◌, ◌<◌, ◌≤◌, ◌≡◌, cond, [], ◌∷◌, ◌++◌};
ghost use Rattle.entries.specs.Entries.{met_at, meets, marked};
ghost use Rattle.stops.specs.Stops.{list_of, kind_number, gone as gone_by, kept, first_of};

use entries::{Entry, Met};

// What an entry can be, by the machine's numbers. `Entry` itself keeps the number: over the C interface there are unknown kinds.
#[derive(Clone, Copy, PartialEq, Eq)]
pub enum Kind {
    Break = 1,
    Watch = 2,
}

impl From<Kind> for u16 {
    fn from(kind: Kind) -> u16
        ensures { result ≡ kind_number kind }
    {
        kind as u16
    }
}

// The list is the first `count` of the entries: nothing may grow here.
#[derive(Clone, Copy)]
pub struct Stops {
    pub count: usize,
    pub entries: [Entry; 64],
}

const UNUSED: Entry = Entry {
    address: 0,
    kind: 0,
    hits: 0,
};

pub fn none() -> Stops
    ensures { (list_of result ≡ []) × (result.count ≡ 0) }
{
    Stops {
        count: 0,
        entries: [UNUSED; 64],
    }
}

impl Stops {
    // The entries, in the order in which they were added.
    pub fn list(&self) -> &[Entry]
        ensures { result.now ≡ list_of self.now }
    {
        if self.count < 64 {
            return &self.entries[..self.count];
        }
        &self.entries
    }
}

// One entry more; past 64 none.
pub fn with(s: Stops, e: Entry) -> Stops
    ensures result_value { s.count < 64 → list_of result ≡ list_of s ++ (e ∷ []) }
    ensures count_bound { result.count ≤ s.count + 1 }
{
    let n = s.count;
    if 64 <= n {
        return s;
    }
    let mut entries = s.entries;
    entries[n] = e;
    Stops {
        count: n + 1,
        entries,
    }
}

// What a command deletes: the entry of a kind at an address, or all of that kind.
#[derive(Clone, Copy)]
pub struct Gone {
    pub kind: u16,
    pub address: Option<u16>,
}

fn is_gone(e: Entry, g: Gone) -> bool
    ensures { result ≡ gone_by g e }
{
    (e.kind == g.kind) & g.address.is_none_or(|address| e.address == address)
}

fn unless_gone(s: Stops, e: Entry, g: Gone) -> Stops
    ensures result_value { s.count < 64 → list_of result ≡ list_of s ++ cond (gone_by g e) [] (e ∷ []) }
    ensures count_bound { result.count ≤ s.count + 1 }
{
    if is_gone(e, g) {
        return s;
    }
    with(s, e)
}

// The list without what is deleted; the others stay in their order, with their hits.
pub fn without(s: Stops, g: Gone) -> Stops
    ensures { list_of result ≡ kept g (list_of s) }
{
    let mut after = none();
    for e in s.list() {
        after = unless_gone(after, *e, g);
    }
    after
}

// What a stop meets: entries of a kind at one of the bytes from an address on.
pub fn met(kind: u16, count: u8, first: u16) -> Met
    ensures { result ≡ met_at kind count first }
{
    Met { kind, count, first }
}

fn is_met(e: Entry, x: Met) -> bool
    ensures { result ≡ meets x e }
{
    entries::meets(e.address, e.kind, x)
}

// The first entry that a stop meets.
pub fn first(s: Stops, x: Met) -> Option<Entry>
    ensures { result ≡ first_of (meets x) (list_of s) }
{
    for e in s.list() {
        if is_met(*e, x) {
            return Some(*e);
        }
    }
    None
}

// The entries that a stop meets have one hit more.
pub fn raised(s: Stops, x: Met) -> Stops
    ensures { list_of result ≡ marked x (list_of s) }
{
    let mut after = s;
    entries::mark(&mut after.entries, x);
    after
}
