// The list of breaks and watches: an entry, what a stop meets, the first entry met, and the hits marked in a lent list.
#![tactic(auto)]

ghost use Rattle.std.specs.Prelude.{◌≡◌, map};
ghost use Rattle.entries.specs.Entries.{entry, meets as meets_it, counted as counted_by, marked, found, all_known};
ghost use Rattle.entries.specs.Code.{no_points, added, points_of, raised_all};

// As the C boundary has it: three words of 16 bits, the kind a number (1 break, 2 watch), since C may lend any.
#[repr(C)]
#[derive(Clone, Copy)]
pub struct Entry {
    pub address: u16,
    pub kind: u16,
    pub hits: u16,
}

// What a stop meets: the entries of a kind (a number, as an entry's) at one of the bytes from an address on. None where no byte is counted.
#[derive(Clone, Copy)]
pub struct Met {
    pub kind: u16,
    pub count: u8,
    pub first: u16,
}

// A list by value, without its hits, which steer no run: at most 64 entries, and how many there are (no heap: so an array and a count). A list that is too long
// has the count 65, as `too_long` says and the edit sixty_fifth_untold tries.
#[derive(Clone, Copy)]
pub struct Points {
    pub count: usize,
    pub entries: [Entry; 64],
}

// Is an entry of this address and kind among those that a stop meets?
pub fn meets(address: u16, kind: u16, x: Met) -> bool
    ensures { result ≡ meets_it x (entry address kind 0) }
{
    let first = (0 < x.count) & (address == x.first);
    let second = (1 < x.count) & (address == word::sums::plus(x.first, 1));
    (kind == x.kind) & (first | second)
}

// An entry that is met has one hit more; hits stop at 65,535.
fn counted(e: Entry, x: Met) -> Entry
    ensures { result ≡ counted_by x e }
{
    if meets(e.address, e.kind, x) {
        if e.hits < 65535 {
            return Entry {
                address: e.address,
                kind: e.kind,
                hits: e.hits + 1,
            };
        }
    }
    e
}

// The place of the first entry that is met.
pub fn first(list: &[Entry], x: Met) -> Option<usize>
    ensures { result ≡ found (meets_it x) list.now }
{
    list.iter().position(|e| meets(e.address, e.kind, x))
}

// Refusal 41's own question.
pub fn known(list: &[Entry]) -> bool
    ensures { result ≡ all_known (map (λ e. e.kind) list.now) }
{
    list.iter().all(|e| (e.kind == 1) | (e.kind == 2))
}

pub fn none() -> Points
    ensures { result ≡ no_points }
{
    let nothing = Entry {
        address: 0,
        kind: 0,
        hits: 0,
    };
    Points {
        count: 0,
        entries: [nothing; 64],
    }
}

pub fn add(p: Points, e: Entry) -> Points
    ensures { result ≡ added p e }
{
    let n = p.count;
    let mut entries = p.entries;
    if n < 64 {
        entries[n] = Entry { hits: 0, ..e };
        return Points {
            count: n + 1,
            entries,
        };
    }
    Points { count: 65, entries }
}

// The hits of a list that is kept in columns, marked as `mark` marks a lent one; kept for the theorem `raised-marked` and the edit columns_take_addresses.
pub fn raise(addresses: [u16; 64], kinds: [u16; 64], hits: [u16; 64], x: Met) -> [u16; 64]
    ensures { result ≡ raised_all x addresses kinds hits }
{
    let mut after = hits;
    for (i, h) in after.iter_mut().enumerate() {
        let e = Entry {
            address: addresses[i],
            kind: kinds[i],
            hits: *h,
        };
        let c = counted(e, x);
        *h = c.hits;
    }
    after
}

// A lent list by value.
pub fn gather(list: &[Entry]) -> Points
    ensures { result ≡ points_of list.now }
{
    let mut p = none();
    for e in list {
        p = add(p, *e);
    }
    p
}

// Each entry that is met has one hit more.
pub fn mark(list: &mut [Entry], x: Met)
    ensures { list.new ≡ marked x list.old }
{
    for e in list {
        *e = counted(*e, x);
    }
}
