// What the desk is started with: desk [--ram N] [--slots N] [--protect FIRST LAST] [IMAGE]
ghost use Rattle.std.specs.Prelude.{◌≡◌, ◌+◌, ◌≤◌, ◌<◌, max, IfOk, IsNone};

use crate::{values, version, words};
use lexis::numbers;
use std::env::{Env, FillError};

// What the options of the board give, whichever program takes them.
#[derive(Clone, Copy)]
pub struct Board {
    pub ram: usize,
    // The journal's words, 32 for a record.
    pub words: usize,
    // The first and the last protected address, where they are given; a first above the last means none.
    pub stretch: Option<(u16, u16)>,
}

// What the desk starts with; the image is an argument.
#[derive(Clone, Copy)]
pub struct Settings {
    pub board: Board,
    pub image: Option<usize>,
}

// The options that each program has.
#[derive(Clone, Copy, PartialEq, Eq)]
pub enum Shared {
    Ram,
    Slots,
    Protect,
    Version,
    Help,
}

// What is wrong with an argument.
#[derive(Clone, Copy)]
pub struct Bad {
    pub what: &'static [u8],
    pub at: usize,
}

// An argument, put at the start of the room; empty where it is missing, or longer than the room.
pub fn argument<'a>(rt: &impl Env, i: usize, room: &'a mut [u8]) -> &'a [u8] {
    let n = rt.arg(i, room).unwrap_or(0);
    words::front(room, n)
}

fn is_there(rt: &impl Env, i: usize) -> bool {
    let mut room = [0u8; 1];
    !matches!(rt.arg(i, &mut room), Err(FillError::NotPresent))
}

// How many arguments there are, the program's own name among them.
pub fn count(rt: &impl Env) -> usize {
    for n in 0..usize::MAX {
        if !is_there(rt, n) {
            return n;
        }
    }
    usize::MAX
}

// The number in an argument, as a program reads one.
pub fn number<F: Fn(&[u8]) -> Option<u16>>(rt: &impl Env, i: usize, read: F) -> Option<u16>
    requires { F.IsAlwaysCallable read }
{
    let mut room = io::buffer();
    read(argument(rt, i, &mut room))
}

// The place after an argument's; no system hands on a million of them.
pub fn next(i: usize) -> usize
    ensures { (i ≤ result) × (result ≤ i + 1) }
{
    if i < 1000000 { i + 1 } else { i }
}

static OPTIONS: [(&[u8], Shared); 6] = [
    (b"--ram", Shared::Ram),
    (b"--slots", Shared::Slots),
    (b"--protect", Shared::Protect),
    (b"--version", Shared::Version),
    (b"--help", Shared::Help),
    (b"-h", Shared::Help),
];

impl Shared {
    // The option that a word names, in either case.
    pub fn named(word: &[u8]) -> Option<Shared> {
        for (name, option) in &OPTIONS {
            if words::is_name(word, name) {
                return Some(*option);
            }
        }
        None
    }

    // The option with the numbers after it: how many arguments they are.
    pub fn taken(self) -> usize
        ensures { 0 < result }
    {
        match self {
            Shared::Protect => 3,
            _ => 2,
        }
    }
}

// The number in an argument, where it is at most so much.
fn within<F: Fn(&[u8]) -> Option<u16>>(
    rt: &impl Env,
    i: usize,
    read: F,
    most: u16,
    what: &'static [u8],
) -> Result<u16, Bad>
    requires { F.IsAlwaysCallable read }
    ensures { IfOk result (λ n. n ≤ most) }
{
    match number(rt, i, read) {
        Some(n) if n <= most => Ok(n),
        _ => Err(Bad { what, at: i }),
    }
}

impl Board {
    pub fn new() -> Board
        ensures { (result.ram ≡ 30000) × (result.words ≡ 32768) × IsNone result.stretch }
    {
        Board {
            ram: 30000,
            words: 32768,
            stretch: None,
        }
    }

    // The board with what the option at a place gives; as it was where the option is of another kind.
    pub fn with<F: Fn(&[u8]) -> Option<u16>>(
        self,
        rt: &impl Env,
        option: Shared,
        i: usize,
        read: F,
    ) -> Result<Board, Bad>
        requires { F.IsAlwaysCallable read }
        ensures ram { IfOk result (λ b. b.ram ≤ max self.ram 65504) }
        ensures words { IfOk result (λ b. b.words ≤ max self.words 32768) }
    {
        let at = next(i);
        let mut board = self;
        match option {
            Shared::Ram => {
                let what = b"--ram needs a number of bytes from 0 to 65504";
                board.ram = within(rt, at, &read, 65504, what)? as usize;
            }
            Shared::Slots => {
                let what = b"--slots needs a number from 0 to 1024";
                board.words = within(rt, at, &read, 1024, what)? as usize * 32;
            }
            Shared::Protect => {
                let what = b"--protect needs a first and a last address from 0 to 65535";
                let first = within(rt, at, &read, 65535, what)?;
                let last = within(rt, next(at), &read, 65535, what)?;
                board.stretch = Some((first, last));
            }
            Shared::Version | Shared::Help => {}
        }
        Ok(board)
    }
}

// The argument after so many of n.
pub fn following(i: usize, n: usize, k: usize) -> usize
    requires { (i < n) × (0 < k) }
    ensures { (i < result) × (result ≤ n) }
{
    if k < n - i { i + k } else { n }
}

fn usage(rt: &impl Print) {
    report::text(
        rt,
        b"usage: desk [--ram N] [--slots N] [--protect FIRST LAST] [IMAGE]\n",
    );
}

fn told_help(rt: &impl Print) {
    version::show(rt);
    usage(rt);
    report::text(
        rt,
        b"    --ram N               bytes of RAM, 0 to 65504; 30000 unless given
    --slots N             records of the journal, 0 to 1024; 1024 unless given
    --protect FIRST LAST  the first and the last address, 0 to 65535, of RAM that no instruction changes; none unless given
    --version             tells the version
    IMAGE                 four hexadecimal digits, a newline, then bytes: in memory from that address on at the start
Commands come from standard input, a line each; ? lists them.
",
    );
}

fn told(rt: &(impl Print + Env), bad: Bad) {
    let mut room = io::buffer();
    report::text(rt, b"desk: ");
    values::complain(rt, bad.what, argument(rt, bad.at, &mut room));
    usage(rt);
}

// What an argument is: an option, another word with a minus sign in front, or the image.
#[derive(Clone, Copy)]
enum Given {
    Option(Shared),
    Strange,
    Image,
}

impl Given {
    // How many arguments it takes.
    fn taken(self) -> usize
        ensures { 0 < result }
    {
        match self {
            Given::Option(option) => option.taken(),
            Given::Strange | Given::Image => 1,
        }
    }
}

fn named(rt: &impl Env, i: usize) -> Given {
    let mut room = io::buffer();
    let word = argument(rt, i, &mut room);
    match Shared::named(word) {
        Some(option) => Given::Option(option),
        None if word.starts_with(b"-") => Given::Strange,
        None => Given::Image,
    }
}

fn with_image(s: Settings, i: usize) -> Result<Settings, Bad> {
    match s.image {
        None => Ok(Settings {
            image: Some(i),
            ..s
        }),
        Some(_) => Err(Bad {
            what: b"there is more than one image",
            at: i,
        }),
    }
}

// A number of an option is without a sign.
fn unsigned(word: &[u8]) -> Option<u16> {
    Some(numbers::unsigned(word).ok()?.bits)
}

fn with_argument(rt: &impl Env, s: Settings, given: Given, i: usize) -> Result<Settings, Bad> {
    match given {
        Given::Option(option) => Ok(Settings {
            board: s.board.with(rt, option, i, unsigned)?,
            ..s
        }),
        Given::Strange => Err(Bad {
            what: b"there is no such option",
            at: i,
        }),
        Given::Image => with_image(s, i),
    }
}

// The settings with one argument more; None where the desk is not to start, which is told.
fn taken(rt: &(impl Print + Env), s: Settings, given: Given, i: usize) -> Option<Settings> {
    match given {
        Given::Option(Shared::Version) => version::show(rt),
        Given::Option(Shared::Help) => told_help(rt),
        _ => match with_argument(rt, s, given, i) {
            Ok(more) => return Some(more),
            Err(bad) => told(rt, bad),
        },
    }
    None
}

pub fn read(rt: &(impl Print + Env)) -> Option<Settings> {
    let mut s = Settings {
        board: Board::new(),
        image: None,
    };
    let n = count(rt);
    // A step is one to three arguments long, as the option says, so that no `for` is plainer.
    let mut i: usize = 1;
    while i < n {
        let given = named(rt, i);
        s = taken(rt, s, given, i)?;
        i = following(i, n, given.taken());
    }
    Some(s)
}

// The protected addresses, told where they are given.
pub fn tell_stretch(rt: &impl Print, stretch: Option<(u16, u16)>) {
    let Some((first, last)) = stretch else {
        return;
    };
    if last < first {
        report::text(rt, b"nothing is protected: first ");
        report::hex(rt, first as u64, 4);
        report::text(rt, b" is above last ");
    } else {
        report::text(rt, b"protected ");
        report::hex(rt, first as u64, 4);
        report::text(rt, b" to ");
    }
    report::hex(rt, last as u64, 4);
    report::end(rt);
}
