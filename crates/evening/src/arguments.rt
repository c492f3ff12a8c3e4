// What the bench is started with: pens --at ADDR --stop ADDR [--budget N] [--set REG=VALUE].. [--ram N] [--slots N] [--protect FIRST LAST] FIRMWARE PENS TODAY LASTGOOD
ghost use Rattle.std.specs.Prelude.{◌<◌};

use crate::given;
use console::arguments::{Bad, Board, Shared, argument, count, following, next, number};
use console::{version, words};
use night::notes;

// Where the last register stands that can be given: the setup has three words before the first, and two for each of 64.
const LAST: usize = 129;

// The arguments that name the files.
#[derive(Clone, Copy)]
pub struct Paths {
    pub firmware: usize,
    pub pens: usize,
    pub today: usize,
    pub last_good: usize,
}

// The setup is where a pen's name is poked, where its run stops, the most steps of a run, and then a number and a content for each register that is given.
#[derive(Clone, Copy)]
pub struct Settings<'a> {
    pub board: Board,
    pub setup: &'a [u16],
    pub paths: Paths,
}

// What is known of them as argument follows argument; the registers stand in the room for the setup, up to `end`.
#[derive(Clone, Copy)]
struct Known {
    board: Board,
    at: Option<u16>,
    stop: Option<u16>,
    budget: u16,
    end: usize,
    paths: [Option<usize>; 4],
}

#[derive(Clone, Copy)]
enum Given {
    At,
    Stop,
    Budget,
    Register,
    Shared(Shared),
    // Another word that begins with a minus sign.
    Strange,
    File,
}

static OPTIONS: [(&[u8], Given); 4] = [
    (b"--at", Given::At),
    (b"--stop", Given::Stop),
    (b"--budget", Given::Budget),
    (b"--set", Given::Register),
];

impl Given {
    fn named(word: &[u8]) -> Given {
        for (name, given) in &OPTIONS {
            if words::is_name(word, name) {
                return *given;
            }
        }
        match Shared::named(word) {
            Some(option) => Given::Shared(option),
            None if word.starts_with(b"-") => Given::Strange,
            None => Given::File,
        }
    }

    // With what follows it: how many arguments they are.
    fn taken(self) -> usize
        ensures { 0 < result }
    {
        match self {
            Given::Shared(option) => option.taken(),
            Given::File => 1,
            _ => 2,
        }
    }
}

fn usage(to: &impl Print) {
    report::text(
        to,
        b"usage: pens --at ADDR --stop ADDR [--budget N] [--set REG=VALUE].. [--ram N] [--slots N] [--protect FIRST LAST] FIRMWARE PENS TODAY LASTGOOD
",
    );
}

fn told(rt: &HostRuntime, bad: Bad) {
    let mut room = io::buffer();
    notes::complain(rt, bad.what, argument(rt, bad.at, &mut room));
    usage(&rt.stderr());
}

fn told_help(rt: &HostRuntime) {
    version::show(rt);
    usage(rt);
    report::text(
        rt,
        b"    --at ADDR             where each pen's name is poked, with a closing 0
    --stop ADDR           where the matching routine is done: its run stops when pc is this address
    --budget N            the most steps of a run, 0 to 65535; 65535 unless given
    --set REG=VALUE       a register that is set before each run; a name is r0 to r15, sp, ca, ia, f, pc, or a number
    --ram N               bytes of RAM, 0 to 65504; 30000 unless given
    --slots N             records of the journal, 0 to 1024; 1024 unless given
    --protect FIRST LAST  the first and the last address, 0 to 65535, of RAM that no instruction changes; none unless given
    --version             tells the version
    --help                tells what stands here
    FIRMWARE              four hexadecimal digits, a newline, then bytes: in memory from that address on at the start
    PENS                  pen numbers, one a line
    TODAY                 today's manifest: a number, a tab and a name in UTF-8 in each line
    LASTGOOD              the last good manifest, in which a pen is looked up that today's has not
",
    );
}

// The number in an argument.
fn word(rt: &HostRuntime, what: &'static [u8], i: usize) -> Result<u16, Bad> {
    number(rt, i, given::unsigned).ok_or(Bad { what, at: i })
}

fn store(setup: &mut [u16], i: usize, word: u16) {
    if let Some(place) = setup.get_mut(i) {
        *place = word;
    }
}

// A register more.
fn with_register(rt: &HostRuntime, k: Known, setup: &mut [u16], i: usize) -> Result<Known, Bad> {
    let mut room = io::buffer();
    let Some(pair) = given::read(argument(rt, i, &mut room)) else {
        return Err(Bad {
            what: b"--set needs REG=VALUE, as r1=0x300",
            at: i,
        });
    };
    if LAST < k.end {
        return Err(Bad {
            what: b"no more than 64 registers can be given",
            at: i,
        });
    }
    store(setup, k.end, pair.register);
    store(setup, k.end + 1, pair.content);
    Ok(Known {
        end: k.end + 2,
        ..k
    })
}

fn with_file(k: Known, i: usize) -> Result<Known, Bad> {
    let paths = match k.paths {
        [None, ..] => [Some(i), None, None, None],
        [a, None, ..] => [a, Some(i), None, None],
        [a, b, None, _] => [a, b, Some(i), None],
        [a, b, c, None] => [a, b, c, Some(i)],
        _ => {
            return Err(Bad {
                what: b"there are more than four files",
                at: i,
            });
        }
    };
    Ok(Known { paths, ..k })
}

// One argument that does not follow an option.
fn with_argument(
    rt: &HostRuntime,
    k: Known,
    setup: &mut [u16],
    given: Given,
    i: usize,
) -> Result<Known, Bad> {
    let mut more = k;
    match given {
        Given::At => more.at = Some(word(rt, b"--at needs an address from 0 to 65535", next(i))?),
        Given::Stop => {
            more.stop = Some(word(rt, b"--stop needs an address from 0 to 65535", next(i))?);
        }
        Given::Budget => {
            let what = b"--budget needs a number of steps from 0 to 65535";
            more.budget = word(rt, what, next(i))?;
        }
        Given::Register => return with_register(rt, k, setup, next(i)),
        Given::Shared(option) => more.board = k.board.with(rt, option, i, given::unsigned)?,
        Given::Strange => {
            return Err(Bad {
                what: b"there is no such option",
                at: i,
            });
        }
        Given::File => return with_file(k, i),
    }
    Ok(more)
}

// What is known with one argument more; None where the bench is not to start, which is told.
fn taken(rt: &HostRuntime, k: Known, setup: &mut [u16], given: Given, i: usize) -> Option<Known> {
    match given {
        Given::Shared(Shared::Version) => version::show(rt),
        Given::Shared(Shared::Help) => told_help(rt),
        _ => match with_argument(rt, k, setup, given, i) {
            Ok(more) => return Some(more),
            Err(bad) => told(rt, bad),
        },
    }
    None
}

// What has to be given.
#[derive(Clone, Copy)]
struct Whole {
    front: [u16; 3],
    paths: Paths,
}

fn completed(k: Known) -> Result<Whole, &'static [u8]> {
    let Some(at) = k.at else {
        return Err(b"--at is needed: where each pen's name is poked");
    };
    let Some(stop) = k.stop else {
        return Err(b"--stop is needed: where the matching routine is done");
    };
    let [Some(firmware), Some(pens), Some(today), Some(last_good)] = k.paths else {
        return Err(b"four files are needed: FIRMWARE PENS TODAY LASTGOOD");
    };
    Ok(Whole {
        front: [at, stop, k.budget],
        paths: Paths {
            firmware,
            pens,
            today,
            last_good,
        },
    })
}

fn given_at(rt: &HostRuntime, i: usize) -> Given {
    let mut room = io::buffer();
    Given::named(argument(rt, i, &mut room))
}

// All arguments, one after the other. An option takes those behind it along, so the place jumps: a `for` over places would have to skip.
fn gathered(rt: &HostRuntime, setup: &mut [u16]) -> Option<Known> {
    let mut k = Known {
        board: Board::new(),
        at: None,
        stop: None,
        budget: 65535,
        end: 3,
        paths: [None; 4],
    };
    let n = count(rt);
    let mut i: usize = 1;
    while i < n {
        let given = given_at(rt, i);
        k = taken(rt, k, setup, given, i)?;
        i = following(i, n, given.taken());
    }
    Some(k)
}

// The settings, with the setup in the room for it; None where the bench is not to start, and why was said.
pub fn read<'a>(rt: &HostRuntime, room: &'a mut [u16]) -> Option<Settings<'a>> {
    let k = gathered(rt, room)?;
    match completed(k) {
        Ok(all) => {
            for (place, word) in room.iter_mut().zip(all.front) {
                *place = word;
            }
            Some(Settings {
                board: k.board,
                setup: room.get(..k.end).unwrap_or(&[]),
                paths: all.paths,
            })
        }
        Err(what) => {
            notes::say(rt, what);
            usage(&rt.stderr());
            None
        }
    }
}
