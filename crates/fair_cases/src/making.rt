// Making: what it answers, and what it leaves of master seed, seeds, cache, key and tally.
ghost use Rattle.std.specs.Prelude.{◌≤◌};

use cases::{ANSWERED, Answered, Hex, SILENT, chained, end_line};
use module::Module;
use refusal::Refusal;
use std::io;

// What making is given: N, and the lengths of master seed, seeds, cache and key.
#[derive(Clone, Copy, Debug, PartialEq, Eq)]
pub(crate) struct Making {
    pub(crate) n: u64,
    pub(crate) master: u16,
    pub(crate) seeds: u16,
    pub(crate) cache: u16,
    pub(crate) key: u16,
}

// That of a day of three steps, with nothing wrong.
pub(crate) const MAKING: Making = Making {
    n: 3,
    master: 32,
    seeds: 96,
    cache: 388,
    key: 32,
};

// That of a day of n steps.
pub(crate) fn making_of(n: u64) -> Making
    requires { n ≤ 256 }
{
    let seeds = (32 * n) as u16;
    let cache = (4 + 128 * n) as u16;
    Making {
        n,
        seeds,
        cache,
        ..MAKING
    }
}

// What making is lent, each a part of a room that is long enough for every length.
#[derive(Clone, Copy, Debug, PartialEq, Eq)]
pub(crate) struct Rooms {
    master: [u8; 65536],
    seeds: [u8; 65536],
    pub(crate) cache: [u8; 65536],
    pub(crate) key: [u8; 65536],
}

impl Rooms {
    fn new() -> Rooms {
        Rooms {
            master: rising(9),
            seeds: rising(0),
            cache: [9; 65536],
            key: [9; 65536],
        }
    }

    fn make(&mut self, given: Making, tally: &mut u64) -> Result<(), Refusal> {
        let Rooms {
            mut master,
            mut seeds,
            mut cache,
            mut key,
        } = *self;
        let answer = fair::make::<Module>(
            given.n,
            &mut master[..usize::from(given.master)],
            &mut seeds[..usize::from(given.seeds)],
            &mut cache[..usize::from(given.cache)],
            &mut key[..usize::from(given.key)],
            tally,
        );
        *self = Rooms {
            master,
            seeds,
            cache,
            key,
        };
        answer
    }

    fn show(&self, rt: &impl Print, given: Making) -> io::Result<()> {
        let master = Hex(chained(&self.master[..usize::from(given.master)]));
        let seeds = Hex(chained(&self.seeds[..usize::from(given.seeds)]));
        let cache = Hex(chained(&self.cache[..usize::from(given.cache)]));
        let key = Hex(chained(&self.key[..usize::from(given.key)]));
        print!(rt; " {master} {seeds} {cache} {key}")
    }
}

// Another byte, and of rising ones the next.
pub(crate) fn after(byte: u8) -> u8 {
    if byte < 250 { byte + 1 } else { 0 }
}

fn rising(first: u8) -> [u8; 65536] {
    let mut bytes = [0; 65536];
    let mut next = first;
    for byte in &mut bytes {
        *byte = next;
        next = after(next);
    }
    bytes
}

// A day of three steps, made.
pub(crate) fn made() -> Rooms {
    let mut rooms = Rooms::new();
    let mut tally = ANSWERED;
    let _ = rooms.make(MAKING, &mut tally);
    rooms
}

// What making answers, and everything that it leaves.
pub(crate) fn show_made(rt: &impl Print, given: Making) -> io::Result<Rooms> {
    let mut rooms = Rooms::new();
    let mut tally = ANSWERED;
    let answer = Answered(rooms.make(given, &mut tally));
    print!(rt; " {answer}")?;
    rooms.show(rt, given)?;
    end_line(rt)?;
    Ok(rooms)
}

// The right length or the wrong one, as the lowest bit of a mix says.
pub(crate) fn either(mix: u16, right: u16, wrong: u16) -> u16
    ensures { right ≤ 32900 → wrong ≤ 32900 → result ≤ 32900 }
{
    if mix % 2 == 0 { right } else { wrong }
}

// The line of a make of these lengths.
fn make_at(rt: &impl Print, given: Making) -> io::Result<()> {
    let Making {
        n,
        master,
        seeds,
        cache,
        key,
    } = given;
    print!(rt; "make {n} {master} {seeds} {cache} {key}")?;
    show_made(rt, given)?;
    Ok(())
}

// Every mix of a wrong master seed, seeds, cache and key, for one N.
pub(crate) fn makes(rt: &impl Print, n: u64) -> io::Result<()> {
    for mix in 0..16 {
        let master = either(mix, 32, 31);
        let seeds = either(mix / 2, 96, 97);
        let cache = either(mix / 4, 388, 387);
        let key = either(mix / 8, 32, 33);
        make_at(
            rt,
            Making {
                n,
                master,
                seeds,
                cache,
                key,
            },
        )?;
    }
    Ok(())
}

// Every N outside 1 to 256 is refused, also where all lengths would fit it, or would if they wrapped.
pub(crate) fn wide_makes(rt: &impl Print) -> io::Result<()> {
    make_at(
        rt,
        Making {
            n: 0,
            seeds: 0,
            cache: 4,
            ..MAKING
        },
    )?;
    make_at(
        rt,
        Making {
            n: 257,
            seeds: 8224,
            cache: 32900,
            ..MAKING
        },
    )?;
    make_at(
        rt,
        Making {
            n: 576460752303423488,
            seeds: 0,
            cache: 4,
            ..MAKING
        },
    )?;
    make_at(
        rt,
        Making {
            n: u64::MAX,
            ..MAKING
        },
    )
}

// The wrong lengths on the other side.
pub(crate) fn long_makes(rt: &impl Print) -> io::Result<()> {
    make_at(
        rt,
        Making {
            master: 33,
            ..MAKING
        },
    )?;
    make_at(
        rt,
        Making {
            seeds: 95,
            ..MAKING
        },
    )?;
    make_at(
        rt,
        Making {
            cache: 389,
            ..MAKING
        },
    )?;
    make_at(rt, Making { key: 31, ..MAKING })
}

// The line of what making answers from this tally on, the tally left, and everything else that it leaves; and once more with the tally left.
fn make_from(rt: &impl Print, n: u64, first: u64) -> io::Result<()>
    requires { n ≤ 256 }
{
    print!(rt; "unanswered {n} {first}")?;
    let given = making_of(n);
    let mut rooms = Rooms::new();
    let mut tally = first;
    for _ in 0..2 {
        let answer = Answered(rooms.make(given, &mut tally));
        print!(rt; " {answer} {tally}")?;
        rooms.show(rt, given)?;
    }
    end_line(rt)
}

// Each of the calls of making fails in its turn, and at last none.
pub(crate) fn failing_makes(rt: &impl Print) -> io::Result<()> {
    for before in 0..8 {
        make_from(rt, 3, SILENT - before)?;
    }
    Ok(())
}

// Tallies near 0, 2^32 and 2^64.
pub(crate) fn edge_makes(rt: &impl Print) -> io::Result<()> {
    make_from(rt, 3, 0)?;
    make_from(rt, 3, 94)?;
    make_from(rt, 3, 4294967293)?;
    make_from(rt, 3, 18446744069414584416)?;
    make_from(rt, 3, u64::MAX - 6)?;
    make_from(rt, 3, u64::MAX - 2)?;
    make_from(rt, 3, u64::MAX)?;
    make_from(rt, 256, u64::MAX - 299)
}
