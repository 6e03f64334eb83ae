// Filling: what it answers, and what it leaves of seed, table and tally.
ghost use Rattle.std.specs.Prelude.{◌≡◌, ◌≤◌, length};

use cases::{ANSWERED, Answered, Hex, SILENT, chained, end_line};
use module::Module;
use std::io;

// What a filling is given: the height, the lengths of seed and table, and the tally at which it begins.
#[derive(Clone, Copy, Debug, PartialEq, Eq)]
pub(crate) struct Filling {
    pub(crate) h: u64,
    pub(crate) seed: usize,
    pub(crate) table: usize,
    pub(crate) first: u64,
}

// That of a tree of height 2, with nothing wrong.
pub(crate) const FILLING: Filling = Filling {
    h: 2,
    seed: 32,
    table: 480,
    first: ANSWERED,
};

// The line of two fillings one after the other, the second from the seed and the tally that the first left.
pub(crate) fn fill_from(rt: &impl Print, given: Filling) -> io::Result<()>
    requires { (given.seed ≤ 32768) × (given.table ≤ 32768) }
{
    let Filling {
        h,
        seed: own,
        table: size,
        first,
    } = given;
    print!(rt; "fill {h} {own} {size} {first}")?;
    let mut seed = [9; 32768];
    let mut table = [9; 32768];
    let mut tally = first;
    for _ in 0..2 {
        show_filled(rt, h, &mut seed[..own], &mut table[..size], &mut tally)?;
    }
    end_line(rt)
}

fn show_filled(
    rt: &impl Print,
    h: u64,
    seed: &mut [u8],
    table: &mut [u8],
    tally: &mut u64,
) -> io::Result<()> {
    let answer = Answered(plain::fill::<Module>(h, seed, table, tally));
    print!(rt;
        " {answer} {tally} {} {}",
        Hex(chained(seed)),
        Hex(chained(table))
    )
}

// A filled table, in its room.
pub(crate) fn filled(h: u64, size: usize) -> [u8; 32768]
    requires { size ≤ 32768 }
{
    let mut table = [9; 32768];
    let mut seed = [9; 32];
    let mut tally = ANSWERED;
    let _ = plain::fill::<Module>(h, &mut seed, &mut table[..size], &mut tally);
    table
}

// The right one or the wrong one, as the lowest bit of a mix says.
pub(crate) fn either(mix: usize, right: usize, wrong: usize) -> usize
    requires { (right ≤ 32768) × (wrong ≤ 32768) }
    ensures { result ≤ 32768 }
{
    if mix % 2 == 0 {
        return right;
    }
    wrong
}

// Every mix of a wrong height, seed and table.
pub(crate) fn fills(rt: &impl Print) -> io::Result<()> {
    for mix in 0..8 {
        let h = either(mix, 2, 9) as u64;
        let seed = either(mix / 2, 32, 31);
        let table = either(mix / 4, 480, 479);
        fill_from(
            rt,
            Filling {
                h,
                seed,
                table,
                ..FILLING
            },
        )?;
    }
    Ok(())
}

// The wrong lengths on the other side, and heights that a narrower number would let through, or whose size would wrap.
pub(crate) fn other_fills(rt: &impl Print) -> io::Result<()> {
    fill_from(
        rt,
        Filling {
            seed: 33,
            ..FILLING
        },
    )?;
    fill_from(
        rt,
        Filling {
            table: 481,
            ..FILLING
        },
    )?;
    fill_from(
        rt,
        Filling {
            table: 0,
            ..FILLING
        },
    )?;
    fill_from(rt, Filling { h: 258, ..FILLING })?;
    fill_from(
        rt,
        Filling {
            h: 4294967298,
            ..FILLING
        },
    )?;
    fill_from(
        rt,
        Filling {
            h: 57,
            table: 0,
            ..FILLING
        },
    )?;
    fill_from(
        rt,
        Filling {
            h: u64::MAX,
            ..FILLING
        },
    )
}

// Each call of filling fails in its turn, and at last none.
pub(crate) fn silent_fills(rt: &impl Print) -> io::Result<()> {
    for before in 0..5 {
        fill_from(
            rt,
            Filling {
                first: SILENT - before,
                ..FILLING
            },
        )?;
    }
    Ok(())
}

// Tallies near 0, 2^32 and 2^64; the last is silent at 100, after the tally has begun anew.
pub(crate) fn edges_of_tally(rt: &impl Print) -> io::Result<()> {
    fill_from(
        rt,
        Filling {
            first: 97,
            ..FILLING
        },
    )?;
    fill_from(
        rt,
        Filling {
            first: 4294967293,
            ..FILLING
        },
    )?;
    fill_from(
        rt,
        Filling {
            first: u64::MAX - 2,
            ..FILLING
        },
    )?;
    fill_from(
        rt,
        Filling {
            h: 8,
            table: 32736,
            first: u64::MAX - 200,
            ..FILLING
        },
    )
}
