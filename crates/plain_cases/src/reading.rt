// Reading: what root, path and signature answer, and what they leave in their outputs.
ghost use Rattle.std.specs.Prelude.{◌≡◌, ◌≤◌, length};

use crate::filling::either;
use cases::{ANSWERED, Answered, Hex, SILENT, chained, end_line};
use module::Module;
use refusal::Refusal;
use std::io;

// What a reading is given: height and leaf, how much of the table, the lengths of the three outputs and of the message, and the tally at which it begins.
#[derive(Clone, Copy, Debug, PartialEq, Eq)]
pub(crate) struct Reading {
    pub(crate) h: u64,
    pub(crate) leaf: u64,
    pub(crate) table: usize,
    pub(crate) root: usize,
    pub(crate) path: usize,
    pub(crate) message: usize,
    pub(crate) sum: usize,
    pub(crate) first: u64,
}

// That of leaf 1 of a tree of height 2, with nothing wrong.
pub(crate) const READING: Reading = Reading {
    h: 2,
    leaf: 1,
    table: 480,
    root: 32,
    path: 64,
    message: 6,
    sum: 160,
    first: ANSWERED,
};

// The line of root, path and signature, all read from one table.
fn read_at(rt: &impl Print, given: Reading, table: &[u8]) -> io::Result<()>
    requires { (given.table ≤ 32768) × (given.root ≤ 32768) × (given.path ≤ 32768) × (given.message ≤ 32768) × (given.sum ≤ 32768)
        × (length table.now ≡ 32768) }
{
    let Reading {
        h,
        leaf,
        table: lent,
        message: len,
        ..
    } = given;
    print!(rt; "read {h} {leaf} {lent} {len}")?;
    let table = &table[..lent];
    let mut root = [9; 32768];
    let mut path = [9; 32768];
    show_read(
        rt,
        plain::root(h, table, &mut root[..given.root]),
        &root[..given.root],
    )?;
    show_read(
        rt,
        plain::path(h, table, leaf, &mut path[..given.path]),
        &path[..given.path],
    )?;
    show_signed(rt, given, table)?;
    end_line(rt)
}

fn show_read(rt: &impl Print, answer: Result<(), Refusal>, out: &[u8]) -> io::Result<()> {
    print!(rt; " {} {}", Answered(answer), Hex(chained(out)))
}

// The signature over so many nines, with the tally left.
fn show_signed(rt: &impl Print, given: Reading, table: &[u8]) -> io::Result<()>
    requires { (given.message ≤ 32768) × (given.sum ≤ 32768) }
{
    let message = [9; 32768];
    let mut room = [9; 32768];
    let out = &mut room[..given.sum];
    let mut tally = given.first;
    let answer = plain::sign::<Module>(
        given.h,
        table,
        given.leaf,
        &message[..given.message],
        out,
        &mut tally,
    );
    print!(rt; " {} {tally} {}", Answered(answer), Hex(chained(out)))
}

// Every so many leaves of a tree, of which the first is given.
pub(crate) fn leaves(
    rt: &impl Print,
    given: Reading,
    count: u64,
    stride: usize,
    table: &[u8],
) -> io::Result<()>
    requires { (1 ≤ stride) × (stride ≤ 256) × (count ≤ 256) × (given.table ≤ 32768) × (given.root ≤ 32768) × (given.path ≤ 32768)
        × (given.message ≤ 32768) × (given.sum ≤ 32768) × (length table.now ≡ 32768) }
{
    for leaf in (0..count).step_by(stride) {
        read_at(rt, Reading { leaf, ..given }, table)?;
    }
    Ok(())
}

// Every mix of a wrong height, table, output, message and leaf.
pub(crate) fn reads(rt: &impl Print, table: &[u8]) -> io::Result<()>
    requires { length table.now ≡ 32768 }
{
    for mix in 0..32 {
        let given = Reading {
            h: either(mix, 2, 9) as u64,
            leaf: either(mix / 16, 3, 4) as u64,
            table: either(mix / 2, 480, 479),
            root: either(mix / 4, 32, 33),
            path: either(mix / 4, 64, 65),
            message: either(mix / 8, 4096, 4097),
            sum: either(mix / 4, 160, 161),
            ..READING
        };
        read_at(rt, given, table)?;
    }
    Ok(())
}

// The wrong lengths on the other side, an empty message, and leaves and heights that a narrower number would not tell from those that are there.
pub(crate) fn other_reads(rt: &impl Print, table: &[u8]) -> io::Result<()>
    requires { length table.now ≡ 32768 }
{
    read_at(
        rt,
        Reading {
            table: 481,
            ..READING
        },
        table,
    )?;
    read_at(
        rt,
        Reading {
            table: 0,
            ..READING
        },
        table,
    )?;
    read_at(
        rt,
        Reading {
            root: 31,
            path: 63,
            sum: 159,
            ..READING
        },
        table,
    )?;
    read_at(
        rt,
        Reading {
            message: 0,
            ..READING
        },
        table,
    )?;
    read_at(
        rt,
        Reading {
            leaf: 257,
            ..READING
        },
        table,
    )?;
    read_at(
        rt,
        Reading {
            leaf: 4294967297,
            ..READING
        },
        table,
    )?;
    read_at(
        rt,
        Reading {
            leaf: u64::MAX,
            ..READING
        },
        table,
    )?;
    read_at(rt, Reading { h: 258, ..READING }, table)?;
    read_at(
        rt,
        Reading {
            h: 4294967298,
            ..READING
        },
        table,
    )?;
    read_at(rt, Reading { h: 8, ..READING }, table)
}

// Signing at the silent tally, before it, and where the tally begins anew.
pub(crate) fn silent_signs(rt: &impl Print, table: &[u8]) -> io::Result<()>
    requires { length table.now ≡ 32768 }
{
    for first in [SILENT, SILENT - 1, u64::MAX] {
        read_at(
            rt,
            Reading {
                leaf: 2,
                first,
                ..READING
            },
            table,
        )?;
    }
    Ok(())
}
