// Each of the calls of growing a tree of height 2 fails in its turn, and at last none; then those of the move, and of the signature.
use crate::trees::{grown, signed, sum_size, tree_size};
use cases::{Hex, SEED, digest, each_silence};
use module::Module;
use std::io;

pub fn show_silences(rt: &impl Print) -> io::Result<()> {
    each_silence(5, |first| grow_from(rt, first))?;
    each_silence(3, |first| move_from(rt, first))?;
    each_silence(2, |first| sign_from(rt, first))
}

// The line of a tree grown at step 1 from this tally on, over the one at step 3.
fn grow_from(rt: &impl Print, first: u64) -> io::Result<()> {
    let mut room = grown(2, 3);
    let bytes = &mut room[..tree_size(2)];
    let mut tally = first;
    let given = tree::grow::<Module>(SEED, 2, 1, bytes, &mut tally).is_ok();
    show_try(rt, "grow", first, given, tally, bytes)
}

// The line of a move from step 0 to step 3, from this tally on.
fn move_from(rt: &impl Print, first: u64) -> io::Result<()> {
    let mut room = grown(2, 0);
    let bytes = &mut room[..tree_size(2)];
    let mut tally = first;
    let given = tree::move_tree::<Module>(bytes, 2, 0, 3, &mut tally).is_ok();
    show_try(rt, "move", first, given, tally, bytes)
}

// The line of a signature at step 0, from this tally on, over that of another message.
fn sign_from(rt: &impl Print, first: u64) -> io::Result<()> {
    let bytes = grown(2, 0);
    let mut room = signed(&bytes, 2, 0, b"stop");
    let signature = &mut room[..sum_size(2)];
    let mut tally = first;
    let given = tree::sum_sign::<Module>(&bytes, 2, 0, b"step", signature, &mut tally).is_ok();
    show_try(rt, "sign", first, given, tally, signature)
}

// A line: what was tried, the tally at entry, whether all was answered, the tally left, and the digest of what was lent.
fn show_try(
    rt: &impl Print,
    tried: &str,
    first: u64,
    given: bool,
    tally: u64,
    bytes: &[u8],
) -> io::Result<()> {
    println!(rt;
        "{tried} {first} {} {tally} {}",
        u8::from(given),
        Hex(digest(bytes))
    )
}
