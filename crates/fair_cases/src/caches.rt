// Caches, sound ones and others: what signs and moves them, and signing that goes unanswered.
ghost use Rattle.std.specs.Prelude.{◌≤◌};

use crate::making::{MAKING, made};
use cases::{ANSWERED, Answered, Hex, chained, end_line, show_answer, show_field};
use module::Module;
use std::io;

pub(crate) fn show_signed(
    rt: &impl Print,
    cache: &[u8],
    message: &[u8],
    signature: &mut [u8],
) -> io::Result<()> {
    let mut tally = ANSWERED;
    show_answer(
        rt,
        fair::sign::<Module>(cache, message, signature, &mut tally),
    )?;
    show_field(rt, chained(signature))
}

// What signing so many bytes answers, and the output that it leaves.
fn sign_at(rt: &impl Print, cache: &[u8], len: usize, out: usize) -> io::Result<()>
    requires { (len ≤ 4097) × (out ≤ 161) }
{
    let message = [9; 4097];
    let mut signature = [9; 161];
    show_signed(rt, cache, &message[..len], &mut signature[..out])
}

// Every mix of a message and an output that are refused, at this cache.
fn signs(rt: &impl Print, cache: &[u8]) -> io::Result<()> {
    sign_at(rt, cache, 4096, 160)?;
    sign_at(rt, cache, 4097, 160)?;
    sign_at(rt, cache, 4096, 159)?;
    sign_at(rt, cache, 4097, 159)?;
    sign_at(rt, cache, 0, 161)
}

// Steps that are early or past the end, some by what a narrower number would not show, and at last one that a sound cache moves to.
fn moves(rt: &impl Print, cache: &mut [u8]) -> io::Result<()> {
    for to in [0, 1, 3, 258, 65538, 4294967298, u64::MAX] {
        show_answer(rt, fair::move_to(cache, to))?;
    }
    show_field(rt, chained(cache))?;
    show_answer(rt, fair::move_to(cache, 2))?;
    show_field(rt, chained(cache))
}

// The line of a fresh cache under a header that says this, of which so many bytes are lent. At step 1 its entry 0 still stands.
fn cache_of(rt: &impl Print, n: u16, step: u16, size: u16) -> io::Result<()> {
    print!(rt; "cache {n} {step} {size}")?;
    let mut rooms = made();
    rooms.cache[..2].copy_from_slice(&n.to_le_bytes());
    rooms.cache[2..4].copy_from_slice(&step.to_le_bytes());
    let cache = &mut rooms.cache[..usize::from(size)];
    signs(rt, cache)?;
    moves(rt, cache)?;
    end_line(rt)
}

// A sound cache, then those whose length is not exact.
pub(crate) fn cut_caches(rt: &impl Print) -> io::Result<()> {
    cache_of(rt, 3, 1, 388)?;
    cache_of(rt, 3, 1, 387)?;
    cache_of(rt, 3, 1, 389)?;
    cache_of(rt, 3, 1, 0)?;
    cache_of(rt, 3, 1, 3)
}

// N outside 1 to 256, and a step at or past N.
pub(crate) fn bad_headers(rt: &impl Print) -> io::Result<()> {
    cache_of(rt, 0, 0, 4)?;
    cache_of(rt, 257, 1, 32900)?;
    cache_of(rt, 259, 1, 388)?;
    cache_of(rt, 3, 3, 388)?;
    cache_of(rt, 3, 257, 388)
}

// The line of a signature from this tally on, and once more with the tally left.
pub(crate) fn sign_from(rt: &impl Print, first: u64) -> io::Result<()> {
    print!(rt; "unsigned {first}")?;
    let rooms = made();
    let mut signature = [9; 160];
    let mut tally = first;
    for _ in 0..2 {
        let answer = fair::sign::<Module>(
            &rooms.cache[..usize::from(MAKING.cache)],
            b"top-up",
            &mut signature,
            &mut tally,
        );
        print!(rt;
            " {} {tally} {}",
            Answered(answer),
            Hex(chained(&signature))
        )?;
    }
    end_line(rt)
}
