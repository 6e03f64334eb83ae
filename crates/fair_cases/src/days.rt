// Days: moves step by step with a sale at each, and pairs of moves.
ghost use Rattle.std.specs.Prelude.{◌<◌, ◌≤◌};

use crate::caches::show_signed;
use crate::making::{MAKING, Rooms, made, making_of, show_made};
use cases::{chained, end_line, show_answer, show_field, show_verdict};
use module::Module;
use std::io;

// A signature, and the verdicts at this step, at the next, and over another message.
fn show_sale(rt: &impl Print, n: u64, t: u64, cache: &[u8], key: &[u8]) -> io::Result<()> {
    let mut signature = [9; 160];
    show_signed(rt, cache, b"top-up", &mut signature)?;
    let judge = |step: u64, message: &[u8]| fair::verify::<Module>(
        n, key, step, message, &signature,
    );
    show_verdict(rt, judge(t, b"top-up"))?;
    show_verdict(rt, judge(t.wrapping_add(1), b"top-up"))?;
    show_verdict(rt, judge(t, b"refund"))
}

// The line of a step: a move to it, a second one and one past the end, which are refused, then the cache and a sale.
fn step(rt: &impl Print, n: u64, t: u64, cache: &mut [u8], key: &[u8]) -> io::Result<()> {
    print!(rt; "step {t}")?;
    for to in [t, t, n] {
        show_answer(rt, fair::move_to(cache, to))?;
    }
    show_field(rt, chained(cache))?;
    show_sale(rt, n, t, cache, key)?;
    end_line(rt)
}

// The line of a made cache, and every so many steps of its day.
pub(crate) fn day(rt: &impl Print, n: u64, stride: usize) -> io::Result<()>
    requires { (0 < stride) × (stride ≤ 256) × (n ≤ 256) }
{
    let given = making_of(n);
    print!(rt; "made {n}")?;
    let Rooms { mut cache, key, .. } = show_made(rt, given)?;
    let cache = &mut cache[..usize::from(given.cache)];
    let key = &key[..usize::from(given.key)];
    for t in (0..n).step_by(stride) {
        step(rt, n, t, cache, key)?;
    }
    Ok(())
}

// The line of two moves of a fresh cache, either of which may be refused.
fn two_moves(rt: &impl Print, a: u64, b: u64) -> io::Result<()> {
    print!(rt; "moves {a} {b}")?;
    let Rooms { mut cache, .. } = made();
    let cache = &mut cache[..usize::from(MAKING.cache)];
    show_answer(rt, fair::move_to(cache, a))?;
    show_answer(rt, fair::move_to(cache, b))?;
    show_field(rt, chained(cache))?;
    end_line(rt)
}

pub(crate) fn all_moves(rt: &impl Print) -> io::Result<()> {
    for a in 0..4 {
        for b in 0..4 {
            two_moves(rt, a, b)?;
        }
    }
    Ok(())
}
