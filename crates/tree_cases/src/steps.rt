// The line of each step of a height.
ghost use Rattle.std.specs.Prelude.{◌≡◌, ◌^◌, ◌<◌, ◌≤◌, length};
ghost use Rattle.tree.specs.Sum.{sum_size};

use crate::trees::{grown, signed, sum_size, tree_size};
use cases::{Hex, digest};
use module::Module;
use std::io;

pub fn show_steps(rt: &impl Print, h: usize) -> io::Result<()>
    requires { h ≤ 12 }
{
    for t in 0..tree::leaves(h) {
        show_step(rt, h, t)?;
    }
    Ok(())
}

// The line of a step: the tree's digest, its root, the digest of a signature, verdicts.
fn show_step(rt: &impl Print, h: usize, t: usize) -> io::Result<()>
    requires { (h ≤ 12) × (t < 2 ^ h) }
{
    let room = grown(h, t);
    let bytes = &room[..tree_size(h)];
    let root = tree::root(bytes, h);
    let mut sum_room = signed(bytes, h, t, b"step");
    let signature = &mut sum_room[..sum_size(h)];
    print!(rt;
        "step {h} {t} {} {} {} ",
        Hex(digest(bytes)),
        Hex(root),
        Hex(digest(signature))
    )?;
    show_verdicts(rt, root, h, t, signature)?;
    show_flipped(rt, root, h, t, signature)?;
    println!(rt; "")
}

// The verdicts on the signature as it is, over another message, and at the next step (after the last one the first; at height 0 the same one).
fn show_verdicts(
    rt: &impl Print,
    root: [u8; 32],
    h: usize,
    t: usize,
    signature: &[u8],
) -> io::Result<()>
    requires { (h ≤ 12) × (t < 2 ^ h) × (length signature.now ≡ sum_size h) }
{
    let next = (t + 1) % tree::leaves(h);
    show_verdict(
        rt,
        tree::sum_verify::<Module>(root, h, t, b"step", signature),
    )?;
    show_verdict(
        rt,
        tree::sum_verify::<Module>(root, h, t, b"stop", signature),
    )?;
    show_verdict(
        rt,
        tree::sum_verify::<Module>(root, h, next, b"step", signature),
    )
}

// A verdict for each 32 bytes of the signature, with the lowest bit of the first of them changed.
fn show_flipped(
    rt: &impl Print,
    root: [u8; 32],
    h: usize,
    t: usize,
    signature: &mut [u8],
) -> io::Result<()>
    requires { (h ≤ 12) × (t < 2 ^ h) × (length signature.old ≡ sum_size h) }
{
    for at in (0..signature.len()).step_by(32) {
        signature[at] ^= 1;
        show_verdict(
            rt,
            tree::sum_verify::<Module>(root, h, t, b"step", signature),
        )?;
        signature[at] ^= 1;
    }
    Ok(())
}

fn show_verdict(rt: &impl Print, accepted: bool) -> io::Result<()> {
    print!(rt; "{}", u8::from(accepted))
}
