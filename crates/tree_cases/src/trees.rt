// Trees whose module calls are all answered.
ghost use Rattle.std.specs.Prelude.{◌≡◌, ◌^◌, ◌<◌, ◌≤◌, length};
ghost use Rattle.tree.specs.Tree.{tree_size};
ghost use Rattle.tree.specs.Sum.{sum_size};

use cases::{ANSWERED, SEED};
use module::Module;

// The bytes of a tree of height 12. A lower one lies at the front, and so does a signature.
pub type Room = [u8; 1216];

pub fn tree_size(h: usize) -> usize
    requires { h ≤ 12 }
    ensures { (result ≡ tree_size h) × (result ≤ 1216) }
{
    96 * h + 64
}

pub fn sum_size(h: usize) -> usize
    requires { h ≤ 12 }
    ensures { (result ≡ sum_size h) × (result ≤ 1216) }
{
    96 + 32 * h
}

// The tree at step t.
pub fn grown(h: usize, t: usize) -> Room
    requires { (h ≤ 12) × (t < 2 ^ h) }
    ensures { 1216 ≡ length result }
{
    let mut room = [0; 1216];
    let mut tally = ANSWERED;
    let _ = tree::grow::<Module>(SEED, h, t, &mut room[..tree_size(h)], &mut tally);
    room
}

// Moves a tree, and answers the count.
pub fn move_tree(bytes: &mut [u8], h: usize, a: usize, b: usize) -> usize
    requires { (h ≤ 12) × (a < b) × (b < 2 ^ h) × (length bytes.old ≡ tree_size h) }
    ensures { length bytes.new ≡ tree_size h }
{
    let mut tally = ANSWERED;
    tree::move_tree::<Module>(bytes, h, a, b, &mut tally).unwrap_or(0)
}

// The sum signature at step t.
pub fn signed(bytes: &[u8], h: usize, t: usize, message: &[u8]) -> Room
    requires { (h ≤ 12) × (t < 2 ^ h) × (tree_size h ≤ length bytes.now) }
    ensures { 1216 ≡ length result }
{
    let mut room = [0; 1216];
    let mut tally = ANSWERED;
    let _ = tree::sum_sign::<Module>(bytes, h, t, message, &mut room[..sum_size(h)], &mut tally);
    room
}
