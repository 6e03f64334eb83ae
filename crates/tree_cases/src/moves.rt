// The line of all moves of a height, and of one move of the highest tree.
ghost use Rattle.std.specs.Prelude.{◌^◌, ◌<◌, ◌≤◌};

use crate::trees::{grown, move_tree, tree_size};
use cases::{Hex, digest};
use std::io;

// Many moves as one value: the digests of the moved trees, each hashed onto those before it, and the sum of the counts, which wraps so that no
// bound is asked of them.
#[derive(Clone, Copy, Debug, PartialEq, Eq)]
struct Folded {
    chain: [u8; 32],
    count: usize,
}

impl Folded {
    // Takes in the tree at step a, moved to step b.
    fn take(&mut self, h: usize, a: usize, b: usize)
        requires { (h ≤ 12) × (a < b) × (b < 2 ^ h) }
    {
        let mut room = grown(h, a);
        let bytes = &mut room[..tree_size(h)];
        let count = move_tree(bytes, h, a, b);
        self.count = self.count.wrapping_add(count);
        self.chain = blake2b::hash_32_32(self.chain, digest(bytes));
    }
}

// The line of a height: all its moves.
pub fn show_moves(rt: &impl Print, h: usize) -> io::Result<()>
    requires { h ≤ 12 }
{
    let end = tree::leaves(h);
    let mut all = Folded {
        chain: [0; 32],
        count: 0,
    };
    for a in 0..end {
        for b in a + 1..end {
            all.take(h, a, b);
        }
    }
    println!(rt; "moves {h} {} {}", Hex(all.chain), all.count)
}

// The line of height 12: the tree at step 0 moved to step 2,049, its digest, its root, the count.
pub fn show_tallest(rt: &impl Print) -> io::Result<()> {
    let mut bytes = grown(12, 0);
    let count = move_tree(&mut bytes, 12, 0, 2049);
    let root = tree::root(&bytes, 12);
    println!(rt;
        "tallest 2049 {} {} {count}",
        Hex(digest(&bytes)),
        Hex(root)
    )
}
