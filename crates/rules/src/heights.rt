// The heights of a key's trees.
ghost use Rattle.std.specs.Prelude.{◌≡◌, ◌-◌, ◌≤◌, ◌++◌, All, List, ℕ, take, drop, length, replicate};
ghost use Rattle.rules.specs.Trees.{Heights, OfKey, key_heights, top_of, below_of, max_height, too_high};
ghost use Rattle.std.proofs.Common.{arith, length-take-le, take-append-drop};

use std::marker::Model;

pub const MAX_HEIGHT: usize = 12;

// The limit of three trees.
pub const MAX_HEIGHT_3: usize = 8;

// The heights of two trees or three, from the top, none too high.
#[derive(Clone, Copy)]
pub struct Heights {
    all: [usize; 3],
    trees: usize,
}

impl Model for Heights {
    ghost Value = { List ℕ };

    ghost view = { λ s. take s.trees s.all };

    // Zeros follow the heights, so that the list alone gives the fields back, as Copy asks.
    ghost invariant = { λ s. (s.trees ≤ 3) × OfKey (take s.trees s.all) × (length s.all ≡ 3)
        × (drop s.trees s.all ≡ replicate (3 - s.trees) 0) };

    ghost inverse = { λ x. record { all = x ++ replicate (3 - length x) 0; trees = length x } };

    ghost inverse_ok = { λ s h.
        let e : length (take s.trees s.all) ≡ s.trees = length-take-le s.trees s.all (omega (arith, h.0, h.2)) in
        let a : take s.trees s.all ++ replicate (3 - length (take s.trees s.all)) 0 ≡ s.all = rw (e, ← h.3) (take-append-drop s.trees s.all) in
        λ i. record { all = a i; trees = e i } };
}

impl Heights {
    // None where they are the heights of no key.
    pub fn new(heights: &[usize]) -> Option<Heights>
        ensures { result ≡ key_heights heights.now }
    {
        let trees = heights.len();
        if trees != 2 && trees != 3 || too_high(heights) {
            return None;
        }
        let mut all = [0; 3];
        all[..trees].copy_from_slice(heights);
        Some(Heights { all, trees })
    }

    pub fn top(&self) -> usize
        ensures top { result ≡ top_of self.now }
        ensures low { result ≤ max_height }
    {
        self.all[0]
    }

    pub fn below(&self) -> &[usize]
        ensures below { result.now ≡ below_of self.now }
        ensures few { length result.now ≤ 2 }
        ensures low { All (λ h. h ≤ max_height) result.now }
        ensures key { OfKey self.now }
    {
        &self.all[1..self.trees]
    }
}

fn too_high(heights: &[usize]) -> bool
    ensures { result ≡ too_high heights.now }
{
    let limit = if heights.len() == 3 {
        MAX_HEIGHT_3
    } else {
        MAX_HEIGHT
    };
    heights.iter().any(|h| limit < *h)
}
