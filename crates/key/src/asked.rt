// The heights of a key's trees, as a caller gives them.
ghost use Rattle.std.specs.Prelude.{◌≡◌, Ok, Err};
ghost use Rattle.fields.specs.Tests.{pick};
ghost use Rattle.refusal.specs.declared.Refusal.TheVariants.{Height};
ghost use Rattle.rules.specs.Trees.{too_high};
ghost use Rattle.key.specs.Asked.{heights_of};

use refusal::Refusal;
use rules::Heights;

#[derive(Clone, Copy, Debug, PartialEq, Eq)]
pub enum Asked {
    Two(u64, u64),
    Three(u64, u64, u64),
}

impl TryFrom<Asked> for Heights {
    type Error = Refusal;

    ghost try_from_gives = { λ asked r. r ≡ pick (too_high (heights_of asked)) (Err Height) (Ok (heights_of asked)) };

    fn try_from(asked: Asked) -> Result<Heights, Refusal> {
        let heights = match asked {
            Asked::Two(h1, h2) => Heights::new(&[h1 as usize, h2 as usize]),
            Asked::Three(h1, h2, h3) => Heights::new(&[h1 as usize, h2 as usize, h3 as usize]),
        };
        heights.ok_or(Refusal::Height)
    }
}
