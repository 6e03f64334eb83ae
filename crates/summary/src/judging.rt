// Whether a card, a line and the entries held are in range and order.
ghost use Rattle.std.specs.Prelude.{◌≡◌};
ghost use Rattle.std.specs.List.{list_all};
ghost use Rattle.summary.specs.Entries.{card_fits, line_fits, entry_fits, rising};

use crate::{CardEntry, LAST_CARD, MOST_CENTS};

pub fn card_fits(card: u64) -> bool
    ensures { result ≡ card_fits card }
{
    card <= LAST_CARD
}

#[tactic(auto, unfolding(crate::specs::Entries::line_fits))]
pub fn line_fits(card: u64, cents: u64) -> bool
    ensures { result ≡ line_fits card cents }
{
    card_fits(card) && 1 <= cents && cents <= MOST_CENTS
}

fn all_fit(entries: &[CardEntry]) -> bool
    ensures { result ≡ list_all entry_fits entries.now }
{
    entries.iter().all(|e| e.fits())
}

// Whether entries are in range, and their cards in strictly rising order.
pub fn rises(entries: &[CardEntry]) -> bool
    ensures { result ≡ rising 0 entries.now }
{
    all_fit(entries) && entries.is_sorted_by(|a, b| a.card < b.card)
}
