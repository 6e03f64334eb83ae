// Why a call of the library refuses.
#![tactic(auto)]

ghost use Rattle.std.specs.Prelude.{◌≡◌};
ghost use Rattle.refusal.specs.Numbers.{number_of};

#[derive(Clone, Copy, Debug, PartialEq, Eq)]
pub enum Refusal {
    Height,
    SeedOrKey,
    Table,
    Length,
    NotLater,
    PastEnd,
    TooLong,
    Entries,
    Unanswered,
    Window,
    Lowered,
    NotReleased,
    Full,
    CardOrAmount,
    CountFull,
}

// The number that a caller in C gets.
impl From<Refusal> for u32 {
    ghost from_gives = { λ why n. n ≡ number_of why };

    fn from(why: Refusal) -> u32 {
        match why {
            Refusal::Height => 1,
            Refusal::SeedOrKey => 2,
            Refusal::Table => 3,
            Refusal::Length => 4,
            Refusal::NotLater => 5,
            Refusal::PastEnd => 6,
            Refusal::TooLong => 7,
            Refusal::Entries => 8,
            Refusal::Unanswered => 9,
            Refusal::Window => 10,
            Refusal::Lowered => 11,
            Refusal::NotReleased => 12,
            Refusal::Full => 13,
            Refusal::CardOrAmount => 14,
            Refusal::CountFull => 15,
        }
    }
}
