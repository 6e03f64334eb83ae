// One loop for every reader of journals.
ghost use Rattle.std.specs.Prelude.{◌≡◌, fold, length, take};
ghost use Rattle.ledger.specs.Meeting.{Met};
ghost use Rattle.ledger.specs.Passing.{met_after};
ghost use Rattle.ledger.specs.Inside.{Ready, met_by, TakesBytes};
ghost use Rattle.ledger.specs.Reading.{CanMeet};

use crate::{Event, Stream};
use ed25519::Verifier;

// A reader of what was met: what a line makes of it, and whether it can take the line. Where no line was met it is told nothing.
pub trait Reader {
    ghost after: { Self → Met → Self };

    ghost can_meet: { Self → Met → Type 0 };

    fn meet(&mut self, event: Event, line: &[u8])
        requires told { event ≡ Event.NoLine → ⊥ }
        requires can { CanMeet can_meet after self.old (met_by event line.now) }
        ensures { self.new ≡ fold after self.old (met_by event line.now) };
}

// Takes a piece of the input; line is the buffer of the present line.
pub fn feed<E: Verifier, R: Reader>(
    stream: &mut Stream,
    reader: &mut R,
    piece: &[u8],
    line: &mut [u8],
)
    requires { Ready E.scheme stream.old line.old × CanMeet R.can_meet R.after reader.old (met_after E.scheme stream.old (take stream.old.size line.old) piece.now) }
    ensures takes { TakesBytes E.scheme stream.old line.old piece.now stream.new line.new }
    ensures meets { reader.new ≡ fold R.after reader.old (met_after E.scheme stream.old (take stream.old.size line.old) piece.now) }
{
    let mut i = 0;
    while i < piece.len() {
        let step = stream.step::<E>(piece, i, line);
        match step.event {
            Event::NoLine => {}
            event => reader.meet(event, &line[..step.size]),
        }
        i = step.next;
    }
}
