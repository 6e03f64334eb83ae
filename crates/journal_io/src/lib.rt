// A top-up journal from a reader, and what each of its lines is worth to a writer.
#![tactic(auto)]

ghost use Rattle.std.specs.Prelude.{◌≡◌, ◌≤◌, ◌<◌, ℕ, List, length, IfSome, OnOk};
ghost use Rattle.std.specs.Io.KnownBytes.{Appends, Consumes};
ghost use Rattle.verdicts.specs.Output.{journal_output};

use ed25519::Verifier;
use judging::Order;
use ledger::Stream;
use std::io;
use std::io::{Error, ErrorKind, Read, Write};

// Reads a piece, takes its turn, writes what the turn says, until it was the last. A read that fails is not the end of the input: no total is written.
// Where writing fails it stops. Each program keeps a loop like this: as a trait's method a turn would need a struct of all buffers, longer than the loop.
fn run<R: Read, W: Write, E: Verifier>(
    from: &mut R,
    to: &mut W,
    line: &mut [u8],
    piece: &mut [u8],
    out: &mut [u8],
) -> io::Result<()>
    requires { (length line.old ≡ 2048) × (length piece.old ≤ 2048) × (length out.old ≡ 65536) }
    ensures whole { OnOk result (0 < length piece.old → IfSome (R.remaining from.old) (λ xs. Appends (W.contents to.old) (W.contents to.new) (journal_output E.scheme xs))) }
    ensures left { (bs : List ℕ) × Consumes (R.remaining from.old) (R.remaining from.new) bs }
{
    let mut stream = Stream::new(Order::Strict);
    for _ in 0..u64::MAX {
        let got = from.read(piece)?;
        let turned = verdicts::turn::<E>(&mut stream, &piece[..got], line, out);
        to.write_all(&out[..turned.at])?;
        if turned.over {
            return Ok(());
        }
    }
    Err(Error::from(ErrorKind::TimedOut))
}

// Judges the journal of a reader onto a writer, reading at most size bytes at a time.
// After an error no clause speaks of what was written, since std says nothing of it then.
pub fn judge<R: Read, W: Write, E: Verifier>(
    from: &mut R,
    to: &mut W,
    size: usize,
) -> io::Result<()>
    requires { (0 < size) × (size ≤ 2048) }
    ensures whole { OnOk result (IfSome (R.remaining from.old) (λ xs. Appends (W.contents to.old) (W.contents to.new) (journal_output E.scheme xs))) }
    ensures left { (bs : List ℕ) × Consumes (R.remaining from.old) (R.remaining from.new) bs }
{
    let mut line = [0; 4096];
    let mut piece = [0; 4096];
    let mut out = [0; 65536];
    run::<_, _, E>(from, to, &mut line[..2048], &mut piece[..size], &mut out)
}
