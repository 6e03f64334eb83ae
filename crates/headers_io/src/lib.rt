// A journal from a reader to a writer, a two-field header of it in full.
#![tactic(auto)]

ghost use Rattle.std.specs.Prelude.{◌≤◌, ◌<◌, ◌≡◌, ℕ, List, length, take, IfOk, OnOk, IfSome};
ghost use Rattle.std.specs.Io.KnownBytes.{Appends, Consumes, IsAtEnd};
ghost use Rattle.headers.specs.InFull.{in_full};

use std::io;
use std::io::{Error, ErrorKind, Read, Write};

// So many bytes decide what becomes of line 1.
const FRONT: usize = 2048;

// Reads the front of the input, all of it where it has fewer bytes; an error where a read fails, since half a line 1 decides nothing.
// Each read says how far it came, so the loop counts by hand.
fn read_front<R: Read>(from: &mut R, piece: &mut [u8], front: &mut [u8]) -> io::Result<usize>
    requires { (length piece.old ≤ 2048) × (length front.old ≡ 4096) }
    ensures fits { IfOk result (λ n. n ≤ 4096) }
    ensures room { length front.new ≡ 4096 }
    ensures reads { IfOk result (λ n. Consumes (R.remaining from.old) (R.remaining from.new) (take n front.new)) }
    ensures ends { IfOk result (λ n. n < 2048 → 0 < length piece.old → IsAtEnd (R.remaining from.new)) }
    ensures left { (bs : List ℕ) × Consumes (R.remaining from.old) (R.remaining from.new) bs }
{
    let mut n: usize = 0;
    while n < FRONT {
        let got = from.read(piece)?;
        if got == 0 {
            return Ok(n);
        }
        n = text::put(front, n, &piece[..got]);
    }
    Ok(n)
}

// Copies what is left of the input; a read or a write that fails ends it.
fn copy_rest<R: Read, W: Write>(from: &mut R, to: &mut W, piece: &mut [u8]) -> io::Result<()>
    ensures whole { OnOk result (0 < length piece.old → IfSome (R.remaining from.old) (λ xs. Appends (W.contents to.old) (W.contents to.new) xs)) }
    ensures left { (bs : List ℕ) × Consumes (R.remaining from.old) (R.remaining from.new) bs }
{
    for _ in 0..u64::MAX {
        let got = from.read(piece)?;
        if got == 0 {
            return Ok(());
        }
        to.write_all(&piece[..got])?;
    }
    Err(Error::from(ErrorKind::TimedOut))
}

fn run<R: Read, W: Write>(
    from: &mut R,
    to: &mut W,
    piece: &mut [u8],
    front: &mut [u8],
    out: &mut [u8],
) -> io::Result<()>
    requires { (length piece.old ≤ 2048) × (length front.old ≡ 4096) × (length out.old ≡ 65536) }
    ensures whole { OnOk result (0 < length piece.old → IfSome (R.remaining from.old) (λ xs. Appends (W.contents to.old) (W.contents to.new) (in_full xs))) }
    ensures left { (bs : List ℕ) × Consumes (R.remaining from.old) (R.remaining from.new) bs }
{
    let n = read_front(from, piece, front)?;
    let end = headers::write_out(&front[..n], out);
    to.write_all(&out[..end])?;
    if FRONT <= n {
        return copy_rest(from, to, piece);
    }
    Ok(())
}

// Writes the journal of a reader to a writer, reading at most size bytes at a time.
// After an error no clause speaks of what was written, since std says nothing of it then.
pub fn write<R: Read, W: Write>(from: &mut R, to: &mut W, size: usize) -> io::Result<()>
    requires { (0 < size) × (size ≤ 2048) }
    ensures whole { OnOk result (IfSome (R.remaining from.old) (λ xs. Appends (W.contents to.old) (W.contents to.new) (in_full xs))) }
    ensures left { (bs : List ℕ) × Consumes (R.remaining from.old) (R.remaining from.new) bs }
{
    let mut piece = [0; 4096];
    let mut front = [0; 4096];
    let mut out = [0; 65536];
    run(from, to, &mut piece[..size], &mut front, &mut out)
}
