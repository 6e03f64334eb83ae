// A damaged journal from a reader: what is saved of it to one writer, the list of the other lines to another.
#![tactic(auto)]

ghost use Rattle.std.specs.Prelude.{◌≡◌, ◌≤◌, ◌<◌, ℕ, List, length, IfSome, OnOk};
ghost use Rattle.std.specs.Io.KnownBytes.{Appends, Consumes};
ghost use Rattle.saving.specs.Salvage.{saved_journal, saved_list};

use ed25519::Verifier;
use std::io;
use std::io::{Error, ErrorKind, Read, Write};

fn write_both<W: Write, L: Write>(
    to: &mut W,
    saved: &[u8],
    others: &mut L,
    listed: &[u8],
) -> io::Result<()>
    ensures saved { OnOk result (Appends (W.contents to.old) (W.contents to.new) saved.now) }
    ensures listed { OnOk result (Appends (L.contents others.old) (L.contents others.new) listed.now) }
{
    to.write_all(saved)?;
    others.write_all(listed)
}

// Reads a piece, takes its turn, writes what the turn says to each output, until it was the last. Where reading or writing fails it stops.
fn run<R: Read, W: Write, L: Write, E: Verifier>(
    from: &mut R,
    to: &mut W,
    others: &mut L,
    line: &mut [u8],
    piece: &mut [u8],
    journal: &mut [u8],
    list: &mut [u8],
) -> io::Result<()>
    requires { (length line.old ≡ 2048) × (length piece.old ≤ 2048) × (length journal.old ≡ 4096) × (length list.old ≡ 65536) }
    ensures saved { OnOk result (0 < length piece.old → IfSome (R.remaining from.old) (λ xs. Appends (W.contents to.old) (W.contents to.new) (saved_journal E.scheme xs))) }
    ensures listed { OnOk result (0 < length piece.old → IfSome (R.remaining from.old) (λ xs. Appends (L.contents others.old) (L.contents others.new) (saved_list E.scheme xs))) }
    ensures left { (bs : List ℕ) × Consumes (R.remaining from.old) (R.remaining from.new) bs }
{
    let mut stream = saving::start();
    for _ in 0..u64::MAX {
        let got = from.read(piece)?;
        let turned = salvaging::turn::<E>(&mut stream, &piece[..got], line, journal, list);
        write_both(to, &journal[..turned.saved], others, &list[..turned.listed])?;
        if turned.over {
            return Ok(());
        }
    }
    Err(Error::from(ErrorKind::TimedOut))
}

// Saves the journal of a reader onto a writer and lists its other lines onto another, reading at most size bytes at a time.
// After an error no clause speaks of what was written, since std says nothing of it then.
pub fn save<R: Read, W: Write, L: Write, E: Verifier>(
    from: &mut R,
    to: &mut W,
    others: &mut L,
    size: usize,
) -> io::Result<()>
    requires { (0 < size) × (size ≤ 2048) }
    ensures saved { OnOk result (IfSome (R.remaining from.old) (λ xs. Appends (W.contents to.old) (W.contents to.new) (saved_journal E.scheme xs))) }
    ensures listed { OnOk result (IfSome (R.remaining from.old) (λ xs. Appends (L.contents others.old) (L.contents others.new) (saved_list E.scheme xs))) }
    ensures left { (bs : List ℕ) × Consumes (R.remaining from.old) (R.remaining from.new) bs }
{
    let mut line = [0; 4096];
    let mut piece = [0; 4096];
    let mut journal = [0; 4096];
    let mut list = [0; 65536];
    run::<_, _, _, E>(
        from,
        to,
        others,
        &mut line[..2048],
        &mut piece[..size],
        &mut journal,
        &mut list,
    )
}
