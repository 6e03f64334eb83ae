// The journals of a quarter: their names from a reader, a line for each to a writer. No contract can say what a file holds, so what is made of it is said in
// the crates below, and this is a thin loop.
#![tactic(auto)]

ghost use Rattle.std.specs.Prelude.{◌≡◌, ◌≤◌, ℕ, List, length, Option, OnOk};
ghost use Rattle.std.specs.Io.KnownBytes.{Appends, Consumes};
ghost use Rattle.sums.specs.Printing.{name_of};
ghost use Rattle.sums.specs.declared.Sums.{Sums};
ghost use Rattle.accounts.specs.Accounts.{line_of};
ghost use Rattle.accounts.specs.Inside.{UpTo, SoundQuarter, one_more};

use accounts::Quarter;
use ed25519::Verifier;
use judging::Order;
use ledger::Stream;
use lines::{LIMIT, Taken};
use std::io::{Error, ErrorKind, Read, Write};
use std::rt::Files;
use std::{fs, io, str};
use sums::Sums;

// The quarter after the names so far, and how many bytes of the next one have come.
#[derive(Clone, Copy)]
struct Names {
    quarter: Quarter,
    held: usize,
}

// Reads a journal to its end. Where a read fails it comes to nothing, since half a journal must not count as one.
fn read_journal<R: Read, E: Verifier>(
    from: &mut R,
    line: &mut [u8],
    piece: &mut [u8],
) -> Option<Sums>
    requires { length line.old ≡ 2048 }
    ensures { UpTo 4294967296 result }
{
    let mut stream = Stream::new(Order::Strict);
    let mut account = None;
    for _ in 0..u64::MAX {
        let got = from.read(piece).ok()?;
        accounts::feed::<E>(&mut stream, &mut account, &piece[..got], line);
        if got == 0 || stream.is_over() {
            return accounts::finish::<E>(&stream, account);
        }
    }
    None
}

// A path of this system's library is UTF-8: a name that is not leads to no file.
fn open_journal<F: Files, E: Verifier>(files: &F, name: &[u8]) -> Option<Sums>
    ensures { UpTo 4294967296 result }
{
    let path = str::from_utf8(name).ok()?;
    let mut journal = fs::open(files, path).ok()?;
    let mut line = [0; 4096];
    let mut piece = [0; 65536];
    read_journal::<_, E>(&mut journal, &mut line[..2048], &mut piece)
}

// What the next name leads to; after the 64th it is not opened.
fn account_of<F: Files, E: Verifier>(files: &F, quarter: Quarter, name: &[u8]) -> Option<Sums>
    ensures { UpTo 4294967296 result }
{
    if accounts::is_open(quarter) {
        return open_journal::<_, E>(files, name);
    }
    None
}

impl Names {
    // Enters the name that a line says, and writes what it leads to.
    fn enter<F: Files, W: Write, E: Verifier>(
        &mut self,
        files: &F,
        line: &[u8],
        to: &mut W,
    ) -> io::Result<()>
        requires { SoundQuarter self.old.quarter }
        ensures sound { OnOk result (SoundQuarter self.new.quarter × (self.new.held ≡ 0)) }
        ensures entered { OnOk result ((a : Option Sums) × (self.new.quarter ≡ one_more self.old.quarter a) × Appends (W.contents to.old) (W.contents to.new) (line_of (name_of line.now) a)) }
    {
        let name = sums::name_of(line);
        let account = account_of::<_, E>(files, self.quarter, name);
        let mut out = [0; 4096];
        let end = accounts::put_account(&mut out, name, account);
        to.write_all(&out[..end])?;
        self.quarter = accounts::enter(self.quarter, account);
        self.held = 0;
        Ok(())
    }

    // Takes a piece of the names, line by line and so by an index; line is the buffer of the present one. Of an over-long line the first bytes are enough for a
    // name.
    #[tactic(auto, using(lines::proofs::Law::bounds))]
    fn take<F: Files, W: Write, E: Verifier>(
        &mut self,
        files: &F,
        piece: &[u8],
        line: &mut [u8],
        to: &mut W,
    ) -> io::Result<()>
        requires { SoundQuarter self.old.quarter × (self.old.held ≤ 2048) × (length line.old ≡ 2048) }
        ensures { OnOk result (SoundQuarter self.new.quarter × (self.new.held ≤ 2048)) }
    {
        let mut i = 0;
        while i < piece.len() {
            let (size, next) = match lines::take_line(piece, i, line, self.held) {
                Taken::Whole { size, next } => (size, next),
                Taken::Long { next } => (LIMIT, next),
                Taken::Cut { size } => {
                    self.held = size;
                    return Ok(());
                }
            };
            self.enter::<_, _, E>(files, &line[..size], to)?;
            i = next;
        }
        Ok(())
    }

    // The end of the names: a last one without LF counts, and the line of all is written.
    fn finish<F: Files, W: Write, E: Verifier>(
        &mut self,
        files: &F,
        line: &[u8],
        to: &mut W,
    ) -> io::Result<()>
        requires { SoundQuarter self.old.quarter × (self.old.held ≤ length line.now) }
    {
        let held = self.held;
        if held != 0 {
            self.enter::<_, _, E>(files, &line[..held], to)?;
        }
        let mut out = [0; 4096];
        let end = accounts::put_all(&mut out, self.quarter);
        to.write_all(&out[..end])
    }
}

// A read of the names that fails is not their end: the line of all is not written. Where writing fails it stops.
fn run<F: Files, R: Read, W: Write, E: Verifier>(
    files: &F,
    from: &mut R,
    to: &mut W,
    line: &mut [u8],
    piece: &mut [u8],
) -> io::Result<()>
    requires { length line.old ≡ 2048 }
    ensures { (bs : List ℕ) × Consumes (R.remaining from.old) (R.remaining from.new) bs }
{
    let mut names = Names {
        quarter: accounts::no_name(),
        held: 0,
    };
    for _ in 0..u64::MAX {
        let got = from.read(piece)?;
        if got == 0 {
            return names.finish::<_, _, E>(files, line, to);
        }
        names.take::<_, _, E>(files, &piece[..got], line, to)?;
    }
    Err(Error::from(ErrorKind::TimedOut))
}

// Reads names from a reader, one a line, and writes to a writer what each leads to, and then what all do.
pub fn report<F: Files, R: Read, W: Write, E: Verifier>(
    files: &F,
    from: &mut R,
    to: &mut W,
) -> io::Result<()>
    ensures { (bs : List ℕ) × Consumes (R.remaining from.old) (R.remaining from.new) bs }
{
    let mut line = [0; 4096];
    let mut piece = [0; 4096];
    run::<_, _, _, E>(files, from, to, &mut line[..2048], &mut piece)
}
