// How a line of a case is written: bytes in hex, and an answer or a verdict as its number.
use refusal::Refusal;
use rules::Verdict;
use std::{fmt, io};

// Bytes in lower-case hex.
#[derive(Clone, Copy, Debug, PartialEq, Eq)]
pub struct Hex(pub [u8; 32]);

impl fmt::Display for Hex {
    fn fmt<W: fmt::Write>(&self, f: &mut fmt::Formatter<W>) -> fmt::Result {
        for byte in self.0 {
            write!(f, "{byte:02x}")?;
        }
        Ok(())
    }
}

// An answer as its number: 0, or that of the refusal.
#[derive(Clone, Copy, Debug, PartialEq, Eq)]
pub struct Answered(pub Result<(), Refusal>);

impl fmt::Display for Answered {
    fn fmt<W: fmt::Write>(&self, f: &mut fmt::Formatter<W>) -> fmt::Result {
        let number = match self.0 {
            Ok(()) => 0,
            Err(why) => u32::from(why),
        };
        write!(f, "{number}")
    }
}

// A verdict as its number: 0 accepted, 100 rejected, or that of the refusal.
#[derive(Clone, Copy, Debug, PartialEq, Eq)]
pub struct Judged(pub Result<Verdict, Refusal>);

impl fmt::Display for Judged {
    fn fmt<W: fmt::Write>(&self, f: &mut fmt::Formatter<W>) -> fmt::Result {
        let number = match self.0 {
            Ok(Verdict::Accepted) => 0,
            Ok(Verdict::Rejected) => 100,
            Err(why) => u32::from(why),
        };
        write!(f, "{number}")
    }
}

pub fn show_number(rt: &impl Print, n: u64) -> io::Result<()> {
    print!(rt; " {n}")
}

pub fn show_answer(rt: &impl Print, answer: Result<(), Refusal>) -> io::Result<()> {
    print!(rt; " {}", Answered(answer))
}

pub fn show_verdict(rt: &impl Print, verdict: Result<Verdict, Refusal>) -> io::Result<()> {
    print!(rt; " {}", Judged(verdict))
}

pub fn show_field(rt: &impl Print, field: [u8; 32]) -> io::Result<()> {
    print!(rt; " {}", Hex(field))
}

pub fn end_line(rt: &impl Print) -> io::Result<()> {
    println!(rt; "")
}
