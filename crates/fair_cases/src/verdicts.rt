// Verdicts on one signature, alone and with every refusal; and on it with each byte spoiled.
use crate::making::{MAKING, Rooms, after, either, made};
use cases::{ANSWERED, end_line, show_verdict};
use module::Module;
use refusal::Refusal;
use rules::Verdict;
use std::io;

// What judging is given: N, the step, and the lengths of key, message and signature.
#[derive(Clone, Copy, Debug, PartialEq, Eq)]
struct Judging {
    n: u64,
    step: u64,
    key: u16,
    message: u16,
    signature: u16,
}

// That of the signature at step 1, with nothing wrong.
const JUDGING: Judging = Judging {
    n: 3,
    step: 1,
    key: 32,
    message: 40,
    signature: 160,
};

// The signature of 40 bytes at step 1, with its message and key, each in a room that is long enough for every length.
#[derive(Clone, Copy, Debug, PartialEq, Eq)]
struct Sale {
    key: [u8; 65536],
    message: [u8; 65536],
    signature: [u8; 65536],
}

fn sold() -> Sale {
    let Rooms { mut cache, key, .. } = made();
    let cache = &mut cache[..usize::from(MAKING.cache)];
    let message = [9; 65536];
    let mut signature = [9; 65536];
    let mut tally = ANSWERED;
    let _ = fair::move_to(cache, 1);
    let _ = fair::sign::<Module>(cache, &message[..40], &mut signature[..160], &mut tally);
    Sale {
        key,
        message,
        signature,
    }
}

impl Sale {
    fn judged(&self, given: Judging) -> Result<Verdict, Refusal> {
        fair::verify::<Module>(
            given.n,
            &self.key[..usize::from(given.key)],
            given.step,
            &self.message[..usize::from(given.message)],
            &self.signature[..usize::from(given.signature)],
        )
    }
}

// The line of every mix of a wrong key, signature, message and step, for one N.
fn verifies(rt: &impl Print, n: u64, sale: &Sale) -> io::Result<()> {
    print!(rt; "verify {n}")?;
    for mix in 0..16 {
        let key = either(mix, 32, 31);
        let signature = either(mix / 2, 160, 161);
        let message = either(mix / 4, 40, 4097);
        let step = u64::from(either(mix / 8, 1, 3));
        show_verdict(
            rt,
            sale.judged(Judging {
                n,
                step,
                key,
                message,
                signature,
            }),
        )?;
    }
    end_line(rt)
}

// The line of a signature at steps that are not its own, some of which a narrower number would not tell from it.
fn other_steps(rt: &impl Print, sale: &Sale) -> io::Result<()> {
    print!(rt; "steps")?;
    for step in [0, 2, 4, 257, 4294967297, u64::MAX] {
        show_verdict(rt, sale.judged(Judging { step, ..JUDGING }))?;
    }
    end_line(rt)
}

// The line of a signature for other N, of wrong lengths on the other side, over another message and under another key.
fn others(rt: &impl Print, sale: &Sale) -> io::Result<()> {
    print!(rt; "other")?;
    for n in [1, 256, u64::MAX] {
        show_verdict(rt, sale.judged(Judging { n, ..JUDGING }))?;
    }
    show_verdict(rt, sale.judged(Judging { key: 33, ..JUDGING }))?;
    show_verdict(
        rt,
        sale.judged(Judging {
            signature: 159,
            ..JUDGING
        }),
    )?;
    show_verdict(
        rt,
        sale.judged(Judging {
            message: 39,
            ..JUDGING
        }),
    )?;
    let stranger = Sale {
        key: sale.message,
        ..*sale
    };
    show_verdict(rt, stranger.judged(JUDGING))?;
    end_line(rt)
}

pub(crate) fn verdicts(rt: &impl Print) -> io::Result<()> {
    let sale = sold();
    verifies(rt, 3, &sale)?;
    verifies(rt, 0, &sale)?;
    verifies(rt, 257, &sale)?;
    other_steps(rt, &sale)?;
    others(rt, &sale)
}

// The line of the verdicts with another byte at one place of the signature.
pub(crate) fn spoiled(rt: &impl Print) -> io::Result<()> {
    print!(rt; "spoiled")?;
    let sale = sold();
    for at in 0..160 {
        let mut other = sale;
        other.signature[at] = after(sale.signature[at]);
        show_verdict(rt, other.judged(JUDGING))?;
    }
    end_line(rt)
}
