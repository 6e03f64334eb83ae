// A module written as one impl, over the stand-in's three calls: it is a Verifier and a Signer, with the answers of host/model/standin.py.
ghost use Rattle.standin.specs.Scheme.{standin};

use super::StandIn;
use ed25519::{Ed25519, Signer, Verifier};

struct Whole;

impl Ed25519 for Whole {
    ghost scheme = { standin };

    fn public_key(secret: [u8; 32], tally: &mut u64) -> Option<[u8; 32]> {
        <StandIn as Signer>::public_key(secret, tally)
    }

    fn sign(secret: [u8; 32], message: &[u8], tally: &mut u64) -> Option<[u8; 64]> {
        <StandIn as Signer>::sign(secret, message, tally)
    }

    fn verify(key: [u8; 32], message: &[u8], signature: [u8; 64]) -> bool {
        <StandIn as Verifier>::verify(key, message, signature)
    }
}

// Of the secret of 32 zeros.
const KEY: [u8; 32] = [
    78, 79, 84, 32, 69, 68, 50, 53, 53, 49, 57, 32, 75, 69, 89, 32, 149, 71, 158, 154, 211, 36,
    232, 37, 75, 251, 65, 37, 165, 29, 90, 202,
];

// Over abc.
const SIGNATURE: [u8; 64] = [
    228, 54, 15, 131, 193, 142, 127, 113, 236, 158, 61, 232, 194, 88, 25, 117, 2, 121, 215, 118,
    234, 121, 225, 218, 217, 197, 53, 126, 56, 79, 184, 181, 214, 137, 99, 25, 165, 246, 159, 132,
    152, 122, 34, 215, 23, 77, 99, 221, 95, 82, 72, 68, 93, 18, 109, 43, 222, 145, 182, 155, 11,
    191, 189, 5,
];

#[test]
fn a_whole_module_answers(rt: HostRuntime) {
    let mut tally = 98;
    assert_eq!(rt;
        <Whole as Signer>::public_key([0; 32], &mut tally),
        Some(KEY)
    );
    assert_eq!(rt;
        <Whole as Signer>::sign([0; 32], b"abc", &mut tally),
        Some(SIGNATURE)
    );
    assert_eq!(rt; tally, 100);
    assert_eq!(rt; <Whole as Signer>::public_key([0; 32], &mut tally), None);
    assert_eq!(rt; tally, 101);
}

#[test]
fn a_whole_module_verifies(rt: HostRuntime) {
    assert!(rt; <Whole as Verifier>::verify(KEY, b"abc", SIGNATURE));
    assert!(rt; !<Whole as Verifier>::verify(KEY, b"abd", SIGNATURE));
}
