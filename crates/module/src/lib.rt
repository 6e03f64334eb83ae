// The Ed25519 module that the programs and the C edge are built with: under the gate the stand-in; the desk build puts its own crate in this one's place.
#![tactic(auto)]

pub use standin::StandIn as Module;
