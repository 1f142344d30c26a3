//! What tests of connections share: a desk over a world of its own.
#![tactic(auto)]

mod solo_desk;

pub use solo_desk::SoloDesk;
