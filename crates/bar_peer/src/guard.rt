use bar_seal::{Checker, Verifier};
use bar_seeds::Checkpoints;

/// What a peer checks datagrams with: the verifier with a memo of accepted datagrams, and the last accepted seed of each peer.
#[derive(Drop)]
pub struct Guard<V: Verifier> {
    pub checker: Checker<V>,
    pub points: Checkpoints,
}
