use bar_ledger::Ledger;
use bar_roster::Session;
use bar_seeds::{Secrets, SeedChain};
use bar_store::Store;

/// What a peer writes its messages from: its session, its secrets and the seed chain derived from them, its exchanges, and what it holds.
#[derive(Clone, Copy)]
pub struct Sources<'a> {
    pub session: &'a Session,
    pub secrets: &'a Secrets,
    pub chain: &'a SeedChain,
    pub ledger: &'a Ledger,
    pub store: &'a Store,
}
