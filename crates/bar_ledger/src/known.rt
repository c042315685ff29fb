//! What a ledger knows about the terms of an exchange.
ghost use Rattle.std.specs.Prelude.{◌≡◌, is_some, false};
ghost use Rattle.std.specs.Option.{option_map_or};
ghost use Rattle.bar_ledger.specs.Code.Lookups.{complete_by, is_known_in, knows_answer, knows_commit, knows_offer};
ghost use Rattle.bar_ledger.specs.Code.Memory.{find_in};

use crate::ledger::Ledger;
use bar_window::{Exchange, Role};
use bar_wire::Kind;

impl Ledger {
    /// Whether the first signed message of the other side was heard.
    fn has_heard_first(&self, x: Exchange) -> bool
        ensures { result ≡ option_map_or (λ kept. is_some kept.first) (find_in self.now x) false }
    {
        match self.slot(x) {
            Some(slot) => slot.first.kept().is_some(),
            None => false,
        }
    }

    /// Whether the nonce and history that the initiator of a balanced exchange commits to are known.
    pub fn knows_commit(&self, x: Exchange) -> bool
        ensures { result ≡ is_known_in knows_commit self.now x }
    {
        match self.find(x) {
            Some(entry) => match entry.role {
                Role::Initiator => entry.first_said,
                Role::Responder => self.heard(x, Kind::Divulge).is_some(),
            },
            None => false,
        }
    }

    /// Whether the responder's answer is known.
    pub fn knows_answer(&self, x: Exchange) -> bool
        ensures { result ≡ is_known_in knows_answer self.now x }
    {
        match self.find(x) {
            Some(entry) => match entry.role {
                Role::Initiator => self.has_heard_first(x),
                Role::Responder => entry.first_said,
            },
            None => false,
        }
    }

    /// Whether the offer of the initiator of a push is known.
    pub fn knows_offer(&self, x: Exchange) -> bool
        ensures { result ≡ is_known_in knows_offer self.now x }
    {
        match self.find(x) {
            Some(entry) => match entry.role {
                Role::Initiator => entry.first_said,
                Role::Responder => self.has_heard_first(x),
            },
            None => false,
        }
    }

    /// Whether both sides' parts of the terms are known.
    pub fn is_complete(&self, x: Exchange) -> bool
        ensures { result ≡ is_known_in complete_by self.now x }
    {
        match self.find(x) {
            Some(entry) => entry.complete,
            None => false,
        }
    }
}
