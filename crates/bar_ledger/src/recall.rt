//! What a ledger recalls of an exchange, by kind and side.
ghost use Rattle.std.specs.Prelude.{◌≡◌, is_some, option_copied};
ghost use Rattle.bar_rules.specs.Member.{Member};
ghost use Rattle.bar_rules.specs.Peer.Exchanges.{role_of};
ghost use Rattle.bar_rules.specs.Peer.Knowledge.{Knowledge};
ghost use Rattle.bar_ledger.specs.Code.Lookups.{heard_in, said_in};
ghost use Rattle.bar_ledger.specs.Code.Recalls.{Recalls};

use crate::ledger::Ledger;
use bar_window::{Exchange, Role};
use bar_wire::Kind;

impl Ledger {
    /// This peer's side of an exchange.
    pub fn side(&self, x: Exchange) -> Role
        ensures { (me : Member) (k : Knowledge) → Recalls me k self.now → result ≡ role_of me x }
    {
        if x.initiator == self.me() {
            Role::Initiator
        } else {
            Role::Responder
        }
    }

    /// The datagram of a kind that was heard from a side.
    pub fn heard_from(&self, x: Exchange, kind: Kind, role: Role) -> Option<&[u8]>
        ensures { option_copied result ≡ heard_in self.now kind x role }
    {
        let entry = self.find(x)?;
        if role == entry.role.other() {
            self.heard(x, kind)
        } else {
            None
        }
    }

    /// Whether a datagram of a kind was heard from a side.
    pub fn has_heard(&self, x: Exchange, kind: Kind, role: Role) -> bool
        ensures { result ≡ is_some (heard_in self.now kind x role) }
    {
        self.heard_from(x, kind, role).is_some()
    }

    /// Whether this peer said the datagram of a kind and side.
    pub fn has_said(&self, x: Exchange, kind: Kind, role: Role) -> bool
        ensures { result ≡ said_in self.now kind x role }
    {
        match self.find(x) {
            Some(entry) => role == entry.role && entry.is_said(kind),
            None => false,
        }
    }
}
