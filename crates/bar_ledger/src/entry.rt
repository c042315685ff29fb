use crate::exchanges::opening_kind;
use bar_window::{Exchange, Role, Terms};
use bar_wire::Kind;

/// What a peer knows of an exchange besides the datagrams that it heard.
#[derive(Clone, Copy, Debug)]
pub struct Entry {
    pub x: Exchange,
    /// This peer's side.
    pub role: Role,
    /// The responder's seat, 0 or 1.
    pub seat: u8,
    /// The terms, as far as they are known. Unknown windows are empty, and unknown numbers are 0.
    pub terms: Terms,
    /// Whether both sides' parts of the terms are known.
    pub complete: bool,
    /// Whether this peer said its first message.
    pub first_said: bool,
    pub case_said: bool,
    pub key_said: bool,
}

impl Entry {
    ghost use Rattle.std.specs.Prelude.{◌≡◌};
    ghost use Rattle.bar_ledger.specs.Code.Lookups.{is_said};

    /// Whether this peer said its datagram of a kind: its CASE, its KEY or its first signed datagram.
    pub(crate) fn is_said(&self, kind: Kind) -> bool
        ensures { result ≡ is_said kind self.now }
    {
        let opens = kind == opening_kind(self.x.kind, self.role);
        match kind {
            Kind::Case => self.case_said,
            Kind::Key => self.key_said,
            Kind::Manifest
            | Kind::Block
            | Kind::Request
            | Kind::Response
            | Kind::Divulge
            | Kind::Query
            | Kind::Reply
            | Kind::KeyReq
            | Kind::Evidence
            | Kind::Evict => opens && self.first_said,
        }
    }
}
