//! The identities of signed messages.

ghost use Rattle.std.specs.Prelude.{◌≡◌};

use bar_wire::Kind;

/// The identity of a signed message: no party may sign two different messages of one identity.
///
/// `kind` is that of the datagram, 1 to 12, `xkind` 0 for a balanced exchange and 1 for a push, and `role` 0 for the initiator and 1 for
/// the responder. A field that doesn't belong to the identity of its kind is 0. MANIFEST and EVICT are identified by kind and round;
/// REQUEST and QUERY by kind, sender and round; RESPONSE and REPLY by these and the receiver; CASE and KEY by all.
#[derive(Clone, Copy, Debug, PartialEq, Eq, PartialOrd, Ord, Hash)]
pub struct Identity {
    pub kind: u8,
    pub from: u16,
    pub to: u16,
    pub round: u32,
    pub xkind: u8,
    pub role: u8,
}

impl Identity {
    ghost use Rattle.bar_seal.specs.Identities.{round_identity};

    /// The identity of a message that is identified by its kind and round alone.
    pub(crate) fn of_round(kind: Kind, round: u32) -> Identity
        ensures { result ≡ round_identity kind round }
    {
        Identity {
            kind: kind.code(),
            from: 0,
            to: 0,
            round,
            xkind: 0,
            role: 0,
        }
    }
}
