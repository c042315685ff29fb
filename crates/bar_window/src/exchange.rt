ghost use Rattle.std.specs.Prelude.{◌≡◌, ◌<◌, MatchOption};
ghost use Rattle.bar_window.specs.Exchange.{kind_code, role_code, other_role, party_on, exchange_bytes};

/// The two kinds of exchange. A balanced one trades equally many updates; a push trades young updates for old ones or junk.
#[derive(Clone, Copy, Debug, PartialEq, Eq, PartialOrd, Ord, Hash)]
pub enum XKind {
    Balanced,
    Push,
}

impl XKind {
    /// The kind's number in datagrams and hashes: 0 for balanced, 1 for push.
    pub fn code(self) -> u8
        ensures { result ≡ kind_code self }
    {
        match self {
            XKind::Balanced => 0,
            XKind::Push => 1,
        }
    }

    /// The kind with this number, or None if there is none.
    pub fn at(code: u8) -> Option<XKind>
        ensures { MatchOption result (1 < code) (λ kind. code ≡ kind_code kind) }
    {
        match code {
            0 => Some(XKind::Balanced),
            1 => Some(XKind::Push),
            _ => None,
        }
    }
}

/// The two sides of an exchange.
#[derive(Clone, Copy, Debug, PartialEq, Eq, PartialOrd, Ord, Hash)]
pub enum Role {
    Initiator,
    Responder,
}

impl Role {
    /// The role's number in datagrams and hashes: 0 for the initiator, 1 for the responder.
    pub fn code(self) -> u8
        ensures { result ≡ role_code self }
    {
        match self {
            Role::Initiator => 0,
            Role::Responder => 1,
        }
    }

    /// The role with this number, or None if there is none.
    pub fn at(code: u8) -> Option<Role>
        ensures { MatchOption result (1 < code) (λ role. code ≡ role_code role) }
    {
        match code {
            0 => Some(Role::Initiator),
            1 => Some(Role::Responder),
            _ => None,
        }
    }

    pub fn other(self) -> Role
        ensures { result ≡ other_role self }
    {
        match self {
            Role::Initiator => Role::Responder,
            Role::Responder => Role::Initiator,
        }
    }
}

/// An exchange of a round between two peers. Exchanges are ordered by round, kind, initiator and responder in turn.
#[derive(Clone, Copy, Debug, PartialEq, Eq, PartialOrd, Ord, Hash)]
pub struct Exchange {
    pub round: u32,
    pub kind: XKind,
    pub initiator: u16,
    pub responder: u16,
}

impl Exchange {
    /// The party on one side.
    pub fn party(&self, role: Role) -> u16
        ensures { result ≡ party_on self.now role }
    {
        match role {
            Role::Initiator => self.initiator,
            Role::Responder => self.responder,
        }
    }

    /// The bytes that name the exchange: round, kind, initiator and responder, the highest byte of each first.
    pub fn bytes(&self) -> [u8; 9]
        ensures { result ≡ exchange_bytes self.now }
    {
        let [a, b, c, d] = self.round.to_be_bytes();
        let [e, f] = self.initiator.to_be_bytes();
        let [g, h] = self.responder.to_be_bytes();
        [a, b, c, d, self.kind.code(), e, f, g, h]
    }
}
