//! Admitted datagrams of other exchanges whose signatures name a given leaf.
ghost use Rattle.std.specs.Prelude.{◌≡◌, ◌∷◌, ◌++◌, ◌-◌, ◌+◌, ◌≤◌, [], option_copied};
ghost use Rattle.bar_window.specs.declared.exchange.XKind.TheVariants.{Balanced, Push};
ghost use Rattle.bar_rules.specs.Peer.Evidence.{between, shared_from};
ghost use Rattle.bar_ledger.specs.Code.Naming.{names};
ghost use Rattle.bar_exchange.specs.Code.Naming.{passing_as, passing_in, passing_beside, passing_among, side_beside};

use bar_ledger::{Ledger, names, opening_kind};
use bar_seal::Verifier;
use bar_window::{Exchange, Role, XKind};
use bar_wire::Kind;

/// The side of the other party in an exchange of this party.
fn side_beside(party: u16, y: Exchange) -> Role
    ensures { result ≡ side_beside party y }
{
    if y.initiator == party {
        Role::Responder
    } else {
        Role::Initiator
    }
}

/// The two exchanges of a round and kind that two parties can have, in order.
fn between(p: u16, q: u16, round: u32, kind: XKind) -> (Exchange, Exchange)
    ensures { result.0 ∷ result.1 ∷ [] ≡ between p q round kind }
{
    let one = Exchange {
        round,
        kind,
        initiator: p,
        responder: q,
    };
    let two = Exchange {
        round,
        kind,
        initiator: q,
        responder: p,
    };
    if p < q { (one, two) } else { (two, one) }
}

/// A search for an admitted datagram of another exchange than `x`, with a party, whose signature names a leaf.
#[derive(Drop)]
struct Search<'v, 'a, V: Verifier> {
    verifier: &'v V,
    leaf: u32,
    ledger: &'a Ledger,
    x: Exchange,
    party: u16,
}

impl<'v, 'a, V: Verifier> Search<'v, 'a, V> {
    /// The datagram of a kind that was heard from a side of an exchange, if its signature names the leaf.
    fn of_kind(&self, kind: Kind, y: Exchange, role: Role) -> Option<&'a [u8]>
        ensures { option_copied result ≡ passing_as
            (names (V.leaf_named self.now.verifier.now) (V.signature_len self.now.verifier.now) self.now.leaf)
            self.now.ledger.now kind y role }
    {
        let heard = self.ledger.heard_from(y, kind, role)?;
        names(self.verifier, Some(heard), self.leaf).then_some(heard)
    }

    /// The first of a side's signed datagrams in an exchange whose signature names the leaf.
    fn of_side(&self, y: Exchange, role: Role) -> Option<&'a [u8]>
        ensures { option_copied result ≡ passing_in
            (names (V.leaf_named self.now.verifier.now) (V.signature_len self.now.verifier.now) self.now.leaf)
            self.now.ledger.now y role }
    {
        let opening = opening_kind(y.kind, role);
        if let Some(heard) = self.of_kind(opening, y, role) {
            return Some(heard);
        }
        if let Some(heard) = self.of_kind(Kind::Case, y, role) {
            return Some(heard);
        }
        self.of_kind(Kind::Key, y, role)
    }

    /// The first such datagram of an exchange, if that is another one than `x`.
    fn beside(&self, y: Exchange) -> Option<&'a [u8]>
        ensures { option_copied result ≡ passing_beside
            (names (V.leaf_named self.now.verifier.now) (V.signature_len self.now.verifier.now) self.now.leaf)
            self.now.ledger.now self.now.x y }
    {
        if self.x == y {
            return None;
        }
        self.of_side(y, side_beside(self.ledger.me(), y))
    }

    /// The first such datagram of the two exchanges of a round and kind with the party.
    fn of_round_and_kind(&self, round: u32, kind: XKind) -> Option<&'a [u8]>
        ensures { option_copied result ≡ passing_among
            (names (V.leaf_named self.now.verifier.now) (V.signature_len self.now.verifier.now) self.now.leaf)
            self.now.ledger.now self.now.x (between self.now.ledger.now.me self.now.party round kind) }
    {
        let (one, two) = between(self.ledger.me(), self.party, round, kind);
        match self.beside(one) {
            Some(heard) => Some(heard),
            None => self.beside(two),
        }
    }

    /// The first such datagram of the exchanges of a round with the party.
    fn of_round(&self, round: u32) -> Option<&'a [u8]>
        ensures { option_copied result ≡ passing_among
            (names (V.leaf_named self.now.verifier.now) (V.signature_len self.now.verifier.now) self.now.leaf)
            self.now.ledger.now self.now.x
            (between self.now.ledger.now.me self.now.party round Balanced ++ between self.now.ledger.now.me self.now.party round Push) }
    {
        match self.of_round_and_kind(round, XKind::Balanced) {
            Some(heard) => Some(heard),
            None => self.of_round_and_kind(round, XKind::Push),
        }
    }

    /// The first such datagram of the exchanges of `count` rounds with the party, starting with `first`, as far as rounds have numbers.
    fn of_rounds(&self, first: u32, count: u32) -> Option<&'a [u8]>
        ensures { first + count ≤ 4294967295 → option_copied result ≡ passing_among
            (names (V.leaf_named self.now.verifier.now) (V.signature_len self.now.verifier.now) self.now.leaf)
            self.now.ledger.now self.now.x (shared_from self.now.ledger.now.me self.now.party first count) }
    {
        for after in 0..count {
            let round = first.checked_add(after)?;
            if let Some(heard) = self.of_round(round) {
                return Some(heard);
            }
        }
        None
    }
}

/// The first signed datagram heard from a party in another exchange than `x` whose signature names a leaf. The exchanges that may still be
/// asked about are searched in their order. If there is none, each slot is looked at once, no hash is counted and no datagram is decoded.
pub fn naming_elsewhere<'a, V: Verifier>(
    verifier: &V,
    ledger: &'a Ledger,
    x: Exchange,
    party: u16,
    leaf: u32,
) -> Option<&'a [u8]>
    ensures { ledger.now.round ≤ 4294967037 → option_copied result ≡ passing_among
        (names (V.leaf_named verifier.now) (V.signature_len verifier.now) leaf) ledger.now x
        (shared_from ledger.now.me party (ledger.now.round - ledger.now.shape.life) (ledger.now.shape.life + 2)) }
{
    if !ledger.names_leaf(verifier, x, party, leaf) {
        return None;
    }
    let first = ledger.round().saturating_sub(u32::from(ledger.life()));
    let count = u32::from(ledger.life()) + 2;
    let search = Search {
        verifier,
        leaf,
        ledger,
        x,
        party,
    };
    search.of_rounds(first, count)
}
