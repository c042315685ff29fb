//! Laws of identities and of leaves, for the definitions that the contracts use.

ghost use Rattle.std.specs.Prelude.{◌≡◌, ◌↔◌, ℕ, ◌*◌, ◌<◌, ◌≤◌, true};
ghost use Rattle.bar_wire.specs.Datagram.{Message, Body, is_signed, round_of, identity_of};
ghost use Rattle.bar_wire.specs.Limits.{leaves_a_round, seats_a_round};
ghost use Rattle.bar_seal.specs.Identities.{identity};
ghost use Rattle.bar_seal.specs.Leaves.{leaf_of};
ghost use Rattle.bar_seal.specs.LeafLaws.{PeersLeavesNameMessages, CastersLeavesNameMessages};

/// Two signed messages have the same identity if and only if their kinds and the fields that identify them are the same.
pub fn identities_name_messages()
    ensures { (m n : Message) → is_signed m.body ≡ true → is_signed n.body ≡ true →
        (identity m ≡ identity n) ↔ (identity_of m ≡ identity_of n) }
{}

/// A leaf of a peer determines the kind of its message, the round, kind and side of the exchange, and the seat of a responder. So different
/// messages of one round have different leaves.
pub fn leaves_name_messages()
    ensures peers { PeersLeavesNameMessages }
    ensures broadcaster { CastersLeavesNameMessages }
{}

/// The leaves of the first rounds are below the number of rounds times the leaves of a round.
pub fn leaves_are_few()
    ensures { (b : Body) (s rounds : ℕ) → is_signed b ≡ true → 1 ≤ round_of b → round_of b ≤ rounds → s < seats_a_round →
        leaf_of b s < leaves_a_round * rounds }
{}
