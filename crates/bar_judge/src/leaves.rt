//! Leaves that signed two messages.
ghost use Rattle.std.specs.Prelude.{◌≡◌, ◌↔◌, IsTrue, true};
ghost use Rattle.bar_wire.specs.Bodies.{is_peer_kind};
ghost use Rattle.bar_wire.specs.Code.Views.{datagram, plain};
ghost use Rattle.bar_rules.specs.Judge.Verdict.{is_leaf_twice};
ghost use Rattle.bar_rules.specs.Verifiers.{NamesLeavesOf};
ghost use Rattle.bar_judge.specs.Code.Parts.{IsRead};

use bar_roster::Session;
use bar_seal::laws::identities_name_messages;
use bar_seal::{Identity, Verifier, identity};
use bar_wire::View;

/// Whether two identities are equal.
fn is_same(one: Identity, two: Identity) -> bool
    ensures { IsTrue result ↔ (one ≡ two) }
{
    one == two
}

/// Whether two datagrams of different identities have signatures that name one leaf. It counts no hash and reads no message.
pub(crate) fn is_leaf_twice<V: Verifier>(
    session: &Session,
    verifier: &V,
    m: &View<'_>,
    n: &View<'_>,
) -> bool
    requires leaves { NamesLeavesOf session.now (V.leaf_named verifier.now) (V.signature_len verifier.now) }
    requires one { IsRead session.now.shape m.now }
    requires two { IsRead session.now.shape n.now }
    requires signed_one { is_peer_kind (plain m.now.body) ≡ true }
    requires signed_two { is_peer_kind (plain n.now.body) ≡ true }
    ensures { result ≡ is_leaf_twice session.now (datagram session.now.shape m.now) (datagram session.now.shape n.now) }
{
    identities_name_messages();
    let (Some(one), Some(two)) = (identity(m), identity(n)) else {
        return false;
    };
    let (Some(first), Some(second)) = (m.sig, n.sig) else {
        return false;
    };
    if is_same(one, two) {
        return false;
    }
    verifier.leaf_in(first) == verifier.leaf_in(second)
}
