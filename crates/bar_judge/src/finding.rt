//! The fault that datagrams show.
ghost use Rattle.std.specs.Prelude.{◌≡◌, ◌+◌, ◌≤◌, true, IfSome, IsSome, option_map};
ghost use Rattle.bar_terms.specs.Table.{digests_of};
ghost use Rattle.bar_wire.specs.Bodies.{is_peer_kind};
ghost use Rattle.bar_wire.specs.Code.Views.{datagram, plain};
ghost use Rattle.bar_rules.specs.Judge.Verdict.{fault_in_order, fault_of, fault_of_messages, fault_of_two};
ghost use Rattle.bar_rules.specs.Verifiers.{NamesLeavesOf};
ghost use Rattle.bar_seeds.specs.Code.Checkpoints.{MovesOn};
ghost use Rattle.bar_session.specs.Points.{AreSeeds};
ghost use Rattle.bar_judge.specs.Code.Parts.{IsRead, datagrams, choice_round_alone};
ghost use Rattle.bar_judge.specs.Code.Verdicts.{plain_fault};

use crate::fault::Fault;
use crate::leaves::is_leaf_twice;
use crate::one::found_in_one;
use crate::opening::shows_bad_opening;
use crate::words::fault_by_words;
use bar_bytes::Steps;
use bar_roster::Session;
use bar_seal::Verifier;
use bar_seeds::Checkpoints;
use bar_terms::Table;
use bar_wire::View;
use std::sync::ledger::Ledger;

/// What two datagrams show in this order.
fn fault_in_order(session: &Session, table: &Table, m: &View<'_>, n: &View<'_>) -> Option<Fault>
    requires one { IsRead session.now.shape m.now }
    requires two { IsRead session.now.shape n.now }
    requires signed { is_peer_kind (plain m.now.body) ≡ true }
    ensures { option_map plain_fault result ≡ fault_in_order session.now (digests_of table.now.lists)
        (datagram session.now.shape m.now).message (datagram session.now.shape n.now).message }
{
    if shows_bad_opening(session, table, m, n) {
        return Some(Fault::F1);
    }
    fault_by_words(&session.shape(), m, n)
}

/// What two messages show, in either order.
fn fault_of_messages(session: &Session, table: &Table, m: &View<'_>, n: &View<'_>) -> Option<Fault>
    requires one { IsRead session.now.shape m.now }
    requires two { IsRead session.now.shape n.now }
    requires signed_one { is_peer_kind (plain m.now.body) ≡ true }
    requires signed_two { is_peer_kind (plain n.now.body) ≡ true }
    ensures { option_map plain_fault result ≡ fault_of_messages session.now (digests_of table.now.lists)
        (datagram session.now.shape m.now).message (datagram session.now.shape n.now).message }
{
    match fault_in_order(session, table, m, n) {
        Some(fault) => Some(fault),
        None => fault_in_order(session, table, n, m),
    }
}

/// What two datagrams show: first by their leaves, and then by their messages.
pub(crate) fn fault_of_two<V: Verifier>(
    session: &Session,
    verifier: &V,
    table: &Table,
    m: &View<'_>,
    n: &View<'_>,
) -> Option<Fault>
    requires leaves { NamesLeavesOf session.now (V.leaf_named verifier.now) (V.signature_len verifier.now) }
    requires one { IsRead session.now.shape m.now }
    requires two { IsRead session.now.shape n.now }
    requires signed_one { is_peer_kind (plain m.now.body) ≡ true }
    requires signed_two { is_peer_kind (plain n.now.body) ≡ true }
    ensures { option_map plain_fault result ≡ fault_of_two session.now (digests_of table.now.lists)
        (datagram session.now.shape m.now) (datagram session.now.shape n.now) }
{
    if is_leaf_twice(session, verifier, m, n) {
        return Some(Fault::F7);
    }
    fault_of_messages(session, table, m, n)
}

/// The fault that one or two datagrams show. They must be of kinds that peers sign, of one sender, and with accepted signatures. The result
/// is the fault of the verdict on their bytes, and `None` if and only if that verdict shows none. It counts the steps along the seeds.
#[tactic(auto, using(bar_seeds::proofs::CheckpointLemmas::moves_none))]
pub fn found<V: Verifier, L: Ledger>(
    session: &Session,
    verifier: &V,
    table: &Table,
    one: &View<'_>,
    two: Option<&View<'_>>,
    points: &mut Checkpoints,
    steps: &mut Steps<L>,
) -> Option<Fault>
    requires leaves { NamesLeavesOf session.now (V.leaf_named verifier.now) (V.signature_len verifier.now) }
    requires one { IsRead session.now.shape one.now }
    requires two { IfSome two (λ v. IsRead session.now.shape v.now) }
    requires signed_one { is_peer_kind (plain one.now.body) ≡ true }
    requires signed_two { IfSome two (λ v. is_peer_kind (plain v.now.body) ≡ true) }
    requires points { AreSeeds session.now points.old }
    ensures exact { option_map plain_fault result
        ≡ fault_of session.now (digests_of table.now.lists) (datagrams session.now.shape one.now two.entry) }
    ensures cost { steps.new ≤ steps.old + choice_round_alone (plain one.now.body) two.entry }
    ensures kept { AreSeeds session.now points.new }
    ensures moves { MovesOn one.now.from points.old points.new }
    ensures pair { IsSome two.entry → points.new ≡ points.old }
{
    match two {
        None => found_in_one(session, table, one, points, steps),
        Some(two) => fault_of_two(session, verifier, table, one, two),
    }
}
