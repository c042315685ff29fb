//! The faults that one datagram shows.
ghost use Rattle.std.specs.Prelude.{◌≡◌, ◌+◌, ◌≤◌, false, option_map};
ghost use Rattle.std.specs.Option.{option_map_or};
ghost use Rattle.bar_terms.specs.Table.{digests_of};
ghost use Rattle.bar_wire.specs.Bodies.{briefcase_in, choice_in};
ghost use Rattle.bar_seeds.specs.Code.Checkpoints.{MovesOn};
ghost use Rattle.bar_session.specs.Points.{AreSeeds};
ghost use Rattle.bar_wire.specs.Bodies.{choice_round};
ghost use Rattle.bar_wire.specs.Code.Views.{datagram, plain};
ghost use Rattle.bar_rules.specs.Judge.Verdict.{bad_terms, fault_of_one, wrong_partner};
ghost use Rattle.bar_judge.specs.Code.Parts.{IsRead};
ghost use Rattle.bar_judge.specs.Code.Verdicts.{plain_fault};

use crate::briefcase::briefcase_of;
use crate::choice::choice_of;
use crate::fault::Fault;
use crate::opening::has_counts;
use bar_bytes::Steps;
use bar_roster::Session;
use bar_seeds::Checkpoints;
use bar_terms::laws::valid_terms_can_promise;
use bar_terms::{Table, terms_ok};
use bar_wire::View;
use std::sync::ledger::Ledger;

/// Whether the datagram is a CASE whose terms aren't valid under the table, or whose counts aren't those of its sender's promise.
fn has_bad_terms(session: &Session, table: &Table, view: &View<'_>) -> bool
    requires read { IsRead session.now.shape view.now }
    ensures { result ≡ option_map_or (bad_terms session.now (digests_of table.now.lists) (datagram session.now.shape view.now).message)
        (briefcase_in (plain view.now.body)) false }
{
    valid_terms_can_promise();
    let Some(case) = briefcase_of(view) else {
        return false;
    };
    let shape = session.shape();
    let cap = session.cap();
    let x = case.exchange(view.from, view.to);
    if !terms_ok(&case.terms, x, cap, shape.life, table) {
        return true;
    }
    !has_counts(&case, cap)
}

/// Whether the datagram is a REQUEST or a QUERY whose seed isn't its sender's of the round, or that isn't sent to the peer that the seed
/// chooses. It counts the steps along the seeds.
fn has_wrong_partner<L: Ledger>(session: &Session, view: &View<'_>, steps: &mut Steps<L>) -> bool
    requires read { IsRead session.now.shape view.now }
    ensures exact { result ≡ option_map_or (wrong_partner session.now (datagram session.now.shape view.now).message)
        (choice_in (plain view.now.body)) false }
    ensures cost { steps.new ≤ steps.old + session.now.shape.rounds }
{
    let Some(choice) = choice_of(view) else {
        return false;
    };
    if !session.is_seed(view.from, choice.round, choice.seed, steps) {
        return true;
    }
    session.partner_of(view.from, choice.seed, choice.kind) != view.to
}

/// What one datagram shows. It counts the steps along the seeds.
pub(crate) fn fault_of_one<L: Ledger>(
    session: &Session,
    table: &Table,
    view: &View<'_>,
    steps: &mut Steps<L>,
) -> Option<Fault>
    requires read { IsRead session.now.shape view.now }
    ensures exact { option_map plain_fault result
        ≡ fault_of_one session.now (digests_of table.now.lists) (datagram session.now.shape view.now) }
    ensures cost { steps.new ≤ steps.old + session.now.shape.rounds }
{
    if has_bad_terms(session, table, view) {
        return Some(Fault::F2);
    }
    if has_wrong_partner(session, view, steps) {
        return Some(Fault::F3);
    }
    None
}

/// Whether the datagram is a REQUEST or a QUERY whose seed isn't its sender's of the round, or that isn't sent to the peer that the seed
/// chooses, using the checkpoints of the peers' seeds. It counts the steps along the seeds.
#[tactic(auto, using(bar_seeds::proofs::CheckpointLemmas::moves_none))]
fn shows_wrong_partner<L: Ledger>(
    session: &Session,
    view: &View<'_>,
    points: &mut Checkpoints,
    steps: &mut Steps<L>,
) -> bool
    requires read { IsRead session.now.shape view.now }
    requires points { AreSeeds session.now points.old }
    ensures exact { result ≡ option_map_or (wrong_partner session.now (datagram session.now.shape view.now).message)
        (choice_in (plain view.now.body)) false }
    ensures cost { steps.new ≤ steps.old + choice_round (plain view.now.body) }
    ensures kept { AreSeeds session.now points.new }
    ensures moves { MovesOn view.now.from points.old points.new }
{
    let Some(choice) = choice_of(view) else {
        return false;
    };
    if !session.is_known_seed(view.from, choice.round, choice.seed, points, steps) {
        return true;
    }
    session.partner_of(view.from, choice.seed, choice.kind) != view.to
}

/// What one datagram shows, using the checkpoints of the peers' seeds. It counts the steps along the seeds.
#[tactic(auto, using(bar_seeds::proofs::CheckpointLemmas::moves_none))]
pub(crate) fn found_in_one<L: Ledger>(
    session: &Session,
    table: &Table,
    view: &View<'_>,
    points: &mut Checkpoints,
    steps: &mut Steps<L>,
) -> Option<Fault>
    requires read { IsRead session.now.shape view.now }
    requires points { AreSeeds session.now points.old }
    ensures exact { option_map plain_fault result
        ≡ fault_of_one session.now (digests_of table.now.lists) (datagram session.now.shape view.now) }
    ensures cost { steps.new ≤ steps.old + choice_round (plain view.now.body) }
    ensures kept { AreSeeds session.now points.new }
    ensures moves { MovesOn view.now.from points.old points.new }
{
    if has_bad_terms(session, table, view) {
        return Some(Fault::F2);
    }
    if shows_wrong_partner(session, view, points, steps) {
        return Some(Fault::F3);
    }
    None
}
