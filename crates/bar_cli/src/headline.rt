//! The headline for every peer, derived from the laws of its rules.
ghost use Rattle.bar_laws.specs.Always.{OfEachPeer};
ghost use Rattle.bar_cli.specs.Headline.{KeepsTheRules};

use bar_laws::again::briefcases_are_said_again;
use bar_laws::balance::balanced;
use bar_laws::broadcasting::manifests_are_said_again;
use bar_laws::debts::who_owes_is_not_served;
use bar_laws::evidence::{bad_keys_leave_evidence, kept_evidence_is_shown};
use bar_laws::framing::no_framing;
use bar_laws::leaves::leaf_discipline;
use bar_laws::obedience::signed_by_rule;

/// Every peer keeps the rules, whatever inputs it takes.
pub(crate) fn peers_keep_the_rules()
    ensures { OfEachPeer KeepsTheRules }
{
    bad_keys_leave_evidence();
    balanced();
    briefcases_are_said_again();
    kept_evidence_is_shown();
    leaf_discipline();
    manifests_are_said_again();
    no_framing();
    signed_by_rule();
    who_owes_is_not_served();
}
