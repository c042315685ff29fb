//! What all inputs of a party's recording add.
ghost use Rattle.std.specs.Prelude.{◌+◌, ◌*◌, ◌≤◌, OnOk};
ghost use Rattle.bar_record.specs.Code.Inputs.{inputs_left};
ghost use Rattle.bar_rules.specs.Verifiers.{IsVerifierOf};
ghost use Rattle.bar_audit.specs.Code.Findings.{AreKeptWindows, KeepsExchanges};
ghost use Rattle.bar_audit.specs.Code.Given.{GivesCases, GivesKeys, told};

use crate::findings::{Findings, NoMemory};
use crate::giving::give;
use bar_bytes::Steps;
use bar_record::Items;
use bar_roster::Session;
use bar_seal::Verifier;
use bar_wire::Input;
use std::sync::ledger::Ledger;

/// Keeps what the inputs of a party's recording show of the sides that sent to it. Each CASE and KEY to the party has at most one
/// verification, whose hashes are counted.
pub(crate) fn give_all<V: Verifier, L: Ledger>(
    found: &mut Findings,
    session: &Session,
    verifier: &V,
    party: u16,
    items: Items<'_>,
    steps: &mut Steps<L>,
) -> Result<(), NoMemory>
    requires verifier { IsVerifierOf session.now (V.is_accepted verifier.now) }
    ensures cases { OnOk result (GivesCases session.now party (inputs_left items.entry) found.old.cases.entries found.new.cases.entries) }
    ensures keys { OnOk result (GivesKeys session.now party (inputs_left items.entry) found.old.keys.keys found.new.keys.keys) }
    ensures windows { OnOk result (AreKeptWindows session.now found.old.cases.entries →
        AreKeptWindows session.now found.new.cases.entries) }
    ensures exchanges { OnOk result (KeepsExchanges found.old → KeepsExchanges found.new) }
    ensures cost { steps.new ≤ steps.old + told session.now party (inputs_left items.entry) * V.most_steps verifier.now }
{
    for input in items {
        if let Input::Datagram(bytes) = input {
            give(found, session, verifier, party, bytes, steps)?;
        }
    }
    Ok(())
}
