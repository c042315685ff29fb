//! Packing evidence. Steps are counted, but the count isn't used.
ghost use Rattle.std.specs.Prelude.{◌≡◌, ◌<◌, IfOk, IfErr};
ghost use Rattle.bar_proof.specs.Packing.{IsPacked, IsRefused};

use crate::verifier::verifier_of;
use bar_bytes::Steps;
use bar_proof::{PackFault, pack};
use bar_roster::Session;
use std::alloc::Global;
use std::marker::Brand;
use std::sync::ledger::{Blank, Ledger};

fn pack_counted<L: Ledger>(
    alloc: Global,
    session: &Session,
    table: &[u8],
    evidence: &[u8],
    blank: Blank,
) -> Result<Vec<u8>, PackFault>
    requires name { blank.name ≡ L.name }
    requires parts { blank.parts ≡ L.parts }
    requires some { 0 < L.parts }
    ensures ok { IfOk result (λ file. IsPacked session.now table.now evidence.now file.items) }
    ensures err { IfErr result (IsRefused session.now table.now evidence.now) }
{
    let verifier = verifier_of(session);
    pack(
        alloc,
        session,
        &verifier,
        table,
        evidence,
        &mut Steps::<L>::new(blank),
    )
}

/// The proof file for evidence that shows a fault under the table of a file.
pub fn pack_evidence(
    alloc: Global,
    session: &Session,
    table: &[u8],
    evidence: &[u8],
) -> Result<Vec<u8>, PackFault>
    ensures ok { IfOk result (λ file. IsPacked session.now table.now evidence.now file.items) }
    ensures err { IfErr result (IsRefused session.now table.now evidence.now) }
{
    pack_counted::<Brand>(alloc, session, table, evidence, Blank::new(1))
}
