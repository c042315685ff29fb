//! Tests of the judge with a proof file of an independent implementation.
ghost use Rattle.std.specs.Prelude.{◌≡◌, ◌<◌};

mod vectors;

use crate::verdict_tests::session_of;
use bar_bytes::Steps;
use bar_hss::SessionVerifier;
use bar_judge::Verdict;
use bar_proof::{PackFault, ProofFault, judge_proof, pack};
use bar_roster::Session;
use std::alloc::{AllocError, Global};
use std::marker::Brand;
use std::sync::ledger::{Blank, Ledger};
use std::test::Fail;
use vectors::{PROOF, SESSION};

fn packed_with<L: Ledger>(
    alloc: Global,
    session: &Session,
    table: &[u8],
    evidence: &[u8],
    blank: Blank,
) -> Result<Vec<u8>, PackFault>
    requires name { blank.name ≡ L.name }
    requires parts { blank.parts ≡ L.parts }
    requires some { 0 < L.parts }
{
    let _ = session.shape();
    let verifier = SessionVerifier::of(session);
    let mut steps = Steps::<L>::new(blank);
    pack(alloc, session, &verifier, table, evidence, &mut steps)
}

fn packed(
    alloc: Global,
    session: &Session,
    table: &[u8],
    evidence: &[u8],
) -> Result<Vec<u8>, PackFault> {
    packed_with::<Brand>(alloc, session, table, evidence, Blank::new(1))
}

fn judged_with<L: Ledger>(
    alloc: Global,
    session: &Session,
    bytes: &[u8],
    blank: Blank,
) -> Result<Verdict, ProofFault>
    requires name { blank.name ≡ L.name }
    requires parts { blank.parts ≡ L.parts }
    requires some { 0 < L.parts }
{
    let _ = session.shape();
    let verifier = SessionVerifier::of(session);
    judge_proof(
        alloc,
        session,
        &verifier,
        bytes,
        &mut Steps::<L>::new(blank),
    )
}

fn judged(alloc: Global, session: &Session, bytes: &[u8]) -> Result<Verdict, ProofFault> {
    judged_with::<Brand>(alloc, session, bytes, Blank::new(1))
}

/// The line of the verdict on a proof file, or its fault.
fn line(alloc: Global, session: &Session, bytes: &[u8]) -> Result<String, AllocError> {
    match judged(alloc, session, bytes) {
        Ok(verdict) => format!(in alloc; "{verdict}"),
        Err(fault) => format!(in alloc; "{fault:?}"),
    }
}

#[test]
fn a_proof_of_others_is_judged_and_packed(rt: HostRuntime) -> Result<(), Fail> {
    let alloc = rt.alloc();
    let session = session_of(alloc, SESSION)?;
    let proof = hex::decode(alloc, PROOF)?;
    assert_eq!(rt; line(alloc, &session, &proof)?.as_str(), "party 3 fault F2");
    let table = proof.get(6..1_673).unwrap_or(b"");
    let evidence = proof.get(1_673..).unwrap_or(b"");
    assert_eq!(rt; packed(alloc, &session, table, evidence)?, proof);
    Ok(())
}
