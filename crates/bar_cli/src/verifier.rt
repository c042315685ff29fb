//! Verification of a session's signatures.
ghost use Rattle.bar_rules.specs.Verifiers.{IsVerifierOf, NamesLeavesOf};
ghost use Rattle.bar_hss.specs.Chosen.{accepted_with, leaf_with, length_with};

use bar_hss::SessionVerifier;
use bar_roster::Session;

/// The verifier of a session's signatures.
pub(crate) fn verifier_of(session: &Session) -> SessionVerifier
    ensures verifies { IsVerifierOf session.now (accepted_with result) }
    ensures names { NamesLeavesOf session.now (leaf_with result) (length_with result) }
{
    let _ = session.shape();
    SessionVerifier::of(session)
}
