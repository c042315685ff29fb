//! Reading the head and the manifests of a proof file.
ghost use Rattle.std.specs.Prelude.{◌≡◌, ◌⊎◌, ◌+◌, ◌*◌, ◌≤◌, Ok, Err, IfOk, IfErr, drop, slice_index, true};
ghost use Rattle.bar_terms.specs.Table.{Lists, digests_of};
ghost use Rattle.bar_rules.specs.Verifiers.{IsVerifierOf};
ghost use Rattle.bar_proof.specs.ProofFile.{has_head, counted_lists};

use crate::ProofFault;
use bar_bytes::Steps;
use bar_judge::{First, first_of, list_after};
use bar_roster::Session;
use bar_seal::Verifier;
use bar_terms::Table;
use std::alloc::Global;
use std::sync::ledger::Ledger;

/// The letters BARP and the version, with which a proof file begins.
pub(crate) const LETTERS: [u8; 5] = [b'B', b'A', b'R', b'P', 1];

/// How many bytes precede the manifests: the letters, the version and the count.
const HEAD_LEN: usize = 6;

/// The most manifests of a proof file.
const MOST_MANIFESTS: u8 = 16;

/// Whether bytes begin with the letters, the version and a count that isn't too high.
pub(crate) fn has_head(bytes: &[u8]) -> bool
    ensures { result ≡ has_head bytes.now }
{
    bytes.len() >= HEAD_LEN && bytes[..5] == LETTERS[..] && bytes[5] <= MOST_MANIFESTS
}

/// The table of a proof file's manifests, and what follows them, or the first fault of a manifest. It counts each hash: each manifest has
/// at most one verification.
pub(crate) fn read_manifests<'a, V: Verifier, L: Ledger>(
    alloc: Global,
    session: &Session,
    verifier: &V,
    bytes: &'a [u8],
    steps: &mut Steps<L>,
) -> Result<(Table, &'a [u8]), ProofFault>
    requires verifier { IsVerifierOf session.now (V.is_accepted verifier.now) }
    requires head { has_head bytes.now ≡ true }
    ensures ok { IfOk result (λ r. (lists : Lists) × (digests_of r.0.lists ≡ digests_of lists)
        × (counted_lists (slice_index bytes.now 5) session.now 0 6 (drop 6 bytes.now) ≡ Ok (lists, r.1.now))) }
    ensures err { IfErr result (λ f. (f ≡ ProofFault.NoMemory)
        ⊎ (counted_lists (slice_index bytes.now 5) session.now 0 6 (drop 6 bytes.now) ≡ Err f)) }
    ensures cost { steps.new ≤ steps.old + session.now.shape.rounds * V.most_steps verifier.now }
{
    let shape = session.shape();
    let mut table = Table::make(alloc, shape.rounds, shape.per_round)?;
    let mut rest = &bytes[HEAD_LEN..];
    let mut last: u32 = 0;
    'entries: for _ in 0..bytes[5] {
        let at = (bytes.len() - rest.len()) as u64;
        let First::Entry(manifest, others) = first_of(rest) else {
            return Err(ProofFault::BadManifest { at });
        };
        let Some((round, digests)) = list_after(session, verifier, last, manifest, steps) else {
            return Err(ProofFault::BadManifest { at });
        };
        table.extend(round, digests);
        last = round;
        rest = others;
    }
    Ok((table, rest))
}
