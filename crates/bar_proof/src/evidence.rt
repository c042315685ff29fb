//! The datagrams of evidence, read from bytes.
ghost use Rattle.std.specs.Prelude.{◌≡◌, option_map};
ghost use Rattle.bar_wire.specs.Evidence.{datagrams_of};
ghost use Rattle.bar_proof.specs.ProofFile.{evidence_of};

use bar_wire::{EvidenceView, split_evidence};

/// The one or two datagrams that some bytes encode as evidence.
pub fn read_evidence(bytes: &[u8]) -> Option<EvidenceView<'_>>
    ensures { option_map datagrams_of result ≡ evidence_of bytes.now }
{
    split_evidence(bytes).ok()
}
