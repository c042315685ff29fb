ghost use Rattle.std.specs.Prelude.{◌≡◌, ◌+◌, ◌≤◌, ℕ, List, length, IfOk, IfErr, IsOkAnd, MatchResult};
ghost use Rattle.bar_wire.specs.Evidence.{datagrams_of, IsEvidence, IsEvidenceFault, IsEntrySplit};
ghost use Rattle.bar_bytes.specs.Bytes.{first_u16};

use crate::entries::{are_datagrams_in_range, has_entries};
use crate::fault::WireFault;
use bar_bytes::{split_u8, split_u16};

/// The one or two datagrams that an EVIDENCE contains.
#[derive(Clone, Copy, Debug)]
pub struct EvidenceView<'a> {
    pub one: &'a [u8],
    pub two: Option<&'a [u8]>,
}

/// The first datagram of a list, and the bytes after it.
fn split_entry(bytes: &[u8]) -> (&[u8], &[u8])
    requires { 2 + first_u16 bytes.now ≤ length bytes.now }
    ensures { IsEntrySplit bytes.now result.0.now result.1.now }
{
    let (len, rest) = split_u16(bytes);
    rest.split_at(usize::from(len))
}

fn read_evidence(bytes: &[u8]) -> Result<EvidenceView<'_>, WireFault>
    ensures { MatchResult result (λ v. IsEvidence bytes.now (datagrams_of v)) (IsEvidenceFault bytes.now) }
{
    if bytes.is_empty() {
        return Err(WireFault::BadLength);
    }
    let (count, rest) = split_u8(bytes);
    if !has_entries(count, rest) {
        return Err(WireFault::BadLength);
    }
    if !are_datagrams_in_range(count, rest) {
        return Err(WireFault::BadField);
    }
    let (one, rest) = split_entry(rest);
    if count == 1 {
        return Ok(EvidenceView { one, two: None });
    }
    let (two, _) = split_entry(rest);
    Ok(EvidenceView {
        one,
        two: Some(two),
    })
}

/// The datagrams of the body of an EVIDENCE: its count, and each datagram after its length. Allocates no memory.
///
/// # Errors
///
/// BadLength if the number of bytes isn't the one that the count and the lengths give, or a count or length is missing. Otherwise BadField
/// if the count isn't 1 or 2, or a length isn't 1 to 65,507.
pub fn split_evidence(bytes: &[u8]) -> Result<EvidenceView<'_>, WireFault>
    // The datagrams found are those that the bytes encode.
    ensures found { IfOk result (λ v. IsEvidence bytes.now (datagrams_of v)) }
    // If the bytes encode datagrams, these are found.
    ensures only { (ds : List (List ℕ)) → IsEvidence bytes.now ds → IsOkAnd result (λ v. datagrams_of v ≡ ds) }
    // An error is the first fault that applies.
    ensures fault { IfErr result (IsEvidenceFault bytes.now) }
{
    read_evidence(bytes)
}
