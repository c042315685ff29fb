//! Writing a proof file.
ghost use Rattle.std.specs.Prelude.{◌≡◌, ◌≤◌, IfOk, IfSome, length, option_copied};
ghost use Rattle.std.specs.Option.{option_to_list};
ghost use Rattle.bar_proof.specs.ProofFile.{file_bytes};

use crate::reading::LETTERS;
use bar_judge::add_entry;
use std::alloc::{AllocError, Global};

/// The proof file of a manifest, if there is one, and of evidence.
pub(crate) fn proof_file(
    alloc: Global,
    manifest: Option<&[u8]>,
    evidence: &[u8],
) -> Result<Vec<u8>, AllocError>
    requires { IfSome (option_copied manifest) (λ m. length m ≤ 65535) }
    ensures { IfOk result (λ file. file.items ≡ file_bytes (option_to_list (option_copied manifest.entry)) evidence.now) }
{
    let mut file = Vec::new(alloc);
    file.extend_from_slice(&LETTERS)?;
    file.push(u8::from(manifest.is_some()))?;
    if let Some(manifest) = manifest {
        add_entry(&mut file, manifest)?;
    }
    file.extend_from_slice(evidence)?;
    Ok(file)
}
