//! Looking for a manifest in a table file.
ghost use Rattle.std.specs.Prelude.{◌≡◌, ℕ, List, find, option_copied};
ghost use Rattle.bar_judge.specs.TableFile.{table_bytes};
ghost use Rattle.bar_rules.specs.Member.{Session as RulesSession};
ghost use Rattle.bar_proof.specs.ProofFile.{AreShort, is_of_round};

use bar_judge::{First, first_of};
use bar_roster::Session;
use bar_wire::{Body, Shape, decode};

/// Whether bytes encode the MANIFEST of a round.
fn is_of_round(shape: &Shape, bytes: &[u8], round: u32) -> bool
    ensures { (s : RulesSession) → s.shape ≡ shape.now → result ≡ is_of_round s round bytes.now }
{
    match decode(bytes, shape) {
        Ok(view) => matches!(view.body, Body::Manifest { round: own, .. } if own == round),
        Err(_) => false,
    }
}

/// The first MANIFEST of a round in a table file.
pub(crate) fn manifest_of<'a>(session: &Session, table: &'a [u8], round: u32) -> Option<&'a [u8]>
    ensures { (manifests : List (List ℕ)) → AreShort manifests → table.now ≡ table_bytes manifests
        → option_copied result ≡ find (is_of_round session.now round) manifests }
{
    let shape = session.shape();
    let mut rest = table;
    'entries: for _ in 0..table.len() + 1 {
        let First::Entry(manifest, others) = first_of(rest) else {
            return None;
        };
        if is_of_round(&shape, manifest, round) {
            return Some(manifest);
        }
        rest = others;
    }
    None
}
