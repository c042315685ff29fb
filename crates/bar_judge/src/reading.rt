//! Reading a table file.
ghost use Rattle.std.specs.Prelude.{◌≡◌, ◌⊎◌, ◌+◌, ◌*◌, ◌≤◌, Err, IfOk, IfErr};
ghost use Rattle.bar_terms.specs.Table.{digests_of};
ghost use Rattle.bar_rules.specs.Verifiers.{IsVerifierOf};
ghost use Rattle.bar_judge.specs.TableFile.{table_of, HasLists};

use crate::TableFault;
use crate::entries::{First, first_of};
use crate::listing::list_after;
use bar_bytes::Steps;
use bar_roster::Session;
use bar_seal::Verifier;
use bar_terms::Table;
use std::alloc::Global;
use std::sync::ledger::Ledger;

/// Reads a table file of a session, or reports the place of its first bad entry. It counts each hash: a round has at most one verification.
pub fn read_table<V: Verifier, L: Ledger>(
    alloc: Global,
    bytes: &[u8],
    session: &Session,
    verifier: &V,
    steps: &mut Steps<L>,
) -> Result<Table, TableFault>
    requires { IsVerifierOf session.now (V.is_accepted verifier.now) }
    ensures ok { IfOk result (λ t. HasLists (table_of session.now bytes.now) (digests_of t.lists)) }
    ensures err { IfErr result (λ e. (e ≡ TableFault.NoMemory) ⊎ (table_of session.now bytes.now ≡ Err e)) }
    ensures room { IfOk result (λ t. (t.rounds ≡ session.now.shape.rounds) × (t.per_round ≡ session.now.shape.per_round)) }
    ensures cost { steps.new ≤ steps.old + session.now.shape.rounds * V.most_steps verifier.now }
{
    let shape = session.shape();
    let mut table = Table::make(alloc, shape.rounds, shape.per_round)?;
    let mut rest = bytes;
    let mut last: u32 = 0;
    'entries: for _ in 0..bytes.len() + 1 {
        let at = (bytes.len() - rest.len()) as u64;
        let (manifest, others) = match first_of(rest) {
            First::NoByte => return Ok(table),
            First::NoEntry => return Err(TableFault::BadEntry { at }),
            First::Entry(manifest, others) => (manifest, others),
        };
        let Some((round, digests)) = list_after(session, verifier, last, manifest, steps) else {
            return Err(TableFault::BadEntry { at });
        };
        table.extend(round, digests);
        last = round;
        rest = others;
    }
    let at = (bytes.len() - rest.len()) as u64;
    Err(TableFault::BadEntry { at })
}
