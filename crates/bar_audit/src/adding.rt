//! Adding recordings.
ghost use Rattle.std.specs.Prelude.{◌≡◌, ◌+◌, ◌*◌, ◌≤◌, ◌↔◌, ◌++◌, [], ◌∷◌, List, IsTrue, IfOk, Err};
ghost use Rattle.bar_record.specs.Code.Inputs.{inputs_left};
ghost use Rattle.bar_rules.specs.Member.{Session as RulesSession};
ghost use Rattle.bar_rules.specs.Verifiers.{IsVerifierOf};
ghost use Rattle.bar_audit.specs.Audits.{Audits};
ghost use Rattle.bar_audit.specs.Code.Given.{told};
ghost use Rattle.bar_audit.specs.Recordings.{Recording, is_given};

use crate::audit::Audit;
use crate::fault::AuditFault;
use crate::findings::Findings;
use crate::recorded::list_recorded;
use crate::recording::give_all;
use bar_bytes::Steps;
use bar_record::Items;
use bar_roster::Session;
use bar_seal::Verifier;
use std::alloc::Global;
use std::collections::{BTreeMap, BTreeSet};
use std::sync::ledger::Ledger;

impl Audit {
    /// An auditor that was given no recording. It allocates no memory.
    pub fn make(alloc: Global) -> Audit
        ensures { (s : RulesSession) → Audits s [] result }
    {
        Audit {
            parties: BTreeSet::new(alloc),
            found: Findings {
                cases: BTreeMap::new(alloc),
                keys: BTreeSet::new(alloc),
                exchanges: BTreeSet::new(alloc),
            },
            recorded: Vec::new(alloc),
        }
    }

    /// Adds the recording of a party, which must be of the same session as the others. Each CASE and KEY to the party has at most one
    /// verification, whose hashes are counted.
    ///
    /// # Errors
    ///
    /// `Twice` if and only if this party was added before; `NoMemory` if memory is refused. Then the auditor is not returned.
    pub fn add<V: Verifier, L: Ledger>(
        self,
        session: &Session,
        verifier: &V,
        party: u16,
        items: Items<'_>,
        steps: &mut Steps<L>,
    ) -> Result<Audit, AuditFault>
        requires verifier { IsVerifierOf session.now (V.is_accepted verifier.now) }
        ensures added { IfOk result (λ audit. (recordings : List Recording) → Audits session.now recordings self →
            Audits session.now (recordings ++ (record { party = party; inputs = inputs_left items.entry }) ∷ []) audit) }
        ensures twice { (s : RulesSession) (recordings : List Recording) → Audits s recordings self →
            (result ≡ Err AuditFault.Twice) ↔ IsTrue (is_given recordings party) }
        ensures cost { steps.new ≤ steps.old + told session.now party (inputs_left items.entry) * V.most_steps verifier.now }
    {
        let Audit {
            mut parties,
            mut found,
            mut recorded,
        } = self;
        if !parties.insert(party)? {
            return Err(AuditFault::Twice);
        }
        give_all(&mut found, session, verifier, party, items, steps)?;
        list_recorded(&mut recorded, &found.exchanges, &parties)?;
        Ok(Audit {
            parties,
            found,
            recorded,
        })
    }
}
