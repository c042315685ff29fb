//! What an auditor reports.
ghost use Rattle.std.specs.Prelude.{◌≡◌, ℕ, None, List, IsTrue, length, option_map, slice_get, true};
ghost use Rattle.bar_window.specs.declared.exchange.Exchange.{Exchange as AnyExchange};
ghost use Rattle.bar_window.specs.declared.exchange.Role.{Role as AnyRole};
ghost use Rattle.bar_rules.specs.Member.{Session};
ghost use Rattle.bar_audit.specs.Audits.{Audits};
ghost use Rattle.bar_audit.specs.Exchanges.{is_recorded, line_of, unbalanced};
ghost use Rattle.bar_audit.specs.Code.Found.{has_key_from};
ghost use Rattle.bar_audit.specs.Laws.{HoldsPartners};
ghost use Rattle.bar_audit.specs.Recordings.{Recording};
ghost use Rattle.bar_audit.specs.Runs.{AreOfRuns};

use crate::audit::Audit;
use crate::laws::{keys_are_paid, runs_are_balanced};
use crate::line::Line;
use crate::side::Side;
use bar_window::{Exchange, Role};

impl Audit {
    /// How many exchanges are recorded.
    pub fn len(&self) -> u32
        ensures { result ≡ length self.now.recorded.items }
    {
        self.recorded.len() as u32
    }

    /// The report on a recorded exchange, by its number from 0 in their order; `None` if and only if the number is past the last.
    pub fn line(&self, k: u32) -> Option<Line>
        ensures { (s : Session) (recordings : List Recording) → Audits s recordings self.now
            → result ≡ option_map (line_of s recordings) (slice_get self.now.recorded.items k) }
    {
        let x = *self.recorded.get(k as usize)?;
        let first = Side {
            x,
            role: Role::Initiator,
        };
        let second = Side {
            x,
            role: Role::Responder,
        };
        Some(Line {
            x,
            cases: [self.found.items(first), self.found.items(second)],
            keys: [self.found.has_key(first), self.found.has_key(second)],
        })
    }

    /// The first of the recorded exchanges that isn't balanced; `None` if and only if all are.
    ///
    /// If it is `None`, each party whose key was received in a recorded exchange holds its partner's briefcase, by whose terms both sides
    /// promise equally many items. If the party's own briefcase was received, it has the same terms. It is `None` if each recording lists
    /// the inputs of a run of its party, and everything in the recordings that has an accepted signature of one of these parties was signed
    /// by it.
    pub fn unbalanced(&self) -> Option<Exchange>
        ensures first { (s : Session) (recordings : List Recording) → Audits s recordings self.now
            → result ≡ unbalanced s recordings self.now.recorded.items }
        ensures paid { (s : Session) (recordings : List Recording) (x : AnyExchange) (role : AnyRole) → Audits s recordings self.now
            → result ≡ None → IsTrue (is_recorded s recordings x) → has_key_from s recordings x role ≡ true
            → HoldsPartners s recordings x role }
        ensures of_runs { (s : Session) (secrets : ℕ → List ℕ) (recordings : List Recording) → Audits s recordings self.now
            → AreOfRuns s secrets recordings → result ≡ None }
    {
        keys_are_paid();
        runs_are_balanced();
        for x in &self.recorded {
            if !self.found.is_balanced(*x) {
                return Some(*x);
            }
        }
        None
    }
}
