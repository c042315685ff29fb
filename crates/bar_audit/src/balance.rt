//! Whether an exchange is balanced.
ghost use Rattle.std.specs.Prelude.{◌≡◌};
ghost use Rattle.std.specs.Option.{option_map_or};
ghost use Rattle.bar_rules.specs.Member.{Session};
ghost use Rattle.bar_audit.specs.Code.Balance.{is_balanced_by, is_paid_by};
ghost use Rattle.bar_audit.specs.Code.Findings.{AreKeptWindows, case_at};

use crate::findings::Findings;
use crate::side::Side;
use bar_window::{Exchange, Role};

impl Findings {
    /// How many items the first CASE of a side promises, or 0.
    pub fn items(&self, side: Side) -> u8
        ensures { result ≡ option_map_or (λ p. p.items) (case_at self.now.cases.entries side) 0 }
    {
        match self.case(side) {
            Some(kept) => kept.items,
            None => 0,
        }
    }

    /// Whether a side whose KEY was received has received the other side's CASE, with the same terms as its own one if that was received.
    fn is_paid(&self, x: Exchange, role: Role) -> bool
        ensures { (s : Session) → AreKeptWindows s self.now.cases.entries → result ≡ is_paid_by self.now x role }
    {
        if !self.has_key(Side { x, role }) {
            return true;
        }
        let other = role.other();
        let Some(theirs) = self.case(Side { x, role: other }) else {
            return false;
        };
        match self.case(Side { x, role }) {
            Some(ours) => ours.terms == theirs.terms,
            None => true,
        }
    }

    /// Whether both sides are paid.
    pub fn is_balanced(&self, x: Exchange) -> bool
        ensures { (s : Session) → AreKeptWindows s self.now.cases.entries → result ≡ is_balanced_by self.now x }
    {
        self.is_paid(x, Role::Initiator) && self.is_paid(x, Role::Responder)
    }
}
