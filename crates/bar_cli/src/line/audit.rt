//! The arguments of `audit`.
ghost use Rattle.std.specs.Prelude.{◌≡◌};
ghost use Rattle.std.specs.Option.{option_map};
ghost use Rattle.bar_arguments.specs.Options.{texts};
ghost use Rattle.bar_cli.specs.Line.{audit_values};
ghost use Rattle.bar_cli.specs.Code.Views.{audited_view};

use crate::audit::names::AuditNames;
use bar_arguments::number_in;
use bar_roster::MOST_PEERS;

pub(super) const AUDIT_OPTIONS: [&str; 4] = ["session", "results", "first", "last"];

/// The files of an audit and its parties, from the values of its options.
pub(super) fn audit_of<'a>(values: &[&'a str]) -> Option<AuditNames<'a>>
    ensures { option_map audited_view result ≡ audit_values (texts values.now) }
{
    let [session, results, first, last] = *values else {
        return None;
    };
    Some(AuditNames {
        session,
        results,
        first: number_in(first, 0, MOST_PEERS)? as u16,
        last: number_in(last, 0, MOST_PEERS)? as u16,
    })
}
