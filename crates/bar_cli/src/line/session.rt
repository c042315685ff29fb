//! The arguments of `session`.
ghost use Rattle.std.specs.Prelude.{◌≡◌};
ghost use Rattle.std.specs.Option.{option_map};
ghost use Rattle.bar_arguments.specs.Options.{texts};
ghost use Rattle.bar_cli.specs.Line.{session_values};
ghost use Rattle.bar_cli.specs.Code.Views.{session_view};

use bar_arguments::number_in;
use bar_child_processes::SessionNames;

pub(super) const SESSION_OPTIONS: [&str; 6] = [
    "session", "keys", "stream", "begin", "results", "program",
];

/// The arguments of a session, from the values of its options. The time is passed on as text.
pub(super) fn session_of<'a>(values: &[&'a str]) -> Option<SessionNames<'a>>
    ensures { option_map session_view result ≡ session_values (texts values.now) }
{
    let [session, keys, stream, begin, results, program] = *values else {
        return None;
    };
    number_in(begin, 0, u64::MAX)?;
    Some(SessionNames {
        session,
        keys,
        stream,
        begin,
        results,
        program,
    })
}
