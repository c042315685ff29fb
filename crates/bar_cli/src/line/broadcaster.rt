//! The arguments of `broadcaster`.
ghost use Rattle.std.specs.Prelude.{◌≡◌};
ghost use Rattle.std.specs.Option.{option_map};
ghost use Rattle.bar_arguments.specs.Options.{texts};
ghost use Rattle.bar_cli.specs.Line.{broadcaster_values};
ghost use Rattle.bar_cli.specs.Code.Views.{broadcaster_view};

use bar_arguments::number_in;
use bar_party_commands::CasterNames;

pub(super) const BROADCASTER_OPTIONS: [&str; 5] = ["session", "key", "begin", "stream", "found"];

/// The names of a broadcaster's files and its time, from the values of its options.
pub(super) fn broadcaster_of<'a>(values: &[&'a str]) -> Option<CasterNames<'a>>
    ensures { option_map broadcaster_view result ≡ broadcaster_values (texts values.now) }
{
    let [session, key, begin, stream, found] = *values else {
        return None;
    };
    Some(CasterNames {
        session,
        key,
        begin_ms: number_in(begin, 0, u64::MAX)?,
        stream,
        found,
    })
}
