//! The arguments of `replay`.
ghost use Rattle.std.specs.Prelude.{◌≡◌};
ghost use Rattle.std.specs.Option.{option_map};
ghost use Rattle.bar_arguments.specs.Options.{texts};
ghost use Rattle.bar_cli.specs.Line.{replay_files};
ghost use Rattle.bar_cli.specs.Code.Views.{replay_view};

use crate::replay::names::ReplayNames;

pub(super) const REPLAY_OPTIONS: [&str; 5] = ["session", "key", "recording", "played", "found"];

/// The files of a replay, from the values of its options.
pub(super) fn replay_of<'a>(values: &[&'a str]) -> Option<ReplayNames<'a>>
    ensures { option_map replay_view result ≡ replay_files (texts values.now) }
{
    let [session, key, recording, played, found] = *values else {
        return None;
    };
    Some(ReplayNames {
        session,
        key,
        recording,
        played,
        found,
    })
}
