//! The arguments of `peer`.
ghost use Rattle.std.specs.Prelude.{◌≡◌};
ghost use Rattle.std.specs.Option.{option_map};
ghost use Rattle.bar_arguments.specs.Options.{texts};
ghost use Rattle.bar_cli.specs.Line.{peer_values};
ghost use Rattle.bar_cli.specs.Code.Views.{peer_view};

use bar_arguments::number_in;
use bar_party_commands::PeerNames;

pub(super) const PEER_OPTIONS: [&str; 6] = [
    "session",
    "key",
    "begin",
    "played",
    "recording",
    "found",
];

/// The names of a peer's files and its time, from the values of its options.
pub(super) fn peer_of<'a>(values: &[&'a str]) -> Option<PeerNames<'a>>
    ensures { option_map peer_view result ≡ peer_values (texts values.now) }
{
    let [session, key, begin, played, recording, found] = *values else {
        return None;
    };
    Some(PeerNames {
        session,
        key,
        begin_ms: number_in(begin, 0, u64::MAX)?,
        played,
        recording,
        found,
    })
}
