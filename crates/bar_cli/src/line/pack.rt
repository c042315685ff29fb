//! The arguments of `pack`.
ghost use Rattle.std.specs.Prelude.{◌≡◌};
ghost use Rattle.std.specs.Option.{option_map};
ghost use Rattle.bar_arguments.specs.Options.{texts};
ghost use Rattle.bar_cli.specs.Line.{pack_files};
ghost use Rattle.bar_cli.specs.Code.Views.{packed_view};

use crate::pack::names::PackNames;

pub(super) const PACK_OPTIONS: [&str; 4] = ["session", "table", "evidence", "proof"];

/// The files of `pack`, from the values of its options.
pub(super) fn pack_of<'a>(values: &[&'a str]) -> Option<PackNames<'a>>
    ensures { option_map packed_view result ≡ pack_files (texts values.now) }
{
    let [session, table, evidence, proof] = *values else {
        return None;
    };
    Some(PackNames {
        session,
        table,
        evidence,
        proof,
    })
}
