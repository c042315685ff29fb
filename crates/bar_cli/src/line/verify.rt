//! The arguments of `verify`.
ghost use Rattle.std.specs.Prelude.{◌≡◌};
ghost use Rattle.std.specs.Option.{option_map};
ghost use Rattle.bar_arguments.specs.Options.{texts};
ghost use Rattle.bar_cli.specs.Line.{verify_files};
ghost use Rattle.bar_cli.specs.Code.Views.{verified_view};

use crate::verify::names::VerifyNames;

pub(super) const VERIFY_OPTIONS: [&str; 2] = ["session", "proof"];

/// The files of `verify`, from the values of its options.
pub(super) fn verify_of<'a>(values: &[&'a str]) -> Option<VerifyNames<'a>>
    ensures { option_map verified_view result ≡ verify_files (texts values.now) }
{
    let [session, proof] = *values else {
        return None;
    };
    Some(VerifyNames { session, proof })
}
