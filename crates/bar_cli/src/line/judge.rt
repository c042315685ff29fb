//! The arguments of `judge`.
ghost use Rattle.std.specs.Prelude.{◌≡◌};
ghost use Rattle.std.specs.Option.{option_map};
ghost use Rattle.bar_arguments.specs.Options.{texts};
ghost use Rattle.bar_cli.specs.Line.{judge_files};
ghost use Rattle.bar_cli.specs.Code.Views.{judged_view};

use crate::judge::names::JudgeNames;

pub(super) const JUDGE_OPTIONS: [&str; 3] = ["session", "table", "evidence"];

/// The files of a judge, from the values of its options.
pub(super) fn judge_of<'a>(values: &[&'a str]) -> Option<JudgeNames<'a>>
    ensures { option_map judged_view result ≡ judge_files (texts values.now) }
{
    let [session, table, evidence] = *values else {
        return None;
    };
    Some(JudgeNames {
        session,
        table,
        evidence,
    })
}
