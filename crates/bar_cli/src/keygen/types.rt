//! The types of signatures that arguments name.
ghost use Rattle.std.specs.Prelude.{◌≡◌, ◌≤◌, Some};
ghost use Rattle.std.specs.Option.{option_map};
ghost use Rattle.bar_roster.specs.Shapes.{params_of};
ghost use Rattle.bar_cli.specs.Keygen.Types.{levels_of, types_of, types_view};

use crate::keygen::key_types::KeyTypes;
use bar_arguments::number_in;
use bar_lms::Params;

// The types for two numbers in their ranges.
fn params_of(lms: u32, ots: u32) -> Option<Params>
    requires lms { (5 ≤ lms) × (lms ≤ 7) }
    requires ots { (1 ≤ ots) × (ots ≤ 4) }
    ensures { result ≡ Some (params_of lms ots) }
{
    Params::of_types(lms, ots).ok()
}

/// The types of one level for two numbers: LMS types 5 to 7 and LM-OTS types 1 to 4 (RFC 8554, 5.1 and 4.1).
pub fn types_of(lms: &str, ots: &str) -> Option<KeyTypes>
    ensures { option_map types_view result ≡ types_of lms.now ots.now }
{
    let lms = number_in(lms, 5, 7)? as u32;
    let ots = number_in(ots, 1, 4)? as u32;
    let params = params_of(lms, ots)?;
    Some(KeyTypes { top: None, params })
}

/// The types of two levels for two numbers: LMS types 5 to 7 of the upper tree, and LM-OTS types 3 and 4 of both trees (RFC 8554, 6). The
/// lower trees have LMS type 5.
pub fn levels_of(top: &str, ots: &str) -> Option<KeyTypes>
    ensures { option_map types_view result ≡ levels_of top.now ots.now }
{
    let top = number_in(top, 5, 7)? as u32;
    let ots = number_in(ots, 3, 4)? as u32;
    let upper = params_of(top, ots)?;
    let params = params_of(5, ots)?;
    Some(KeyTypes {
        top: Some(upper.height),
        params,
    })
}
