//! The types of a session's signatures, and what follows from them.
ghost use Rattle.std.specs.Prelude.{◌≡◌, ◌≤◌, ◌*◌, Some, OnOk, option_map};
ghost use Rattle.bar_lms.specs.Schemes.{leaves_by, length_by, upper_types};
ghost use Rattle.bar_wire.specs.Limits.{leaves_a_round};
ghost use Rattle.bar_roster.specs.NumberRanges.{AreInRange};
ghost use Rattle.bar_session.specs.Limits.{most_long_rounds};
ghost use Rattle.bar_roster.specs.SessionText.{enough_leaves};
ghost use Rattle.bar_session.specs.Sessions.{AreLevels};
ghost use Rattle.bar_roster.specs.Shapes.{height_of, params_of, shape_of};

use crate::SessionFault;
use crate::numbers::Numbers;
use bar_lms::{Height, Ots, Params};
use bar_wire::{LEAVES_A_ROUND, Shape};

/// The height that a type in range names.
fn height_of(lms: u8) -> Height
    requires low { 5 ≤ lms }
    requires high { lms ≤ 7 }
    ensures { result ≡ height_of lms }
{
    match lms {
        5 => Height::H5,
        6 => Height::H10,
        _ => Height::H15,
    }
}

/// The height of the upper tree, if there is one.
pub(crate) fn top_of(numbers: &Numbers) -> Option<Height>
    requires { AreInRange numbers.now }
    ensures { result ≡ option_map height_of numbers.now.top }
{
    Some(height_of(numbers.top?))
}

/// The types of the trees that sign messages.
pub(crate) fn params_of(numbers: &Numbers) -> Params
    requires { AreInRange numbers.now }
    ensures value { result ≡ params_of numbers.now.lms numbers.now.ots }
    ensures levels { AreLevels (option_map height_of numbers.now.top) result }
{
    let height = height_of(numbers.lms);
    let ots = match numbers.ots {
        1 => Ots::W1,
        2 => Ots::W2,
        3 => Ots::W4,
        _ => Ots::W8,
    };
    Params { height, ots }
}

/// The types of an upper tree over trees of these types, which has the same one-time signatures.
pub(crate) fn upper_types(height: Height, low: Params) -> Params
    ensures { result ≡ upper_types height low }
{
    Params {
        height,
        ots: low.ots,
    }
}

/// How many bytes a signature has.
fn signature_len(top: Option<Height>, params: Params) -> usize
    ensures { result ≡ length_by top params }
{
    match top {
        None => params.sig_len(),
        Some(height) => 60 + upper_types(height, params).sig_len() + params.sig_len(),
    }
}

/// How many leaves of a key sign messages: those of a tree of these types, or of 32 of them below each leaf of an upper tree.
pub fn leaves_of(top: Option<Height>, params: Params) -> u32
    requires { AreLevels top params }
    ensures { result ≡ leaves_by top params }
{
    match top {
        None => params.height.leaves() as u32,
        Some(height) => 32 * height.leaves() as u32,
    }
}

/// The numbers of the session's datagrams.
pub(crate) fn shape_of(numbers: &Numbers, top: Option<Height>, params: Params, peers: u16) -> Shape
    requires range { AreInRange numbers.now }
    requires top { top ≡ option_map height_of numbers.now.top }
    requires params { params ≡ params_of numbers.now.lms numbers.now.ots }
    ensures value { shape_of numbers.now peers ≡ Some result }
{
    Shape {
        version: numbers.version,
        id: numbers.id,
        peers,
        rounds: numbers.rounds,
        life: numbers.life,
        per_round: numbers.per_round,
        sig_len: signature_len(top, params),
    }
}

/// Whether there is a leaf for each message of the rounds, of which there are at most `MOST_LONG_ROUNDS`; otherwise `TooFewLeaves` with
/// both numbers.
pub fn check_leaves(rounds: u32, leaves: u32) -> Result<(), SessionFault>
    requires rounds { rounds ≤ most_long_rounds }
    ensures value { result ≡ enough_leaves rounds leaves }
    ensures enough { OnOk result (leaves_a_round * rounds ≤ leaves) }
{
    let need = LEAVES_A_ROUND * rounds;
    if need <= leaves {
        Ok(())
    } else {
        Err(SessionFault::TooFewLeaves { need, have: leaves })
    }
}
