//! Writing the text of a key of two levels.

ghost use Rattle.std.specs.Prelude.{◌≡◌, IfOk, Ok, true};
ghost use Rattle.bar_roster.specs.KeyText.{IsInRange, hss_key_data, key_read, key_text_of};

use bar_roster::KeyData;
use std::alloc::{AllocError, Global};

/// The text of a party's key in the session with this id, whose signatures have two levels: nine lines of TOML. The trees that sign
/// messages have LMS type 5.
///
/// If the numbers are in the ranges of such a text, reading it gives back what it was written from.
#[allow(clippy::too_many_arguments)]
pub fn hss_key_text(
    alloc: Global,
    party: u16,
    id: &[u8; 8],
    rounds: u32,
    top: u32,
    ots: u32,
    secret: &[u8; 32],
    spent: bool,
) -> Result<Vec<u8>, AllocError>
    ensures text { let k = hss_key_data party id.now rounds top ots secret.now spent in IfOk result (λ text. text.items ≡ key_text_of k) }
    ensures reads_back { let k = hss_key_data party id.now rounds top ots secret.now spent in IsInRange k →
        IfOk result (λ text. key_read true text.items ≡ Ok k) }
{
    let key = KeyData {
        party,
        id: *id,
        rounds,
        lms: 5,
        ots,
        top: Some(top),
        secret: *secret,
        spent,
    };
    key.text(alloc)
}
