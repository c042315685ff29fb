//! Laws of briefcases and of the keystream, for the definitions that the contracts use.

ghost use Rattle.std.specs.Prelude.{◌≡◌, ℕ, ◌+◌, List, length, take};
ghost use Rattle.bar_case.specs.Keystream.{keystream};
ghost use Rattle.bar_case.specs.Laws.{SealedHasItsLength, OwnKeyNeverOpensBadly, WhatOpensBadlyStaysSo, GoodOpeningsHaveTheirDigests};

/// The keystream has the length that is asked for, and its prefixes are the keystreams of fewer bytes.
pub fn keystreams_have_their_length()
    ensures length { (key : List ℕ) (n : ℕ) → length (keystream key n) ≡ n }
    ensures front { (key : List ℕ) (n more : ℕ) → take n (keystream key (n + more)) ≡ keystream key n }
{}

/// A sealed briefcase has the length of its items, if the blocks of the promised updates are held and have 1,024 bytes.
pub fn sealed_has_its_length()
    ensures { SealedHasItsLength }
{}

/// A sealed briefcase never opens as Bad with its own key, if the table has the digest of the block of each promised update whose round it
/// knows.
pub fn own_key_never_opens_badly()
    ensures { OwnKeyNeverOpensBadly }
{}

/// If a briefcase opens as Bad under a table, it does so under each table that has the same lists and more.
pub fn what_opens_badly_stays_so()
    ensures { WhatOpensBadlyStaysSo }
{}

/// If an opening is good, the table has the digest of each opened block.
pub fn good_openings_have_their_digests()
    ensures { GoodOpeningsHaveTheirDigests }
{}
