//! SHA-256 of eight messages of 55 bytes; all that depends on their first 20 bytes alone is computed once.

ghost use Rattle.std.specs.Prelude.{◌≡◌, ℕ, ◌*◌, ◌/◌, ◌%◌, ◌^◌, ◌+◌, ◌<◌, ◌++◌, List, [], bit_or, length, take, slice_index, slice_index_or};
ghost use Rattle.sha2.specs.Sha256.{initial_hash_256, padded_message, rounds, schedule, sha256};
ghost use Rattle.bar_lanes.specs.Code.Lane.{hash_lane, head_lane, Begins, IsHeadState, IsScheduled, late_at};
ghost use Rattle.bar_lanes.specs.declared.beginning.Beginning.{Beginning};
ghost use Rattle.bar_lanes.specs.declared.state.State.{State};

use crate::beginning::Beginning;
use crate::digests::Digests;
use crate::eight::{initial_hash, words_at};
use crate::late::Late;
use crate::rounds::{Words, fill_words, four_words, last_steps, small_sigma0, small_sigma1, step};
use crate::state::State;
use crate::tails::Tails;
use crate::vectors::{add, or, shift_left, shift_right};
use std::marker::Model;
use std::simd::u32x8;

/// The first 20 bytes of eight messages of 55, as the first five words of each block. With them are kept values that depend on these words
/// alone: the summands of schedule words 16 to 19 that come from words 0 to 4, and the state after the first five rounds. Contracts see the
/// list of the first 20 bytes of each message.
#[derive(Drop)]
pub struct Heads {
    words: Beginning,
    late: Late,
    working: State,
}

impl Model for Heads {
    ghost use Rattle.std.specs.Prelude.{◌≡◌, ℕ, ◌<◌, List, take};
    ghost use Rattle.bar_lanes.specs.Code.Lane.{head_lane, of_lanes, IsHeadState};

    ghost Value = { List (List ℕ) };

    ghost view = { λ h. of_lanes (head_lane h.words) };

    ghost invariant = { λ h. (j : ℕ) (block : List ℕ) → j < 8 → take 20 block ≡ head_lane h.words j
        → IsHeadState block j h.words h.late h.working };
}

// The words of the first 20 bytes of messages.
fn head_words(bytes: &[[u8; 20]; 8]) -> Beginning
    ensures bytes { (j : ℕ) → j < 8 → head_lane result j ≡ slice_index_or bytes.now j [] }
    ensures words { (j : ℕ) → j < 8 → Begins (slice_index_or bytes.now j []) j result }
{
    Beginning {
        a: words_at(bytes, 0),
        b: words_at(bytes, 1),
        c: words_at(bytes, 2),
        d: words_at(bytes, 3),
        e: words_at(bytes, 4),
    }
}

// Writes the words of the first 20 bytes.
#[inline(always)]
fn put_head(words: &mut Words, head: Beginning)
    ensures { (j : ℕ) (block : List ℕ) → j < 8 → Begins block j head → IsScheduled block j words.new 5 }
{
    words[0] = head.a;
    words[1] = head.b;
    words[2] = head.c;
    words[3] = head.d;
    words[4] = head.e;
}

// The sum of those summands of schedule word 16 + k that come from words k and k + 1.
fn late_word(words: &Words, k: usize) -> u32x8
    requires { k < 4 }
    ensures { (j : ℕ) (block : List ℕ) → j < 8 → IsScheduled block j words.now 5 → slice_index result j ≡ late_at block k }
{
    add(small_sigma0(words[k + 1]), words[k])
}

// These sums for the words 16 to 19.
fn late_words(words: &Words) -> Late
    ensures first { (j : ℕ) (block : List ℕ) → j < 8 → IsScheduled block j words.now 5 → slice_index result.a j ≡ late_at block 0 }
    ensures second { (j : ℕ) (block : List ℕ) → j < 8 → IsScheduled block j words.now 5 → slice_index result.b j ≡ late_at block 1 }
    ensures third { (j : ℕ) (block : List ℕ) → j < 8 → IsScheduled block j words.now 5 → slice_index result.c j ≡ late_at block 2 }
    ensures fourth { (j : ℕ) (block : List ℕ) → j < 8 → IsScheduled block j words.now 5 → slice_index result.d j ≡ late_at block 3 }
{
    Late {
        a: late_word(words, 0),
        b: late_word(words, 1),
        c: late_word(words, 2),
        d: late_word(words, 3),
    }
}

// The states after the first five rounds.
fn first_steps(words: &Words) -> [u32x8; 8]
    ensures { (j : ℕ) (block : List ℕ) → j < 8 → IsScheduled block j words.now 5
        → hash_lane j result ≡ rounds initial_hash_256 (schedule block 48) 5 }
{
    let working = step(words, initial_hash(), 0);
    let working = step(words, working, 1);
    let working = step(words, working, 2);
    let working = step(words, working, 3);
    step(words, working, 4)
}

// Word 16 + k of the schedule.
#[inline(always)]
fn next_word(words: &Words, late: u32x8, k: usize) -> u32x8
    requires { k < 4 }
    ensures { (j : ℕ) (block : List ℕ) → j < 8 → IsScheduled block j words.now (16 + k) → slice_index late j ≡ late_at block k
        → slice_index result j ≡ slice_index (schedule block 48) (16 + k) }
{
    let near = add(small_sigma1(words[k + 14]), words[k + 9]);
    add(near, late)
}

// The block words that consist of the last three bytes of one word of the values and the first byte of the next.
#[inline(always)]
fn between(word: u32x8, next: u32x8) -> u32x8
    ensures is { (j : ℕ) → j < 8 → slice_index result j ≡ bit_or (slice_index word j * 2 ^ 8 % 2 ^ 32) (slice_index next j / 2 ^ 24) }
    ensures words { (j : ℕ) → j < 8 → (slice_index word j < 2 ^ 32) × (slice_index next j < 2 ^ 32) }
{
    or(shift_left(word, 8), shift_right(next, 24))
}

// The block words that consist of the three bytes of the place and the first byte of the values' first word.
#[inline(always)]
fn place_word(place: u32x8, first: u32x8) -> u32x8
    ensures is { (j : ℕ) → j < 8 → slice_index result j ≡ bit_or (slice_index place j) (slice_index first j / 2 ^ 24) }
    ensures words { (j : ℕ) → j < 8 → (slice_index place j < 2 ^ 32) × (slice_index first j < 2 ^ 32) }
{
    or(place, shift_right(first, 24))
}

// Writes words 5 to 15 of the blocks of messages.
#[inline(always)]
fn put_tails(words: &mut Words, tails: &Tails)
    ensures long { (j : ℕ) → j < 8 → length (slice_index_or tails.now j []) ≡ 35 }
    ensures words { (j : ℕ) (head : List ℕ) → j < 8 → length head ≡ 20
        → IsScheduled (padded_message (head ++ slice_index_or tails.now j [])) j words.old 5
        → IsScheduled (padded_message (head ++ slice_index_or tails.now j [])) j words.new 16 }
{
    let values = tails.values;
    words[5] = place_word(tails.place, values.a);
    words[6] = between(values.a, values.b);
    words[7] = between(values.b, values.c);
    words[8] = between(values.c, values.d);
    words[9] = between(values.d, values.e);
    words[10] = between(values.e, values.f);
    words[11] = between(values.f, values.g);
    words[12] = between(values.g, values.h);
    words[13] = between(values.h, u32x8::splat(0x8000_0000));
    words[14] = u32x8::splat(0);
    words[15] = u32x8::splat(440);
}

// Writes words 16 to 19 of schedules.
#[inline(always)]
fn put_late(words: &mut Words, late: Late)
    ensures { (j : ℕ) (block : List ℕ) (head : Beginning) (working : State) → j < 8 → IsScheduled block j words.old 16
        → IsHeadState block j head late working → IsScheduled block j words.new 20 }
{
    words[16] = next_word(words, late.a, 0);
    words[17] = next_word(words, late.b, 1);
    words[18] = next_word(words, late.c, 2);
    words[19] = next_word(words, late.d, 3);
}

// Writes words 20 to 31 of schedules. The calls are written out because words 14 and 15 are constants, so the compiler folds sums of them.
#[inline(always)]
fn put_near(words: &mut Words)
    ensures { (j : ℕ) (block : List ℕ) → j < 8 → IsScheduled block j words.old 20 → IsScheduled block j words.new 32 }
{
    four_words(words, 20);
    four_words(words, 24);
    four_words(words, 28);
}

// Rounds 5 to 7.
#[inline(always)]
fn three_steps(words: &Words, working: [u32x8; 8]) -> [u32x8; 8]
    ensures { (j : ℕ) (block : List ℕ) → j < 8 → IsScheduled block j words.now 64
        → hash_lane j working ≡ rounds initial_hash_256 (schedule block 48) 5
        → hash_lane j result ≡ rounds initial_hash_256 (schedule block 48) 8 }
{
    let working = step(words, working, 5);
    let working = step(words, working, 6);
    step(words, working, 7)
}

impl Heads {
    /// The heads of eight messages with these first bytes.
    pub fn new(bytes: &[[u8; 20]; 8]) -> Heads
        ensures { (j : ℕ) → j < 8 → slice_index_or result j [] ≡ slice_index_or bytes.now j [] }
    {
        let head = head_words(bytes);
        let mut words = [u32x8::splat(0); 64];
        put_head(&mut words, head);
        Heads {
            words: head,
            late: late_words(&words),
            working: State::of(first_steps(&words)),
        }
    }

    /// The SHA-256 of each of the eight messages that have these bytes after their first 20 (FIPS 180-4, 6.2). It overwrites `words` with
    /// their schedules, so that a loop needs only one such array.
    pub fn hash(&self, tails: &Tails, words: &mut Words) -> Digests
        ensures { (j : ℕ) → j < 8 → slice_index_or result j [] ≡ sha256 (slice_index_or self.now j [] ++ slice_index_or tails.now j []) }
    {
        put_head(words, self.words);
        put_tails(words, tails);
        put_late(words, self.late);
        put_near(words);
        fill_words(words, 8);
        let working = three_steps(words, self.working.words());
        let state = State::of(last_steps(words, working, 2, &initial_hash()));
        Digests { state }
    }
}
