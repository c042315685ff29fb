//! The updates that a store holds and lacks, as windows.

ghost use Rattle.std.specs.Prelude.{◌≡◌, ◌-◌, ◌≤◌, ◌&&◌, not, max, is_some, filter};
ghost use Rattle.bar_window.specs.Places.{words_in};
ghost use Rattle.bar_window.specs.Updates.{updates_from, window_of, first_round};
ghost use Rattle.bar_window.specs.Code.Window.{members, IsWindowOf};
ghost use Rattle.bar_terms.specs.Table.{is_known, digest_of, digests_of};
ghost use Rattle.bar_store.specs.Code.Held.{block_in};
ghost use Rattle.bar_store.specs.Code.Windows.{IsHistory, IsYoung, IsAged};

use crate::picks::{Held, Lacking, first_round, pick};
use crate::store::Store;
use bar_window::Window;

impl Store {
    /// The held updates of the window of a round.
    pub fn history(&self, round: u32) -> Window
        ensures rounds { IsWindowOf self.now.life round result }
        ensures wide { result.wide ≡ self.now.wide }
        ensures members { members result ≡
            filter (λ u. is_some (block_in self.now u)) (window_of (words_in self.now.wide) self.now.life round) }
        ensures known { IsHistory self.now round (members result) }
    {
        let first = first_round(round, self.life());
        pick(&Held(self), round, self.life(), self.wide(), first, round)
    }

    /// The held updates of a round and the previous one. A push offers the first ones.
    pub fn young(&self, round: u32) -> Window
        ensures rounds { IsWindowOf self.now.life round result }
        ensures wide { result.wide ≡ self.now.wide }
        ensures members { members result ≡
            filter (λ u. is_some (block_in self.now u)) (updates_from (words_in self.now.wide) (max 1 (round - 1)) round) }
        ensures known { IsYoung self.now round (members result) }
    {
        let first = round.saturating_sub(1).max(1);
        pick(&Held(self), round, self.life(), self.wide(), first, round)
    }

    /// The updates with a digest in the table that aren't held, from the start of a round's window up to round `last`. A push asks for the
    /// first ones.
    pub fn lacking(&self, round: u32, last: u32) -> Window
        requires { last ≤ round }
        ensures rounds { IsWindowOf self.now.life round result }
        ensures wide { result.wide ≡ self.now.wide }
        ensures members { members result ≡
            filter (λ u. not (is_some (block_in self.now u)) && is_known (digest_of (digests_of self.now.table.lists) u))
            (updates_from (words_in self.now.wide) (first_round self.now.life round) last) }
        ensures known { IsAged self.now round last (members result) }
    {
        let first = first_round(round, self.life());
        pick(&Lacking(self), round, self.life(), self.wide(), first, last)
    }
}
