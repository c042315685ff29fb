//! The inputs of a recording that was read.
ghost use Rattle.std.specs.Iterator.{YieldsFirstBy, item_count};
ghost use Rattle.bar_wire.specs.Inputs.{plain_input};

use crate::first::{First, first_of};
use bar_wire::Input;

/// The inputs of a recording, in order. It borrows the recording's bytes.
#[derive(Clone, Copy)]
pub struct Items<'a> {
    pub(crate) left: usize,
    pub(crate) bytes: &'a [u8],
}

impl<'a> Iterator for Items<'a> {
    type Item = Input<'a>;

    ghost use Rattle.bar_record.specs.Code.Inputs.{inputs_left};

    ghost next_gives = { YieldsFirstBy plain_input inputs_left };

    ghost remaining = { item_count inputs_left };

    #[tactic(auto, using(crate::proofs::EntryLemmas::steps))]
    fn next(&mut self) -> Option<Input<'a>> {
        if self.left == 0 {
            return None;
        }
        let First::Entry(input, rest) = first_of(self.bytes) else {
            return None;
        };
        self.left -= 1;
        self.bytes = rest;
        Some(input)
    }
}
