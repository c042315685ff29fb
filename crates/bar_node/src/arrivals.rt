//! Taking what a link gives.
ghost use Rattle.std.specs.Prelude.{◌≡◌, ◌≤◌, [], length, IfSome, OnOk};
ghost use Rattle.std.specs.Option.{option_map};
ghost use Rattle.bar_wire.specs.Inputs as plain;
ghost use Rattle.bar_wire.specs.Limits.{largest_datagram};
ghost use Rattle.bar_outside.specs.Disk.{Content};
ghost use Rattle.bar_outside.specs.Wire.{arrival_of, largest_packet, len_of};
ghost use Rattle.bar_record.specs.Recording.{IsInRange, largest_entry};
ghost use Rattle.bar_core.specs.Code.Face.{IsIdle};
ghost use Rattle.bar_node.specs.Code.Taking.{layout_of};
ghost use Rattle.bar_node.specs.Code.Turns.{sent};
ghost use Rattle.bar_node.specs.Runs.{input_of, RanInputs};

use crate::counts::Counts;
use crate::kept::Kept;
use crate::sending::Sending;
use crate::turn::take_paced;
use bar_core::Core;
use bar_outside::{Fault, Files, Link, Taken, receive_next};
use bar_record::Paced;
use bar_wire::Input;

/// The input that was taken into a buffer, or `None` for the end.
fn input_of(taken: Taken, inbox: &[u8]) -> Option<Input<'_>>
    requires fits { len_of taken ≤ length inbox.now }
    requires within { len_of taken ≤ largest_packet }
    ensures is { option_map plain.plain_input result ≡ input_of (arrival_of inbox.now taken) }
    ensures within { IfSome result (λ input. IsInRange (plain.plain_input input)) }
{
    match taken {
        Taken::Tick => Some(Input::Tick),
        Taken::Datagram(len) => Some(Input::Datagram(&inbox[..len])),
        Taken::End => None,
    }
}

/// Takes what a link gives, paced, up to its end or the last tick, and does the turn of each input. The first buffer has room for the
/// largest datagram, the second for its entry in a recording.
pub fn run_inputs<C: Core, L: Link, F: Files>(
    core: &mut C,
    link: &mut L,
    files: &mut F,
    kept: &Kept<'_>,
    inbox: &mut [u8],
    outbox: &mut [u8],
) -> Result<Counts, Fault>
    requires stands { C.stands core.old [] }
    requires idle { IsIdle (C.face core.old) }
    requires inbox { largest_datagram ≤ length inbox.old }
    requires outbox { largest_entry ≤ length outbox.old }
    ensures ran { (was : Content) → RanInputs (layout_of kept.now sent) (C.stands core.new) (C.face core.old).rules
        (F.disk files.old was) (F.disk files.new was) (L.wire link.old) (L.wire link.new) result }
    ensures rules { OnOk result ((C.face core.new).rules ≡ (C.face core.old).rules) }
{
    let mut paced = Paced::new();
    let mut counts = Counts::none();
    'arrivals: while !core.is_over() {
        let taken = receive_next(link, inbox)?;
        let Some(input) = input_of(taken, inbox) else {
            return Ok(counts);
        };
        let more = take_paced(
            core,
            input,
            counts.inputs,
            &mut paced,
            &Sending,
            link,
            files,
            kept,
            outbox,
        )?;
        counts = counts.with(more);
    }
    Ok(counts)
}
