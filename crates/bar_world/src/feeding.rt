//! How one core takes one input.
ghost use Rattle.std.specs.Prelude.{◌≡◌, ◌≤◌, ◌++◌, [], List, length, OnOk};
ghost use Rattle.std.specs.List.{concat};
ghost use Rattle.bar_wire.specs.Inputs as plain;
ghost use Rattle.bar_wire.specs.Limits.{largest_content, largest_datagram};
ghost use Rattle.bar_core.specs.Code.Face.{IsIdle, Keeps};
ghost use Rattle.bar_core.specs.Rules.{Send};
ghost use Rattle.bar_world.specs.Code.Cores.{Fed};
ghost use Rattle.bar_world.specs.Code.Packets.{packets_of};

use crate::packet::Packet;
use bar_core::Core;
use bar_wire::Input;
use std::alloc::{AllocError, Global};

/// Appends the contents that a core has still to give out to what it played before.
pub(crate) fn play_all<C: Core>(
    core: &mut C,
    buf: &mut [u8],
    played: &mut Vec<u8>,
) -> Result<(), AllocError>
    requires { largest_content ≤ length buf.old }
    ensures contents { OnOk result (played.new.items ≡ played.old.items ++ concat (C.face core.old).plays) }
    ensures keeps { OnOk result (Keeps (C.stands core.old) (C.stands core.new) (C.face core.old) (C.face core.new)) }
    ensures plays { OnOk result ((C.face core.new).plays ≡ []) }
    ensures left { OnOk result ((C.face core.new).left ≡ (C.face core.old).left) }
    ensures owes { OnOk result ((inputs : List plain.Input) (sends : List Send) →
        C.owes core.old inputs sends → C.owes core.new inputs sends) }
{
    'contents: while let Some(len) = core.give_content(buf) {
        played.extend_from_slice(&buf[..len])?;
    }
    Ok(())
}

/// Appends the datagrams that a core has still to give out to those that were sent before.
pub(crate) fn send_all<C: Core>(
    alloc: Global,
    core: &mut C,
    buf: &mut [u8],
    pool: &mut Vec<Packet>,
) -> Result<(), AllocError>
    requires { largest_datagram ≤ length buf.old }
    ensures packets { OnOk result ((inputs : List plain.Input) (sends : List Send) →
        C.stands core.old inputs → C.owes core.old inputs sends →
        packets_of pool.new.items ≡ packets_of pool.old.items ++ sends) }
    ensures keeps { OnOk result (Keeps (C.stands core.old) (C.stands core.new) (C.face core.old) (C.face core.new)) }
    ensures plays { OnOk result ((C.face core.new).plays ≡ (C.face core.old).plays) }
    ensures left { OnOk result ((C.face core.new).left ≡ 0) }
{
    'datagrams: while let Some((to, len)) = core.give_datagram(buf) {
        let bytes = buf[..len].to_vec(alloc)?;
        pool.push(Packet { to, bytes })?;
    }
    Ok(())
}

/// A core takes one input. What it sends is appended to the pool, and what it plays to what it played before.
pub(crate) fn feed<C: Core>(
    alloc: Global,
    core: &mut C,
    input: Input<'_>,
    buf: &mut [u8],
    pool: &mut Vec<Packet>,
    played: &mut Vec<u8>,
) -> Result<(), AllocError>
    requires idle { IsIdle (C.face core.old) }
    requires room { largest_datagram ≤ length buf.old }
    ensures { OnOk result (Fed (C.stands core.old) (C.stands core.new) (C.face core.old) (C.face core.new)
        (plain.plain_input input.entry) (packets_of pool.old.items) (packets_of pool.new.items)
        played.old.items played.new.items) }
{
    core.take(input);
    play_all(core, buf, played)?;
    send_all(alloc, core, buf, pool)
}
