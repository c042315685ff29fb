//! The actions of a command, one function each. A fault of the outside is returned as a fault of the command.
//! Each clause holds for any outside whose other parts are unchanged.
ghost use Rattle.std.specs.Prelude.{◌∷◌, ◌≤◌, [], IfOk, length};
ghost use Rattle.bar_outside.specs.Plan.{Outside, with_files, with_out, with_wire};
ghost use Rattle.bar_outside.specs.Plan.Action.{create, append, show, link as call};
ghost use Rattle.bar_outside.specs.Plan.LinkCall.{bind, receive, send};
ghost use Rattle.bar_outside.specs.Wire.{arrived, bound_by, largest_packet, len_of};
ghost use Rattle.bar_outside.specs.Disk.{Content};
ghost use Rattle.bar_outside.specs.Code.Follows.{Follows, ReadsFile};

use crate::{Fault, Files, Link, Sink, Taken};

/// The bytes of a file.
pub fn read_file<F: Files>(files: &mut F, path: &str) -> Result<Vec<u8>, Fault>
    ensures { (was : Content) → ReadsFile path.now (F.disk files.old was) (F.disk files.new was) result }
{
    Ok(files.read(path)?)
}

/// Creates an empty file with this name.
pub fn create_file<F: Files>(files: &mut F, path: &str) -> Result<(), Fault>
    ensures { (w : Outside) (was : Content) →
        Follows (create path.now ∷ []) (with_files w (F.disk files.old was)) (with_files w (F.disk files.new was)) result }
{
    files.create(path)?;
    Ok(())
}

/// Appends bytes to a file.
pub fn append_file<F: Files>(files: &mut F, path: &str, bytes: &[u8]) -> Result<(), Fault>
    ensures { (w : Outside) (was : Content) →
        Follows (append path.now bytes.now ∷ []) (with_files w (F.disk files.old was)) (with_files w (F.disk files.new was)) result }
{
    files.append(path, bytes)?;
    Ok(())
}

/// Prints bytes.
pub fn show_bytes<K: Sink>(out: &mut K, bytes: &[u8]) -> Result<(), Fault>
    ensures { (w : Outside) → Follows (show bytes.now ∷ []) (with_out w (K.stream out.old)) (with_out w (K.stream out.new)) result }
{
    out.write(bytes)?;
    Ok(())
}

/// Binds the link to a party of a session on this port.
pub fn bind_link<L: Link>(
    link: &mut L,
    me: u16,
    port: u16,
    begin_ms: u64,
    tick_ms: u32,
) -> Result<(), Fault>
    ensures { (w : Outside) → Follows (call (bind (bound_by me port begin_ms tick_ms)) ∷ [])
        (with_wire w (L.wire link.old)) (with_wire w (L.wire link.new)) result }
{
    link.bind(me, port, begin_ms, tick_ms)?;
    Ok(())
}

/// Takes the next tick, datagram or end from the link. The buffer has room for the largest datagram.
pub fn receive_next<L: Link>(link: &mut L, buf: &mut [u8]) -> Result<Taken, Fault>
    requires { largest_packet ≤ length buf.old }
    ensures follows { (w : Outside) → Follows (call (receive (arrived buf.new result)) ∷ [])
        (with_wire w (L.wire link.old)) (with_wire w (L.wire link.new)) result }
    ensures within { IfOk result (λ taken. len_of taken ≤ largest_packet) }
{
    Ok(link.next(buf)?)
}

/// Sends a datagram to a party.
pub fn send_datagram<L: Link>(link: &mut L, to: u16, bytes: &[u8]) -> Result<(), Fault>
    ensures { (w : Outside) → Follows (call (send to bytes.now) ∷ [])
        (with_wire w (L.wire link.old)) (with_wire w (L.wire link.new)) result }
{
    link.send(to, bytes)?;
    Ok(())
}
