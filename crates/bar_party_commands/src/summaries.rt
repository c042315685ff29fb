//! The summary that a run prints at its end.
ghost use Rattle.std.specs.Prelude.{◌≡◌, IfOk, string_bytes};
ghost use Rattle.bar_bytes.specs.Code.Rooms.{kept_in};
ghost use Rattle.bar_outside.specs.Plan.{Outside, with_out};
ghost use Rattle.bar_outside.specs.Code.Follows.{Follows};
ghost use Rattle.bar_party_commands.specs.Summaries.{caster_line, party_line, peer_line, shown_if, shown_parties};

use bar_bytes::Rooms;
use bar_node::Summary;
use bar_outside::{Fault, Sink, show_bytes};
use std::alloc::{AllocError, Global};

/// The line of a peer's counts.
pub fn peer_line(alloc: Global, summary: &Summary) -> Result<String, AllocError>
    ensures { IfOk result (λ line. string_bytes line ≡ peer_line summary.now) }
{
    let Summary {
        ticks,
        sent,
        played,
    } = *summary;
    format!(in alloc; "ticks {ticks} sent {sent} played {played}\n")
}

/// The line of a broadcaster's counts.
pub fn caster_line(alloc: Global, summary: &Summary) -> Result<String, AllocError>
    ensures { IfOk result (λ line. string_bytes line ≡ caster_line summary.now) }
{
    let Summary { ticks, sent, .. } = *summary;
    format!(in alloc; "ticks {ticks} sent {sent}\n")
}

/// The line for a party: a label and the party's number.
fn party_line(alloc: Global, word: &str, party: u16) -> Result<String, AllocError>
    ensures { IfOk result (λ line. string_bytes line ≡ party_line word.now party) }
{
    format!(in alloc; "{word}{party}\n")
}

/// Shows the line of a party, if evidence against it is kept.
fn show_party<K: Sink>(
    alloc: Global,
    word: &str,
    evidence: &Rooms,
    party: u16,
    out: &mut K,
) -> Result<(), Fault>
    ensures { (w : Outside) → Follows (shown_if word.now party (kept_in evidence.now party))
        (with_out w (K.stream out.old)) (with_out w (K.stream out.new)) result }
{
    match evidence.get(usize::from(party)) {
        Some(_) => show_bytes(out, party_line(alloc, word, party)?.as_bytes()),
        None => Ok(()),
    }
}

/// Shows a line for each of the first `peers` peers against which evidence is kept, in increasing order.
pub fn show_parties<K: Sink>(
    alloc: Global,
    word: &str,
    evidence: &Rooms,
    peers: u16,
    out: &mut K,
) -> Result<(), Fault>
    ensures { (w : Outside) → Follows (shown_parties word.now (kept_in evidence.now) peers)
        (with_out w (K.stream out.old)) (with_out w (K.stream out.new)) result }
{
    for before in 0..peers {
        show_party(alloc, word, evidence, before + 1, out)?;
    }
    Ok(())
}
