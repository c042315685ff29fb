//! The command `simulate`.
ghost use Rattle.std.specs.Prelude.{◌≡◌, ◌≤◌, ◌++◌, false, length, IfOk, OnOk, string_bytes};
ghost use Rattle.bar_outside.specs.Plan.{Outside, with_out};
ghost use Rattle.bar_outside.specs.Ends.{EndsWith};
ghost use Rattle.bar_cli.specs.Printing.{simulate_may_print};
ghost use Rattle.bar_cli.specs.Simulate.{counts_line, end_view, parties_text, played_line, played_lines, simulate_plan, text_of};
ghost use Rattle.bar_cli.specs.Status.{code_of_run, said_by_run};

use crate::status::Status;
use bar_outside::{Fault, Sink, show_bytes};
use bar_world::{SimEnd, simulate};
use std::alloc::{AllocError, Global};

// The line of a peer.
fn peer_line(alloc: Global, peer: u16, bytes: u64) -> Result<String, AllocError>
    ensures { IfOk result (λ line. string_bytes line ≡ played_line peer bytes) }
{
    format!(in alloc; "party {peer} played {bytes} bytes\n")
}

// A line for each peer from 1 on.
fn peer_lines(alloc: Global, played: &[u64]) -> Result<String, AllocError>
    requires { length played.now ≤ 5 }
    ensures { IfOk result (λ text. string_bytes text ≡ played_lines 1 played.now) }
{
    let mut text = String::new(alloc);
    let mut peer = 0;
    for bytes in played {
        peer += 1;
        let line = peer_line(alloc, peer, *bytes)?;
        text.push_str(line.as_str())?;
    }
    Ok(text)
}

// The line of the counts.
fn counts(alloc: Global, end: &SimEnd) -> Result<String, AllocError>
    ensures { IfOk result (λ line. string_bytes line ≡ counts_line (end_view end.now)) }
{
    let SimEnd {
        delivered,
        lost,
        repeated,
        ..
    } = *end;
    format!(in alloc; "delivered {delivered} lost {lost} repeated {repeated}\n")
}

// Appends a list of parties to a text, or ` none` if it is empty.
fn push_parties(alloc: Global, text: &mut String, parties: &[u16]) -> Result<(), AllocError>
    ensures { OnOk result (string_bytes text.new ≡ string_bytes text.old ++ parties_text parties.now) }
{
    if parties.is_empty() {
        return text.push_str(" none");
    }
    for party in parties {
        let word = format!(in alloc; " {party}")?;
        text.push_str(word.as_str())?;
    }
    Ok(())
}

// The text printed for an end.
fn summary(alloc: Global, end: &SimEnd) -> Result<String, AllocError>
    requires { end.now.evicted.len ≤ 5 }
    ensures { IfOk result (λ text. string_bytes text ≡ text_of (end_view end.now)) }
{
    let mut text = peer_lines(alloc, &end.played)?;
    text.push_str(counts(alloc, end)?.as_str())?;
    text.push_str("evicted")?;
    push_parties(
        alloc,
        &mut text,
        &end.evicted.list[..usize::from(end.evicted.len)],
    )?;
    text.push_str("\n")?;
    Ok(text)
}

/// Runs the simulation of a seed and prints how it ended.
pub fn simulate_seed<K: Sink>(alloc: Global, seed: u64, out: &mut K) -> Result<Status, Fault>
    ensures ends { (w : Outside) → EndsWith (simulate_plan seed) (with_out w (K.stream out.old)) (with_out w (K.stream out.new))
        (code_of_run result) (said_by_run result) }
    ensures answers { IfOk result (λ status. status ≡ Status.Done) }
    ensures unprinted { simulate_may_print (code_of_run result) ≡ false → K.stream out.new ≡ K.stream out.old }
{
    let end = simulate(alloc, seed)?;
    let text = summary(alloc, &end)?;
    show_bytes(out, text.as_bytes())?;
    Ok(Status::Done)
}
