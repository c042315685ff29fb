//! The command `peer`.
ghost use Rattle.std.specs.Prelude.{◌≡◌, ◌≢◌, ◌∷◌, [], List, Err, false};
ghost use Rattle.bar_outside.specs.Disk.{Content};
ghost use Rattle.bar_outside.specs.Plan.{Outside, outside, with_files, with_out};
ghost use Rattle.bar_outside.specs.Plan.Action.{append, create};
ghost use Rattle.bar_outside.specs.Code.Follows.{Follows};
ghost use Rattle.bar_outside.specs.Stages.{plan_by};
ghost use Rattle.bar_wire.specs.Inputs.{Input};
ghost use Rattle.bar_hss.specs.Files.{IsPartyKeyOf};
ghost use Rattle.bar_peer.specs.Code.Memory.{member_of};
ghost use Rattle.bar_peer.specs.Core.{peer_rules};
ghost use Rattle.bar_peer.specs.Code.StandsFor.{StandsFor};
ghost use Rattle.bar_party_commands.specs.PeerPlan.{peer_actions, peer_key_stages, peer_plan, rules_by};
ghost use Rattle.bar_party_commands.specs.Running.{RunEndsWith, RunFollows};
ghost use Rattle.bar_party_commands.specs.Summaries.{may_print, peer_summary};
ghost use Rattle.bar_party_commands.specs.Code.Views.{code_of_run, peer_view, said_by_run};
ghost use Rattle.bar_node.specs.Runs.{summary_of};

use crate::ended::Ended;
use crate::peer_names::PeerNames;
use crate::spending::{bind_place, spent_text, write_anew};
use crate::summaries::{peer_line, show_parties};
use bar_hss::{PartyKey, SessionScheme};
use bar_node::{Paths, Summary, run_peer};
use bar_outside::{Fault, Files, Link, Place, Sink, create_file, read_file, show_bytes};
use bar_peer::Peer;
use bar_record::head;
use bar_roster::{KeyFileFault, Session, SessionFault};
use bar_session_files::{read_fresh_key, read_session};
use std::alloc::Global;

/// Reads the session and continues if it is accepted.
pub fn peer<F: Files, L: Link, K: Sink>(
    alloc: Global,
    names: &PeerNames<'_>,
    files: &mut F,
    link: &mut L,
    out: &mut K,
) -> Result<Ended, Fault>
    ensures ends { (was : Content) → RunEndsWith (peer_plan (peer_view names.now))
        (outside (F.disk files.old was) (K.stream out.old) (L.wire link.old))
        (outside (F.disk files.new was) (K.stream out.new) (L.wire link.new)) (code_of_run result) (said_by_run result) }
    ensures answers { code_of_run result ≢ 8 }
    ensures unprinted { may_print (code_of_run result) ≡ false → K.stream out.new ≡ K.stream out.old }
{
    let text = read_file(files, names.session)?;
    match read_session(alloc, &text) {
        Ok(session) => peer_of_session(alloc, session, names, files, link, out),
        Err(SessionFault::NoMemory) => Err(Fault::NoMemory),
        Err(fault) => Ok(Ended::SessionRefused(fault)),
    }
}

/// Reads the key file and continues if it is accepted.
fn peer_of_session<F: Files, L: Link, K: Sink>(
    alloc: Global,
    session: Session,
    names: &PeerNames<'_>,
    files: &mut F,
    link: &mut L,
    out: &mut K,
) -> Result<Ended, Fault>
    ensures ends { (was : Content) → RunEndsWith (λ given. plan_by (peer_key_stages (peer_view names.now) given session))
        (outside (F.disk files.old was) (K.stream out.old) (L.wire link.old))
        (outside (F.disk files.new was) (K.stream out.new) (L.wire link.new)) (code_of_run result) (said_by_run result) }
    ensures answers { code_of_run result ≢ 8 }
    ensures unprinted { may_print (code_of_run result) ≡ false → K.stream out.new ≡ K.stream out.old }
{
    let bytes = read_file(files, names.key)?;
    match read_fresh_key(alloc, &bytes, &session, false) {
        Ok(key) => {
            peer_of_key(alloc, session, key, names, files, link, out)?;
            Ok(Ended::Done)
        }
        Err(KeyFileFault::NoMemory) => Err(Fault::NoMemory),
        Err(fault) => Ok(Ended::KeyRefused(fault)),
    }
}

/// Spends the key, creates the files, binds the link, runs over it, and prints the summary.
fn peer_of_key<F: Files, L: Link, K: Sink>(
    alloc: Global,
    session: Session,
    key: PartyKey,
    names: &PeerNames<'_>,
    files: &mut F,
    link: &mut L,
    out: &mut K,
) -> Result<(), Fault>
    requires { IsPartyKeyOf session false key }
    ensures follows { (was : Content) → RunFollows (peer_actions (peer_view names.now) session key.secrets) (rules_by session key.secrets)
        (outside (F.disk files.old was) (K.stream out.old) (L.wire link.old))
        (outside (F.disk files.new was) (K.stream out.new) (L.wire link.new)) result }
    ensures unprinted { result ≡ Err Fault.File → K.stream out.new ≡ K.stream out.old }
    ensures quiet { result ≡ Err Fault.Link → K.stream out.new ≡ K.stream out.old }
{
    let place = Place {
        me: key.secrets.party,
        port: session.port(),
        begin_ms: names.begin_ms,
        tick_ms: session.tick_ms(),
    };
    let text = spent_text(alloc, &session, &key.secrets)?;
    let head = head(&session.shape().id, key.secrets.party);
    let mut peer = Peer::of_key(alloc, session, key)?;
    write_anew(files, names.key, &text)?;
    begin_files(names, &head, files)?;
    bind_place(link, &place)?;
    let paths = Paths {
        played: names.played,
        recording: names.recording,
        found: names.found,
    };
    let summary = run_peer(alloc, &mut peer, link, files, &paths)?;
    show_summary(alloc, &summary, &peer, out)
}

/// Creates the played file, and the recording with its head.
fn begin_files<F: Files>(names: &PeerNames<'_>, head: &[u8], files: &mut F) -> Result<(), Fault>
    ensures { (w : Outside) (was : Content) → Follows
        (create names.now.played.now ∷ create names.now.recording.now ∷ append names.now.recording.now head.now ∷ [])
        (with_files w (F.disk files.old was)) (with_files w (F.disk files.new was)) result }
{
    create_file(files, names.played)?;
    write_anew(files, names.recording, head)
}

/// Prints the summary of a peer's run.
fn show_summary<K: Sink>(
    alloc: Global,
    summary: &Summary,
    peer: &Peer<SessionScheme>,
    out: &mut K,
) -> Result<(), Fault>
    ensures { (inputs : List Input) → StandsFor peer.now.memory inputs →
        summary.now ≡ summary_of (peer_rules (member_of peer.now.memory.who)) inputs → (w : Outside) →
        Follows (peer_summary (peer_rules (member_of peer.now.memory.who)) inputs)
        (with_out w (K.stream out.old)) (with_out w (K.stream out.new)) result }
{
    show_bytes(out, peer_line(alloc, summary)?.as_bytes())?;
    let shape = peer.shape();
    show_parties(alloc, "evidence ", peer.kept_evidence(), shape.peers, out)
}
