//! The command `broadcaster`.
ghost use Rattle.std.specs.Prelude.{◌≡◌, [], List, Err, true, false};
ghost use Rattle.bar_outside.specs.Disk.{Content};
ghost use Rattle.bar_outside.specs.Plan.{Outside, outside, with_out};
ghost use Rattle.bar_outside.specs.Code.Follows.{Follows};
ghost use Rattle.bar_outside.specs.Code.MemTaken.{bound_in};
ghost use Rattle.bar_outside.specs.Stages.{plan_by};
ghost use Rattle.bar_wire.specs.Inputs.{Input};
ghost use Rattle.bar_seeds.specs.declared.secrets.Secrets.{Secrets as Held};
ghost use Rattle.bar_core.specs.Code.Orders.{left_in};
ghost use Rattle.bar_hss.specs.Files.{IsPartyKeyOf};
ghost use Rattle.bar_session.specs.SessionData.{SessionData};
ghost use Rattle.bar_rules.specs.Members.{member_by};
ghost use Rattle.bar_caster.specs.Code.Core.{caster_rules};
ghost use Rattle.bar_caster.specs.Code.Memory.{member_of, stream_of};
ghost use Rattle.bar_caster.specs.Code.StandsFor.{StandsFor};
ghost use Rattle.bar_node.specs.Runs.{summary_of};
ghost use Rattle.bar_party_commands.specs.CasterPlan.{caster_actions, caster_key_stages, caster_plan, caster_stream_stages};
ghost use Rattle.bar_party_commands.specs.Running.{RunEndsWith, RunFollows, place_of, spent_text};
ghost use Rattle.bar_party_commands.specs.Summaries.{caster_summary, may_print};
ghost use Rattle.bar_party_commands.specs.Code.Views.{caster_view, code_of_run, said_by_run};

use crate::caster_names::CasterNames;
use crate::ended::Ended;
use crate::spending::{bind_place, spent_text, write_anew};
use crate::summaries::{caster_line, show_parties};
use bar_caster::{Caster, CasterFault};
use bar_hss::{PartyKey, SessionScheme};
use bar_node::{Summary, run_caster};
use bar_outside::{Fault, Files, Link, Place, Sink, read_file, show_bytes};
use bar_roster::{KeyFileFault, Session, SessionFault};
use bar_session_files::{read_fresh_key, read_session};
use std::alloc::Global;

/// Reads the session and continues if it is accepted.
pub fn broadcaster<F: Files, L: Link, K: Sink>(
    alloc: Global,
    names: &CasterNames<'_>,
    files: &mut F,
    link: &mut L,
    out: &mut K,
) -> Result<Ended, Fault>
    ensures ends { (was : Content) → RunEndsWith (caster_plan (caster_view names.now))
        (outside (F.disk files.old was) (K.stream out.old) (L.wire link.old))
        (outside (F.disk files.new was) (K.stream out.new) (L.wire link.new)) (code_of_run result) (said_by_run result) }
    ensures unprinted { may_print (code_of_run result) ≡ false → K.stream out.new ≡ K.stream out.old }
{
    let text = read_file(files, names.session)?;
    match read_session(alloc, &text) {
        Ok(session) => cast_in_session(alloc, session, names, files, link, out),
        Err(SessionFault::NoMemory) => Err(Fault::NoMemory),
        Err(fault) => Ok(Ended::SessionRefused(fault)),
    }
}

/// Reads the key file and continues if it is accepted.
fn cast_in_session<F: Files, L: Link, K: Sink>(
    alloc: Global,
    session: Session,
    names: &CasterNames<'_>,
    files: &mut F,
    link: &mut L,
    out: &mut K,
) -> Result<Ended, Fault>
    ensures ends { (was : Content) → RunEndsWith (λ given. plan_by (caster_key_stages (caster_view names.now) given session))
        (outside (F.disk files.old was) (K.stream out.old) (L.wire link.old))
        (outside (F.disk files.new was) (K.stream out.new) (L.wire link.new)) (code_of_run result) (said_by_run result) }
    ensures unprinted { may_print (code_of_run result) ≡ false → K.stream out.new ≡ K.stream out.old }
{
    let bytes = read_file(files, names.key)?;
    match read_fresh_key(alloc, &bytes, &session, true) {
        Ok(key) => cast_stream(alloc, session, key, names, files, link, out),
        Err(KeyFileFault::NoMemory) => Err(Fault::NoMemory),
        Err(fault) => Ok(Ended::KeyRefused(fault)),
    }
}

/// Reads the stream and continues if it fits.
fn cast_stream<F: Files, L: Link, K: Sink>(
    alloc: Global,
    session: Session,
    key: PartyKey,
    names: &CasterNames<'_>,
    files: &mut F,
    link: &mut L,
    out: &mut K,
) -> Result<Ended, Fault>
    requires { IsPartyKeyOf session true key }
    ensures ends { (was : Content) → RunEndsWith (λ given. plan_by (caster_stream_stages (caster_view names.now) given session key.secrets))
        (outside (F.disk files.old was) (K.stream out.old) (L.wire link.old))
        (outside (F.disk files.new was) (K.stream out.new) (L.wire link.new)) (code_of_run result) (said_by_run result) }
    ensures unprinted { may_print (code_of_run result) ≡ false → K.stream out.new ≡ K.stream out.old }
{
    let stream = read_file(files, names.stream)?;
    let text = spent_text(alloc, &session, &key.secrets)?;
    let place = Place {
        me: key.secrets.party,
        port: session.port(),
        begin_ms: names.begin_ms,
        tick_ms: session.tick_ms(),
    };
    match Caster::of_key(alloc, session, key, stream) {
        Ok(mut caster) => {
            cast(alloc, &mut caster, &text, &place, names, files, link, out)?;
            Ok(Ended::Done)
        }
        Err(CasterFault::TooLong { have, room }) => Ok(Ended::StreamRefused { have, room }),
        Err(CasterFault::NoMemory) => Err(Fault::NoMemory),
    }
}

/// Spends the key, binds the link, runs over it, and prints the summary.
fn cast<F: Files, L: Link, K: Sink>(
    alloc: Global,
    caster: &mut Caster<SessionScheme>,
    text: &[u8],
    place: &Place,
    names: &CasterNames<'_>,
    files: &mut F,
    link: &mut L,
    out: &mut K,
) -> Result<(), Fault>
    requires stands { StandsFor caster.old.memory [] }
    requires sends { left_in caster.old.orders ≡ [] }
    ensures follows { (was : Content) → (session : SessionData) (secrets : Held) → member_of caster.old.memory ≡ member_by session secrets →
        text.now ≡ spent_text session secrets → bound_in place.now ≡ place_of names.now.begin_ms session secrets →
        RunFollows (caster_actions (caster_view names.now) session secrets (stream_of caster.old.memory))
        (caster_rules (member_by session secrets) (stream_of caster.old.memory))
        (outside (F.disk files.old was) (K.stream out.old) (L.wire link.old))
        (outside (F.disk files.new was) (K.stream out.new) (L.wire link.new)) result }
    ensures unprinted { result ≡ Err Fault.File → K.stream out.new ≡ K.stream out.old }
    ensures quiet { result ≡ Err Fault.Link → K.stream out.new ≡ K.stream out.old }
{
    write_anew(files, names.key, text)?;
    bind_place(link, place)?;
    let summary = run_caster(alloc, caster, link, files, names.found)?;
    show_summary(alloc, &summary, caster, out)
}

/// Prints the summary of a broadcaster's run.
fn show_summary<K: Sink>(
    alloc: Global,
    summary: &Summary,
    caster: &Caster<SessionScheme>,
    out: &mut K,
) -> Result<(), Fault>
    ensures { (inputs : List Input) → StandsFor caster.now.memory inputs →
        summary.now ≡ summary_of (caster_rules (member_of caster.now.memory) (stream_of caster.now.memory)) inputs → (w : Outside) →
        Follows (caster_summary (caster_rules (member_of caster.now.memory) (stream_of caster.now.memory)) inputs)
        (with_out w (K.stream out.old)) (with_out w (K.stream out.new)) result }
{
    show_bytes(out, caster_line(alloc, summary)?.as_bytes())?;
    let shape = caster.shape();
    show_parties(alloc, "evicted ", caster.kept_evidence(), shape.peers, out)
}
