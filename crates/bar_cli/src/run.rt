//! The entry point of the program's commands.
ghost use Rattle.std.specs.Prelude.{◌≡◌, ◌⊎◌, ◌↔◌, None, Some, map, string_bytes};
ghost use Rattle.bar_outside.specs.Disk.{Content};
ghost use Rattle.bar_outside.specs.Plan.{outside};
ghost use Rattle.bar_cli.specs.Keygen.Plan.{HasFewLeaves, Keygen};
ghost use Rattle.bar_cli.specs.Line.{line_of};
ghost use Rattle.bar_cli.specs.Line as line;
ghost use Rattle.bar_cli.specs.Ran.{ByTheRules, CommandRan, WasDone, WasSaid};
ghost use Rattle.bar_cli.specs.Status.{code_of, said_at};
ghost use Rattle.bar_cli.specs.Code.Views.{command_view};

use crate::audit::audit;
use crate::audit::laws::{an_audit_is_told, an_audit_stays};
use crate::headline::peers_keep_the_rules;
use crate::judge::judge;
use crate::keygen::keygen;
use crate::line::{Command, command_of};
use crate::pack::pack;
use crate::replay::laws::a_replay_keeps_the_rules;
use crate::replay::replay;
use crate::session::session;
use crate::simulate::simulate_seed;
use crate::status::{Status, report, status_of, status_of_live};
use crate::verify::verify;
use bar_arguments::WordsFault;
use bar_outside::{Files, Link, Sink, Spawner, stages_go_in_order};
use bar_party_commands::{
    a_bound_broadcaster_has_spent_its_key, a_bound_peer_has_spent_its_key, a_broadcaster_is_done,
    a_broadcaster_stands, a_peer_is_done, a_peer_stands, broadcaster,
    only_its_files_are_changed_by_a_broadcaster, only_its_files_are_changed_by_a_peer, peer,
};
use bar_peer::rules_give_the_run;
use bar_proof::laws::{proofs_are_spelled, tables_are_spelled, what_is_shown_is_packed};
use bar_roster::laws::{accepted_secrets_are_held, accepted_sessions_are_in_range};
use bar_world::laws::honest_peers_stay;
use std::alloc::Global;

/// Runs the command given by the arguments, the first of which names it, and returns the exit status.
pub fn bar_run<F: Files, L: Link, K: Sink, S: Spawner>(
    alloc: Global,
    words: &[String],
    files: &mut F,
    link: &mut L,
    out: &mut K,
    err: &mut K,
    spawn: &mut S,
) -> u8
    // what was done: the meaning of each status, and what was read, written, printed, sent over the link and started
    ensures done { (was : Content) → WasDone (line_of (map string_bytes words.now))
        (outside (F.disk files.old was) (K.stream out.old) (L.wire link.old))
        (outside (F.disk files.new was) (K.stream out.new) (L.wire link.new)) (S.children spawn.old) (S.children spawn.new) result }

    // what holds by the rules over these inputs
    ensures ruled { (was : Content) → ByTheRules (line_of (map string_bytes words.now))
        (outside (F.disk files.old was) (K.stream out.old) (L.wire link.old))
        (outside (F.disk files.new was) (K.stream out.new) (L.wire link.new)) result }

    // what was printed on standard error
    ensures said { (was : Content) → WasSaid (line_of (map string_bytes words.now)) (F.disk files.old was) (F.disk files.new was)
        (K.stream err.old) (K.stream err.new) result }
{
    a_bound_broadcaster_has_spent_its_key();
    a_bound_peer_has_spent_its_key();
    a_broadcaster_is_done();
    a_broadcaster_stands();
    a_peer_is_done();
    a_peer_stands();
    a_replay_keeps_the_rules();
    accepted_secrets_are_held();
    accepted_sessions_are_in_range();
    an_audit_is_told();
    an_audit_stays();
    honest_peers_stay();
    only_its_files_are_changed_by_a_broadcaster();
    only_its_files_are_changed_by_a_peer();
    peers_keep_the_rules();
    proofs_are_spelled();
    rules_give_the_run();
    stages_go_in_order();
    tables_are_spelled();
    what_is_shown_is_packed();
    let status = run_words(alloc, words, files, link, out, spawn);
    report(alloc, &status, err)
}

/// Runs the command given by the arguments, and returns how it ended.
fn run_words<F: Files, L: Link, K: Sink, S: Spawner>(
    alloc: Global,
    words: &[String],
    files: &mut F,
    link: &mut L,
    out: &mut K,
    spawn: &mut S,
) -> Status
    ensures ran { (was : Content) → CommandRan (line_of (map string_bytes words.now))
        (outside (F.disk files.old was) (K.stream out.old) (L.wire link.old))
        (outside (F.disk files.new was) (K.stream out.new) (L.wire link.new)) (S.children spawn.old) (S.children spawn.new)
        (code_of result) (said_at result) }
    ensures usage { code_of result ≡ 2 → line_of (map string_bytes words.now) ≡ None }
    ensures few_leaves { (asked : Keygen) → line_of (map string_bytes words.now) ≡ Some (line.keygen asked) →
        code_of result ≡ 4 → HasFewLeaves asked }
    ensures leaves_refused { (asked : Keygen) → line_of (map string_bytes words.now) ≡ Some (line.keygen asked) → HasFewLeaves asked →
        (code_of result ≡ 4) ⊎ (code_of result ≡ 70) }
{
    match command_of(alloc, words) {
        Ok(command) => run_command(alloc, &command, files, link, out, spawn),
        Err(WordsFault::Usage) => Status::Usage,
        Err(WordsFault::NoMemory) => Status::NoMemory,
    }
}

/// Runs a command, and returns how it ended.
fn run_command<F: Files, L: Link, K: Sink, S: Spawner>(
    alloc: Global,
    command: &Command<'_>,
    files: &mut F,
    link: &mut L,
    out: &mut K,
    spawn: &mut S,
) -> Status
    ensures ran { (was : Content) → CommandRan (Some (command_view command.now))
        (outside (F.disk files.old was) (K.stream out.old) (L.wire link.old))
        (outside (F.disk files.new was) (K.stream out.new) (L.wire link.new)) (S.children spawn.old) (S.children spawn.new)
        (code_of result) (said_at result) }
    ensures leaves { (asked : Keygen) → command_view command.now ≡ line.keygen asked → (code_of result ≡ 4) ↔ HasFewLeaves asked }
{
    match command {
        Command::Peer(names) => status_of_live(peer(alloc, names, files, link, out)),
        Command::Broadcaster(names) => {
            status_of_live(broadcaster(alloc, names, files, link, out))
        }
        Command::Replay(names) => status_of(replay(alloc, names, files, out)),
        Command::Keygen(asked) => status_of(keygen(alloc, asked, files, out)),
        Command::Audit(names) => status_of(audit(alloc, names, files, out)),
        Command::Judge(names) => status_of(judge(alloc, names, files, out)),
        Command::Pack(names) => status_of(pack(alloc, names, files, out)),
        Command::Verify(names) => status_of(verify(alloc, names, files, out)),
        Command::Session(names) => status_of(session(alloc, names, files, out, spawn)),
        Command::Simulate(seed) => status_of(simulate_seed(alloc, *seed, out)),
    }
}
