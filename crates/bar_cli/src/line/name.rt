//! The names of the commands, and their options.
ghost use Rattle.std.specs.Prelude.{◌≡◌};
ghost use Rattle.std.specs.Option.{option_map};
ghost use Rattle.bar_arguments.specs.Options.{texts};
ghost use Rattle.bar_cli.specs.Line.{asked_with, command_named, options_of};
ghost use Rattle.bar_cli.specs.Code.Views.{command_view};

use super::Command;
use super::audit::{AUDIT_OPTIONS, audit_of};
use super::broadcaster::{BROADCASTER_OPTIONS, broadcaster_of};
use super::judge::{JUDGE_OPTIONS, judge_of};
use super::keygen::{HSSKEYGEN_OPTIONS, KEYGEN_OPTIONS, hsskeygen_of, keygen_of};
use super::pack::{PACK_OPTIONS, pack_of};
use super::peer::{PEER_OPTIONS, peer_of};
use super::replay::{REPLAY_OPTIONS, replay_of};
use super::session::{SESSION_OPTIONS, session_of};
use super::simulate::{SIMULATE_OPTIONS, seed_of};
use super::verify::{VERIFY_OPTIONS, verify_of};

/// The name of a command.
#[derive(Clone, Copy, Debug, PartialEq, Eq)]
pub enum CommandName {
    Peer,
    Broadcaster,
    Replay,
    Keygen,
    HssKeygen,
    Audit,
    Judge,
    Pack,
    Verify,
    Session,
    Simulate,
}

impl CommandName {
    /// The command that an argument names.
    pub(super) fn read(word: &str) -> Option<CommandName>
        ensures { result ≡ command_named word.now }
    {
        match word {
            "peer" => Some(CommandName::Peer),
            "broadcaster" => Some(CommandName::Broadcaster),
            "replay" => Some(CommandName::Replay),
            "keygen" => Some(CommandName::Keygen),
            "hsskeygen" => Some(CommandName::HssKeygen),
            "audit" => Some(CommandName::Audit),
            "judge" => Some(CommandName::Judge),
            "pack" => Some(CommandName::Pack),
            "verify" => Some(CommandName::Verify),
            "session" => Some(CommandName::Session),
            "simulate" => Some(CommandName::Simulate),
            _ => None,
        }
    }

    /// Its options. Each is given exactly once, with a value.
    pub(super) fn options(self) -> &'static [&'static str]
        ensures { texts result.now ≡ options_of self }
    {
        match self {
            CommandName::Peer => &PEER_OPTIONS,
            CommandName::Broadcaster => &BROADCASTER_OPTIONS,
            CommandName::Replay => &REPLAY_OPTIONS,
            CommandName::Keygen => &KEYGEN_OPTIONS,
            CommandName::HssKeygen => &HSSKEYGEN_OPTIONS,
            CommandName::Audit => &AUDIT_OPTIONS,
            CommandName::Judge => &JUDGE_OPTIONS,
            CommandName::Pack => &PACK_OPTIONS,
            CommandName::Verify => &VERIFY_OPTIONS,
            CommandName::Session => &SESSION_OPTIONS,
            CommandName::Simulate => &SIMULATE_OPTIONS,
        }
    }

    /// The command with the values of its options, in the order of `options`.
    pub(super) fn asked<'a>(self, values: &[&'a str]) -> Option<Command<'a>>
        ensures { option_map command_view result ≡ asked_with self (texts values.now) }
    {
        Some(match self {
            CommandName::Peer => Command::Peer(peer_of(values)?),
            CommandName::Broadcaster => Command::Broadcaster(broadcaster_of(values)?),
            CommandName::Replay => Command::Replay(replay_of(values)?),
            CommandName::Keygen => Command::Keygen(keygen_of(values)?),
            CommandName::HssKeygen => Command::Keygen(hsskeygen_of(values)?),
            CommandName::Audit => Command::Audit(audit_of(values)?),
            CommandName::Judge => Command::Judge(judge_of(values)?),
            CommandName::Pack => Command::Pack(pack_of(values)?),
            CommandName::Verify => Command::Verify(verify_of(values)?),
            CommandName::Session => Command::Session(session_of(values)?),
            CommandName::Simulate => Command::Simulate(seed_of(values)?),
        })
    }
}
