//! How the program ends, and what it then prints.
ghost use Rattle.std.specs.Prelude.{◌≡◌, ◌⊎◌, ℕ, List, IfOk, Err, string_bytes};
ghost use Rattle.bar_outside.specs.Ends.{Prints};
ghost use Rattle.bar_cli.specs.Refusals.{session_refused, key_refused, record_fault_text, recording_refused, stream_refused, proof_fault_text, proof_refused, secret_refused, table_refused};
ghost use Rattle.bar_party_commands.specs.Code.Views.{code_of as live_code_of, said_at as live_said_at, code_of_run as live_code_of_run, said_by_run as live_said_by_run};
ghost use Rattle.bar_child_processes.specs.Outcomes.{code_of as outcome_code};
ghost use Rattle.bar_cli.specs.Session.{line_of_end};
ghost use Rattle.bar_cli.specs.Status.{code_of, said_at, code_of_run, said_by_run};

use bar_child_processes::Outcome;
use bar_outside::{Fault, Sink, SinkFault};
use bar_party_commands::Ended;
use bar_proof::ProofFault;
use bar_record::RecordFault;
use bar_roster::{KeyFileFault, SessionFault};
use std::alloc::{AllocError, Global};

/// The exit status if memory runs out.
const NO_MEMORY: u8 = 70;

/// How the program ends.
#[derive(Debug, PartialEq, Eq, Drop)]
pub enum Status {
    /// The command completed.
    Done,
    /// `judge`, `pack` or `verify` shows no fault.
    NoFault,
    /// An audited exchange isn't balanced.
    Unbalanced,
    /// The arguments aren't a valid command line.
    Usage,
    FileFailed,
    LinkFailed,
    /// The session's text is refused, or there are too few leaves for a key's rounds.
    SessionRefused(SessionFault),
    KeyRefused(KeyFileFault),
    OutputFailed,
    RecordingRefused(RecordFault),
    /// The parties of an audit aren't peers of the session, or the first exceeds the last.
    PartiesRefused,
    /// The stream has `have` bytes, and the session has room for only `room`.
    StreamRefused { have: u64, room: u64 },
    /// The length of a secret that doesn't have 32 bytes.
    SecretRefused(usize),
    /// The table has a bad entry at this place.
    TableRefused(u64),
    EvidenceRefused,
    ProofRefused(ProofFault),
    /// A child couldn't be started or waited for, or ended with a status other than 0.
    ChildFailed,
    NoMemory,
}

impl Status {
    /// The program's exit status.
    pub fn code(&self) -> u8
        ensures { result ≡ code_of self.now }
    {
        match self {
            Status::Done => 0,
            Status::NoFault => 1,
            Status::Unbalanced => 1,
            Status::Usage => 2,
            Status::FileFailed => 3,
            Status::SessionRefused(_) => 4,
            Status::KeyRefused(_) => 5,
            Status::LinkFailed => 6,
            Status::OutputFailed => 7,
            Status::RecordingRefused(_) => 8,
            Status::PartiesRefused => 8,
            Status::StreamRefused { .. } => 8,
            Status::SecretRefused(_) => 8,
            Status::TableRefused(_) => 8,
            Status::EvidenceRefused => 8,
            Status::ProofRefused(_) => 8,
            Status::ChildFailed => 9,
            Status::NoMemory => NO_MEMORY,
        }
    }
}

impl From<Fault> for Status {
    fn from(fault: Fault) -> Self
        ensures code { code_of result ≡ code_of_run (Err fault) }
        ensures line { said_at result ≡ said_by_run (Err fault) }
    {
        match fault {
            Fault::File => Status::FileFailed,
            Fault::Link => Status::LinkFailed,
            Fault::Output => Status::OutputFailed,
            Fault::NoMemory => Status::NoMemory,
        }
    }
}

impl From<Ended> for Status {
    fn from(ended: Ended) -> Self
        ensures code { code_of result ≡ live_code_of ended }
        ensures line { said_at result ≡ live_said_at ended }
    {
        match ended {
            Ended::Done => Status::Done,
            Ended::SessionRefused(fault) => Status::SessionRefused(fault),
            Ended::KeyRefused(fault) => Status::KeyRefused(fault),
            Ended::StreamRefused { have, room } => Status::StreamRefused { have, room },
        }
    }
}

impl From<Outcome> for Status {
    fn from(outcome: Outcome) -> Self
        ensures code { code_of result ≡ outcome_code outcome }
        ensures line { said_at result ≡ line_of_end (outcome_code outcome) }
    {
        match outcome {
            Outcome::Done => Status::Done,
            Outcome::ChildFailed => Status::ChildFailed,
            Outcome::OutputFailed => Status::OutputFailed,
            Outcome::NoMemory => Status::NoMemory,
        }
    }
}

/// The status of a command over a link that a fault may have stopped.
pub fn status_of_live(ended: Result<Ended, Fault>) -> Status
    ensures code { code_of result ≡ live_code_of_run ended }
    ensures line { said_at result ≡ live_said_by_run ended }
{
    match ended {
        Ok(ended) => Status::from(ended),
        Err(fault) => Status::from(fault),
    }
}

/// The status of a command that a fault may have stopped.
pub fn status_of(ended: Result<Status, Fault>) -> Status
    ensures code { code_of result ≡ code_of_run ended }
    ensures line { said_at result ≡ said_by_run ended }
{
    match ended {
        Ok(status) => status,
        Err(fault) => Status::from(fault),
    }
}

// Prints a line. A failed write doesn't change the status; running out of memory makes it 70.
fn print_line<K: Sink>(line: &[u8], code: u8, err: &mut K) -> u8
    ensures code { (result ≡ code) ⊎ (result ≡ 70) }
    ensures said { Prints line.now result (K.stream err.old) (K.stream err.new) }
{
    match err.write(line) {
        Ok(()) => code,
        Err(SinkFault::Failed) => code,
        Err(SinkFault::NoMemory) => NO_MEMORY,
    }
}

// Prints a line if it could be built; if memory ran out, it prints nothing.
fn print_text<K: Sink>(text: Result<String, AllocError>, code: u8, err: &mut K) -> u8
    ensures code { (result ≡ code) ⊎ (result ≡ 70) }
    ensures said { (line : List ℕ) → IfOk text (λ text. string_bytes text ≡ line) →
        Prints line result (K.stream err.old) (K.stream err.new) }
{
    match text {
        Ok(text) => print_line(text.as_bytes(), code, err),
        Err(_) => NO_MEMORY,
    }
}

fn session_refusal(alloc: Global, fault: &SessionFault) -> Result<String, AllocError>
    ensures { IfOk result (λ line. string_bytes line ≡ session_refused fault.now) }
{
    format!(in alloc; "bar: session refused: {fault}\n")
}

fn key_refusal(alloc: Global, fault: KeyFileFault) -> Result<String, AllocError>
    ensures { IfOk result (λ line. string_bytes line ≡ key_refused fault) }
{
    format!(in alloc; "bar: key refused: {fault}\n")
}

/// The text of a recording's fault, with its place if it has one.
fn record_fault_text(alloc: Global, fault: RecordFault) -> Result<String, AllocError>
    ensures { IfOk result (λ text. string_bytes text ≡ record_fault_text fault) }
{
    match fault {
        RecordFault::BadHead => String::from_str(alloc, "BadHead"),
        RecordFault::BadEntry { at } => format!(in alloc; "BadEntry at {at}"),
        RecordFault::NoEnd => String::from_str(alloc, "NoEnd"),
        RecordFault::AfterEnd => String::from_str(alloc, "AfterEnd"),
        RecordFault::AfterLast { at } => format!(in alloc; "AfterLast at {at}"),
    }
}

fn recording_refusal(alloc: Global, fault: RecordFault) -> Result<String, AllocError>
    ensures { IfOk result (λ line. string_bytes line ≡ recording_refused fault) }
{
    let fault = record_fault_text(alloc, fault)?;
    format!(in alloc; "bar: input refused: recording {fault}\n")
}

fn stream_refusal(alloc: Global, have: u64, room: u64) -> Result<String, AllocError>
    ensures { IfOk result (λ line. string_bytes line ≡ stream_refused have room) }
{
    format!(in alloc; "bar: input refused: stream have {have} room {room}\n")
}

fn secret_refusal(alloc: Global, len: usize) -> Result<String, AllocError>
    ensures { IfOk result (λ line. string_bytes line ≡ secret_refused len) }
{
    format!(in alloc; "bar: input refused: secret length {len}\n")
}

fn table_refusal(alloc: Global, at: u64) -> Result<String, AllocError>
    ensures { IfOk result (λ line. string_bytes line ≡ table_refused at) }
{
    format!(in alloc; "bar: input refused: table at {at}\n")
}

/// The text of a proof file's fault, with its place if it has one.
fn proof_fault_text(alloc: Global, fault: ProofFault) -> Result<String, AllocError>
    ensures { IfOk result (λ text. string_bytes text ≡ proof_fault_text fault) }
{
    match fault {
        ProofFault::BadHead => String::from_str(alloc, "BadHead"),
        ProofFault::BadManifest { at } => format!(in alloc; "manifest at {at}"),
        ProofFault::BadEvidence => String::from_str(alloc, "evidence"),
        ProofFault::NoMemory => String::from_str(alloc, "NoMemory"),
    }
}

fn proof_refusal(alloc: Global, fault: ProofFault) -> Result<String, AllocError>
    ensures { IfOk result (λ line. string_bytes line ≡ proof_refused fault) }
{
    let fault = proof_fault_text(alloc, fault)?;
    format!(in alloc; "bar: input refused: proof {fault}\n")
}

/// Prints the line of the status and returns the exit status. A failed write doesn't change it; running out of memory makes it 70.
pub fn report<K: Sink>(alloc: Global, status: &Status, err: &mut K) -> u8
    ensures code { (result ≡ code_of status.now) ⊎ (result ≡ 70) }
    ensures said { Prints (said_at status.now) result (K.stream err.old) (K.stream err.new) }
    ensures silent { (result ≡ 0) ⊎ (result ≡ 1) → K.stream err.new ≡ K.stream err.old }
{
    let code = status.code();
    match status {
        Status::Done => code,
        Status::NoFault => code,
        Status::Unbalanced => code,
        Status::Usage => print_line(b"bar: usage\n", code, err),
        Status::FileFailed => print_line(b"bar: file failed\n", code, err),
        Status::LinkFailed => print_line(b"bar: link failed\n", code, err),
        Status::SessionRefused(fault) => print_text(session_refusal(alloc, fault), code, err),
        Status::KeyRefused(fault) => print_text(key_refusal(alloc, *fault), code, err),
        Status::OutputFailed => print_line(b"bar: output failed\n", code, err),
        Status::RecordingRefused(fault) => print_text(recording_refusal(alloc, *fault), code, err),
        Status::PartiesRefused => print_line(b"bar: input refused: parties\n", code, err),
        Status::StreamRefused { have, room } => {
            print_text(stream_refusal(alloc, *have, *room), code, err)
        }
        Status::SecretRefused(len) => print_text(secret_refusal(alloc, *len), code, err),
        Status::TableRefused(at) => print_text(table_refusal(alloc, *at), code, err),
        Status::EvidenceRefused => print_line(b"bar: input refused: evidence\n", code, err),
        Status::ProofRefused(fault) => print_text(proof_refusal(alloc, *fault), code, err),
        Status::ChildFailed => print_line(b"bar: child failed\n", code, err),
        Status::NoMemory => print_line(b"bar: no memory\n", code, err),
    }
}
