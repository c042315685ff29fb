//! The arguments of a child.
ghost use Rattle.std.specs.Prelude.{◌≡◌, ◌++◌, ◌∷◌, [], ◌<◌, codes, length, map, string_bytes, IfOk, OnOk};
ghost use Rattle.bar_child_processes.specs.Code.Views.{names_view};
ghost use Rattle.bar_child_processes.specs.Words.{named, words_of};

use crate::session_names::SessionNames;
use std::alloc::{AllocError, Global};

// The name of a party's file.
fn name_of(alloc: Global, front: &str, party: u16, back: &str) -> Result<String, AllocError>
    ensures { IfOk result (λ name. string_bytes name ≡ named front.now party ++ back.now) }
{
    format!(in alloc; "{front}.{party}{back}")
}

// The program and the command.
fn first_words(alloc: Global, program: &str, command: &str) -> Result<Vec<String>, AllocError>
    ensures { IfOk result (λ words. map string_bytes words.items ≡ program.now ∷ command.now ∷ []) }
{
    let mut words = Vec::new(alloc);
    words.push(String::from_str(alloc, program)?)?;
    words.push(String::from_str(alloc, command)?)?;
    Ok(words)
}

// Appends an option and its value.
fn push_option(
    alloc: Global,
    words: &mut Vec<String>,
    name: &str,
    value: &str,
) -> Result<(), AllocError>
    ensures { OnOk result (map string_bytes words.new.items ≡
        map string_bytes words.old.items ++ (codes "--" ++ name.now) ∷ value.now ∷ []) }
{
    words.push(format!(in alloc; "--{name}")?)?;
    words.push(String::from_str(alloc, value)?)?;
    Ok(())
}

fn peer_words(
    alloc: Global,
    names: &SessionNames<'_>,
    party: u16,
) -> Result<Vec<String>, AllocError>
    requires { 0 < party }
    ensures { IfOk result (λ words. map string_bytes words.items ≡ words_of (names_view names.now) party) }
{
    let key = name_of(alloc, names.keys, party, "")?;
    let played = name_of(alloc, names.results, party, ".played")?;
    let recording = name_of(alloc, names.results, party, ".recording")?;
    let found = name_of(alloc, names.results, party, "")?;
    let mut words = first_words(alloc, names.program, "peer")?;
    push_option(alloc, &mut words, "session", names.session)?;
    push_option(alloc, &mut words, "key", key.as_str())?;
    push_option(alloc, &mut words, "begin", names.begin)?;
    push_option(alloc, &mut words, "played", played.as_str())?;
    push_option(alloc, &mut words, "recording", recording.as_str())?;
    push_option(alloc, &mut words, "found", found.as_str())?;
    Ok(words)
}

fn caster_words(alloc: Global, names: &SessionNames<'_>) -> Result<Vec<String>, AllocError>
    ensures { IfOk result (λ words. map string_bytes words.items ≡ words_of (names_view names.now) 0) }
{
    let key = name_of(alloc, names.keys, 0, "")?;
    let found = name_of(alloc, names.results, 0, "")?;
    let mut words = first_words(alloc, names.program, "broadcaster")?;
    push_option(alloc, &mut words, "session", names.session)?;
    push_option(alloc, &mut words, "key", key.as_str())?;
    push_option(alloc, &mut words, "begin", names.begin)?;
    push_option(alloc, &mut words, "stream", names.stream)?;
    push_option(alloc, &mut words, "found", found.as_str())?;
    Ok(words)
}

/// The arguments of the child for this party. There is at least one.
pub fn child_words(
    alloc: Global,
    names: &SessionNames<'_>,
    party: u16,
) -> Result<Vec<String>, AllocError>
    ensures words { IfOk result (λ words. map string_bytes words.items ≡ words_of (names_view names.now) party) }
    ensures some { IfOk result (λ words. 0 < length words.items) }
{
    if party == 0 {
        caster_words(alloc, names)
    } else {
        peer_words(alloc, names, party)
    }
}
