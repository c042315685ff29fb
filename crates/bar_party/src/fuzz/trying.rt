//! Changed files and texts, made from what a session sent and took.

use crate::fuzz::changes::{change, change_text};
use crate::fuzz::counting::Readers;
use crate::fuzz::courses::{Course, TICKS, Work, any_of, make_changed, sign_anew};
use crate::fuzz::parties::session_of;
use crate::fuzz::reading::{
    add_input, joined, table_of, try_evidence, try_key, try_recording, try_session, try_table,
};
use crate::fuzz::stop::Stop;
use bar_record::head;
use bar_roster::Session;
use bar_terms::Table;
use bar_wire::{Input, LARGEST_DATAGRAM};
use std::alloc::Global;

/// The texts that are changed: sessions, and a small one with the key of its peer 1.
#[derive(Drop)]
pub struct Texts {
    pub sessions: Vec<String>,
    pub small: String,
    pub key: Vec<u8>,
}

/// A datagram that was sent: unchanged, changed, or changed and signed again.
fn any_datagram(alloc: Global, work: &mut Work, course: &Course) -> Result<Vec<u8>, Stop> {
    let datagram = any_of(&mut work.draw, &course.sent, &work.others).to_vec(alloc)?;
    if work.draw.is_one_in(2) {
        return Ok(datagram);
    }
    make_changed(work, &course.sent, &datagram)?;
    if work.draw.is_one_in(50) {
        sign_anew(alloc, work, &course.shape, &course.signers)?;
    }
    Ok(work.made.to_vec(alloc)?)
}

/// Evidence of one or two datagrams that were sent, unchanged or changed. Sometimes it is of one and a changed copy that was signed again.
fn any_piece(alloc: Global, work: &mut Work, course: &Course) -> Result<Vec<u8>, Stop> {
    let one = any_datagram(alloc, work, course)?;
    if work.draw.is_one_in(100) {
        make_changed(work, &course.sent, &one)?;
        sign_anew(alloc, work, &course.shape, &course.signers)?;
        return Ok(joined(alloc, &one, Some(&work.made))?);
    }
    if work.draw.is_one_in(3) {
        return Ok(joined(alloc, &one, None)?);
    }
    let two = any_datagram(alloc, work, course)?;
    Ok(joined(alloc, &one, Some(&two))?)
}

/// Tries this many pieces of evidence, unchanged and changed.
fn try_pieces(
    alloc: Global,
    work: &mut Work,
    course: &Course,
    session: &Session,
    table: &Table,
    readers: &mut Readers,
    count: usize,
) -> Result<(), Stop> {
    for _ in 0..count {
        let mut bytes = any_piece(alloc, work, course)?;
        if work.draw.is_one_in(2) {
            change(&mut work.draw, &mut bytes, &course.table)?;
        }
        try_evidence(alloc, &bytes, session, table, readers)?;
    }
    Ok(())
}

/// Tries this many changed table files.
fn try_tables(
    alloc: Global,
    work: &mut Work,
    course: &Course,
    session: &Session,
    readers: &mut Readers,
    count: usize,
) -> Result<(), Stop> {
    for _ in 0..count {
        let mut bytes = course.table.to_vec(alloc)?;
        for _ in 0..work.draw.below(3) {
            let other = any_of(&mut work.draw, &course.sent, &work.others);
            change(&mut work.draw, &mut bytes, other)?;
        }
        let buf = &mut work.buf;
        try_table(alloc, &bytes, session, buf, &mut readers.table)?;
    }
    Ok(())
}

/// A recording of some consecutive inputs of the first peer.
fn recording_of(
    alloc: Global,
    work: &mut Work,
    course: &Course,
    room: &mut [u8],
) -> Result<Vec<u8>, Stop> {
    let mut bytes = head(&course.shape.id, 1).to_vec(alloc)?;
    let first = work.draw.below(course.taken.len());
    for before in 0..work.draw.below(12) {
        match course.taken.get(first.saturating_add(before)) {
            Some(Some(datagram)) => {
                let input = Input::Datagram(datagram);
                add_input(&input, &mut bytes, room)?;
            }
            Some(None) => add_input(&Input::Tick, &mut bytes, room)?,
            None => {}
        }
    }
    bytes.push(0)?;
    Ok(bytes)
}

/// Tries this many changed recordings.
fn try_recordings(
    alloc: Global,
    work: &mut Work,
    course: &Course,
    readers: &mut Readers,
    count: usize,
) -> Result<(), Stop> {
    let mut room = vec![in alloc; 0; usize::from(LARGEST_DATAGRAM) + 3]?;
    for _ in 0..count {
        let mut bytes = recording_of(alloc, work, course, &mut room)?;
        for _ in 0..work.draw.below(3) {
            let other = any_of(&mut work.draw, &course.sent, &work.others);
            change(&mut work.draw, &mut bytes, other)?;
        }
        let trials = &mut readers.recording;
        try_recording(alloc, &bytes, &course.shape, 1, TICKS, &mut room, trials)?;
    }
    Ok(())
}

/// Tries this many changed texts of sessions and of keys.
fn try_texts(
    alloc: Global,
    work: &mut Work,
    texts: &Texts,
    readers: &mut Readers,
    count: usize,
) -> Result<(), Stop> {
    let small = session_of(alloc, texts.small.as_str())?;
    for _ in 0..count {
        let place = work.draw.below(texts.sessions.len());
        let text = texts.sessions.get(place).map_or("", |text| text.as_str());
        let mut bytes = text.as_bytes().to_vec(alloc)?;
        for _ in 0..work.draw.below(3).saturating_add(1) {
            change_text(&mut work.draw, alloc, &mut bytes, &texts.key)?;
        }
        try_session(alloc, &bytes, &mut readers.session)?;
        let mut bytes = texts.key.to_vec(alloc)?;
        for _ in 0..work.draw.below(3).saturating_add(1) {
            change_text(&mut work.draw, alloc, &mut bytes, text.as_bytes())?;
        }
        try_key(alloc, &bytes, &small, &mut readers.key)?;
    }
    Ok(())
}

/// Tries this many changed files and texts at each call, after a session.
pub fn try_all(
    alloc: Global,
    work: &mut Work,
    course: &Course,
    texts: &Texts,
    text: &str,
    readers: &mut Readers,
    count: usize,
) -> Result<(), Stop> {
    let session = session_of(alloc, text)?;
    let Some(table) = table_of(alloc, &course.table, &session)? else {
        return Err(Stop::Found("the broadcaster's manifests are no table"));
    };
    try_pieces(alloc, work, course, &session, &table, readers, count)?;
    try_tables(alloc, work, course, &session, readers, count)?;
    try_recordings(alloc, work, course, readers, count)?;
    try_texts(alloc, work, texts, readers, count)
}
