//! Runs of sessions in memory. Before each datagram that is delivered, its receiver gets many changed ones.

use crate::fuzz::changes::change;
use crate::fuzz::counting::{Tally, add_one, may_cost};
use crate::fuzz::drawing::Draw;
use crate::fuzz::parties::{
    Parcel, Parties, Signers, add_sends, count_evidence, count_sends, parties_of, session_of,
    signers_of,
};
use crate::fuzz::spelling::{Told, read_again};
use crate::fuzz::stop::Stop;
use bar_hss::SessionScheme;
use bar_judge::add_entry;
use bar_seal::{Scheme, Verifier};
use bar_wire::{EVERYONE, Input, Shape};
use std::alloc::{AllocError, Global};

/// One in this many changed datagrams may reach the verifier.
const ONE_VERIFIED_IN: u64 = 150;

/// One in this many changed datagrams is signed again.
const ONE_SIGNED_IN: usize = 500;

/// One in this many sent datagrams is lost.
const ONE_LOST_IN: usize = 8;

/// The state that all courses share: random numbers, counts and buffers.
#[derive(Drop)]
pub struct Work {
    pub draw: Draw,
    pub tally: Tally,
    /// The datagram that is changed.
    pub made: Vec<u8>,
    /// The buffer for datagrams sent and datagrams encoded again.
    pub buf: Vec<u8>,
    /// Datagrams of other sessions.
    pub others: Vec<Vec<u8>>,
}

/// A running session.
#[derive(Drop)]
pub struct Course {
    pub shape: Shape,
    /// The keys that sign changed datagrams again, if any do.
    pub signers: Signers,
    /// How many changed datagrams precede each one that is delivered.
    pub burst: usize,
    /// What was sent.
    pub sent: Vec<Parcel>,
    /// What the first peer took.
    pub taken: Vec<Option<Vec<u8>>>,
    /// The file of the manifests of all rounds.
    pub table: Vec<u8>,
}

/// One of the datagrams that were sent, or sometimes one of another session.
pub fn any_of<'a>(draw: &mut Draw, sent: &'a [Parcel], others: &'a [Vec<u8>]) -> &'a [u8] {
    if draw.is_one_in(8) {
        if let Some(other) = others.get(draw.below(others.len())) {
            return other;
        }
    }
    match sent.get(draw.below(sent.len())) {
        Some(parcel) => &parcel.bytes,
        None => b"",
    }
}

/// The datagram to change: every other time the one to be delivered next.
fn base_of<'a>(
    draw: &mut Draw,
    datagram: &'a [u8],
    sent: &'a [Parcel],
    others: &'a [Vec<u8>],
) -> &'a [u8] {
    if draw.is_one_in(2) {
        datagram
    } else {
        any_of(draw, sent, others)
    }
}

/// Makes a changed datagram from the one to be delivered next or from any other.
pub fn make_changed(work: &mut Work, sent: &[Parcel], datagram: &[u8]) -> Result<(), AllocError> {
    let Work {
        draw,
        made,
        others,
        ..
    } = work;
    let base = base_of(draw, datagram, sent, others);
    made.clear();
    made.extend_from_slice(base)?;
    for _ in 0..draw.below(3).saturating_add(1) {
        let other = any_of(draw, sent, others);
        change(draw, made, other)?;
    }
    Ok(())
}

/// Replaces what follows the message by a party's signature. The leaf is drawn at random, every other time among the first 18.
fn sign(
    alloc: Global,
    draw: &mut Draw,
    scheme: &SessionScheme,
    made: &mut Vec<u8>,
    message_len: usize,
) -> Result<(), Stop> {
    let leaves = scheme.leaves();
    let most = if draw.is_one_in(2) { 18 } else { leaves };
    let leaf = (draw.below(most.min(leaves) as usize) & 0xffff) as u32;
    if leaf >= leaves {
        return Err(Stop::Found("a key has no such leaf"));
    }
    let message = made.get(..message_len).unwrap_or(b"");
    let mut signature = vec![in alloc; 0; scheme.sig_len()]?;
    scheme.sign(leaf, message, &mut signature);
    made.truncate(message_len);
    made.extend_from_slice(&signature)?;
    Ok(())
}

/// Signs the changed datagram again with its sender's key, if it decodes as a signed datagram and there are keys.
pub fn sign_anew(
    alloc: Global,
    work: &mut Work,
    shape: &Shape,
    signers: &Signers,
) -> Result<(), Stop> {
    let Ok(told) = read_again(&work.made, shape, &mut work.buf)? else {
        return Ok(());
    };
    if !told.is_signed {
        return Ok(());
    }
    if let Some(scheme) = signers.of(told.from) {
        sign(
            alloc,
            &mut work.draw,
            scheme,
            &mut work.made,
            told.message_len,
        )?;
        add_one(&mut work.tally.signed);
    }
    Ok(())
}

/// Whether this party may verify the changed datagram.
fn is_checkable(told: Told, party: u16) -> bool {
    told.is_signed && (told.to == party || told.to == EVERYONE)
}

/// Counts the changed datagram by how it decodes. If too many would be verified, it loses its last byte.
fn count_read(work: &mut Work, shape: &Shape, party: u16) -> Result<(), Stop> {
    add_one(&mut work.tally.tried);
    let told = match read_again(&work.made, shape, &mut work.buf)? {
        Ok(told) => told,
        Err(fault) => {
            work.tally.add_fault(fault);
            return Ok(());
        }
    };
    if !is_checkable(told, party) {
        add_one(&mut work.tally.read);
        return Ok(());
    }
    if may_cost(work.tally.checkable, work.tally.tried, ONE_VERIFIED_IN) {
        add_one(&mut work.tally.checkable);
        add_one(&mut work.tally.read);
        return Ok(());
    }
    work.made.pop();
    match read_again(&work.made, shape, &mut work.buf)? {
        Ok(_) => add_one(&mut work.tally.read),
        Err(fault) => work.tally.add_fault(fault),
    }
    Ok(())
}

/// Lets a party take the changed datagram, and counts its answers and whether it keeps new evidence.
fn tell(work: &mut Work, parties: &mut Parties, party: u16) -> Result<(), Stop> {
    let before = count_evidence(parties, party);
    let input = Input::Datagram(&work.made);
    let sent = count_sends(parties, party, input, &mut work.buf)?;
    let tally = &mut work.tally;
    tally.sent = tally.sent.saturating_add(sent);
    if sent > 0 {
        add_one(&mut tally.answered);
    }
    if count_evidence(parties, party) > before {
        add_one(&mut tally.shown);
    }
    Ok(())
}

/// Gives a party many changed datagrams before this one.
fn tell_changed(
    alloc: Global,
    work: &mut Work,
    course: &Course,
    parties: &mut Parties,
    party: u16,
    datagram: &[u8],
) -> Result<(), Stop> {
    for _ in 0..course.burst {
        make_changed(work, &course.sent, datagram)?;
        if work.draw.is_one_in(ONE_SIGNED_IN) {
            sign_anew(alloc, work, &course.shape, &course.signers)?;
        }
        count_read(work, &course.shape, party)?;
        tell(work, parties, party)?;
    }
    Ok(())
}

/// Notes what a party took, if it is the first peer.
fn note(course: &mut Course, party: u16, input: Option<Vec<u8>>) -> Result<(), Stop> {
    if party == 1 {
        course.taken.push(input)?;
    }
    Ok(())
}

/// Delivers a datagram after changed ones, unless it is lost.
fn deliver(
    alloc: Global,
    work: &mut Work,
    course: &mut Course,
    parties: &mut Parties,
    to: u16,
    datagram: Vec<u8>,
) -> Result<(), Stop> {
    tell_changed(alloc, work, course, parties, to, &datagram)?;
    if work.draw.is_one_in(ONE_LOST_IN) {
        return Ok(());
    }
    let input = Input::Datagram(&datagram);
    add_sends(alloc, parties, to, input, &mut work.buf, &mut course.sent)?;
    note(course, to, Some(datagram))
}

/// More datagrams than are sent in one tick of these sessions.
const MANY: usize = 400;

/// Delivers all datagrams sent from a place on, and those sent in response.
fn deliver_all(
    alloc: Global,
    work: &mut Work,
    course: &mut Course,
    parties: &mut Parties,
    first: usize,
) -> Result<(), Stop> {
    for before in 0..MANY {
        let Some(parcel) = course.sent.get(first.saturating_add(before)) else {
            return Ok(());
        };
        let (to, datagram) = (parcel.to, parcel.bytes.to_vec(alloc)?);
        deliver(alloc, work, course, parties, to, datagram)?;
    }
    Ok(())
}

/// All parties take a tick.
fn tick_all(
    alloc: Global,
    work: &mut Work,
    course: &mut Course,
    parties: &mut Parties,
) -> Result<(), Stop> {
    for party in 0..3u16 {
        let (buf, sent) = (&mut work.buf, &mut course.sent);
        add_sends(alloc, parties, party, Input::Tick, buf, sent)?;
        note(course, party, None)?;
    }
    Ok(())
}

/// Adds the broadcaster's manifests to the table file.
fn add_manifests(parties: &Parties, course: &mut Course) -> Result<(), Stop> {
    for before in 0..3u32 {
        let Some(manifest) = parties.manifest(before + 1) else {
            return Err(Stop::Found("a round has no manifest"));
        };
        if manifest.len() > 65_535 {
            return Err(Stop::Found("a manifest is longer than a datagram"));
        }
        add_entry(&mut course.table, manifest)?;
    }
    Ok(())
}

/// How many ticks these sessions have.
pub const TICKS: u32 = 64;

/// The keys that sign changed datagrams again, if any do.
fn signers_if(alloc: Global, text: &str, is_signing: bool) -> Result<Signers, Stop> {
    if is_signing {
        signers_of(alloc, text)
    } else {
        Ok(Signers::none(alloc))
    }
}

/// A session in which nothing was sent yet.
fn course_of(alloc: Global, text: &str, burst: usize, is_signing: bool) -> Result<Course, Stop> {
    let shape = session_of(alloc, text)?.shape();
    let signers = signers_if(alloc, text, is_signing)?;
    Ok(Course {
        shape,
        signers,
        burst,
        sent: Vec::new(alloc),
        taken: Vec::new(alloc),
        table: Vec::new(alloc),
    })
}

/// Runs all ticks, each followed by all deliveries.
fn take_ticks(
    alloc: Global,
    work: &mut Work,
    course: &mut Course,
    parties: &mut Parties,
) -> Result<(), Stop> {
    for _ in 0..TICKS {
        let first = course.sent.len();
        tick_all(alloc, work, course, parties)?;
        deliver_all(alloc, work, course, parties, first)?;
    }
    add_manifests(parties, course)
}

/// Runs a session with its changed datagrams, and returns what was sent in it.
pub fn run_course(
    alloc: Global,
    work: &mut Work,
    text: &str,
    burst: usize,
    is_signing: bool,
) -> Result<Course, Stop> {
    let mut course = course_of(alloc, text, burst, is_signing)?;
    let mut parties = parties_of(alloc, text)?;
    take_ticks(alloc, work, &mut course, &mut parties)?;
    Ok(course)
}
