//! The broadcaster and the two peers of a session, their keys, and their outputs.
ghost use Rattle.std.specs.Prelude.{◌≡◌, ◌<◌, [], IfOk};
ghost use Rattle.bar_hss.specs.Files.{IsPartyKeyOf};
ghost use Rattle.bar_core.specs.Code.Orders.{left_in};
ghost use Rattle.bar_peer.specs.Code.StandsFor.{contents_left};

use crate::fuzz::stop::Stop;
use bar_bytes::Steps;
use bar_caster::Caster;
use bar_hss::{PartyKey, SessionScheme};
use bar_peer::Peer;
use bar_roster::{KeyData, Session};
use bar_wire::{Input, LARGEST_DATAGRAM};
use std::alloc::{AllocError, Global};
use std::marker::Brand;
use std::sync::ledger::{Blank, Ledger};

/// A datagram and its receiver.
#[derive(Drop)]
pub struct Parcel {
    pub to: u16,
    pub bytes: Vec<u8>,
}

/// All parties of a session: its one broadcaster, and its peers from 1 on.
#[derive(Drop)]
pub struct Parties {
    casters: Vec<Caster<SessionScheme>>,
    peers: Vec<Peer<SessionScheme>>,
}

impl Parties {
    /// The broadcaster's datagram of the manifest of a round.
    pub fn manifest(&self, round: u32) -> Option<&[u8]> {
        self.casters.first()?.manifest(round)
    }
}

/// The signature schemes of the parties, from party 0 on.
#[derive(Drop)]
pub struct Signers {
    schemes: Vec<SessionScheme>,
}

impl Signers {
    /// Signers for no party.
    pub fn none(alloc: Global) -> Signers {
        Signers {
            schemes: Vec::new(alloc),
        }
    }

    /// The signature scheme of a party, if there is one.
    pub fn of(&self, party: u16) -> Option<&SessionScheme> {
        self.schemes.get(usize::from(party))
    }
}

pub fn session_of(alloc: Global, text: &str) -> Result<Session, Stop> {
    let Ok(session) = Session::read(alloc, text.as_bytes()) else {
        return Err(Stop::Found("a session is refused"));
    };
    Ok(session)
}

/// The data of a party's key text. Each of the 32 bytes of its secret is its number plus 7.
pub fn key_data(session: &Session, party: u8) -> KeyData {
    let shape = session.shape();
    let params = session.params();
    let id = shape.id;
    let secret = [party.saturating_add(7); 32];
    KeyData {
        party: u16::from(party),
        id,
        rounds: shape.rounds,
        lms: params.lms(),
        ots: params.ots(),
        top: session.top(),
        secret,
        spent: false,
    }
}

/// The key of the broadcaster or of a peer.
fn key_of(alloc: Global, session: &Session, caster: bool, party: u8) -> Result<PartyKey, Stop>
    ensures { IfOk result (IsPartyKeyOf session.now caster) }
{
    let text = key_data(session, party).text(alloc)?;
    let Ok(key) = PartyKey::read(alloc, &text, session, caster, false) else {
        return Err(Stop::Found("a key is refused"));
    };
    Ok(key)
}

fn peer_of(alloc: Global, text: &str, party: u8) -> Result<Peer<SessionScheme>, Stop> {
    let session = session_of(alloc, text)?;
    let key = key_of(alloc, &session, false, party)?;
    Ok(Peer::of_key(alloc, session, key)?)
}

/// The broadcaster, whose stream fills three rounds of eight updates.
fn caster_of(alloc: Global, text: &str) -> Result<Caster<SessionScheme>, Stop> {
    let session = session_of(alloc, text)?;
    let key = key_of(alloc, &session, true, 0)?;
    let stream = vec![in alloc; 7; 24_528]?;
    let Ok(caster) = Caster::of_key(alloc, session, key, stream) else {
        return Err(Stop::Found("the broadcaster isn't started"));
    };
    Ok(caster)
}

pub fn parties_of(alloc: Global, text: &str) -> Result<Parties, Stop> {
    let mut casters = Vec::new(alloc);
    casters.push(caster_of(alloc, text)?)?;
    let mut peers = Vec::new(alloc);
    for party in 1..=2u8 {
        peers.push(peer_of(alloc, text, party)?)?;
    }
    Ok(Parties { casters, peers })
}

pub fn signers_of(alloc: Global, text: &str) -> Result<Signers, Stop> {
    let session = session_of(alloc, text)?;
    let mut schemes = Vec::new(alloc);
    for party in 0..=2u8 {
        schemes.push(key_of(alloc, &session, party == 0, party)?.scheme)?;
    }
    Ok(Signers { schemes })
}

fn step_peer_with<L: Ledger>(peer: &mut Peer<SessionScheme>, input: Input<'_>, blank: Blank)
    requires name { blank.name ≡ L.name }
    requires parts { blank.parts ≡ L.parts }
    requires some { 0 < L.parts }
    requires sends { left_in peer.old.orders ≡ [] }
    requires contents { contents_left peer.old.memory.store peer.old.playing ≡ [] }
{
    peer.step(input, &mut Steps::<L>::new(blank));
}

fn step_peer(peer: &mut Peer<SessionScheme>, input: Input<'_>) -> Result<(), Stop> {
    let idle = peer.idle();
    if !idle {
        return Err(Stop::Found("a peer has more to give out"));
    }
    step_peer_with::<Brand>(peer, input, Blank::new(1));
    Ok(())
}

fn step_caster_with<L: Ledger>(caster: &mut Caster<SessionScheme>, input: Input<'_>, blank: Blank)
    requires name { blank.name ≡ L.name }
    requires parts { blank.parts ≡ L.parts }
    requires some { 0 < L.parts }
    requires sends { left_in caster.old.orders ≡ [] }
{
    caster.step(input, &mut Steps::<L>::new(blank));
}

fn step_caster(caster: &mut Caster<SessionScheme>, input: Input<'_>) -> Result<(), Stop> {
    let idle = caster.idle();
    if !idle {
        return Err(Stop::Found("the broadcaster has more to give out"));
    }
    step_caster_with::<Brand>(caster, input, Blank::new(1));
    Ok(())
}

/// More outputs than any input causes.
const MANY: usize = 200;

/// Lets a peer play all that is due now.
fn play_all(peer: &mut Peer<SessionScheme>) {
    for _ in 0..MANY {
        if peer.next_played().is_none() {
            return;
        }
    }
}

/// A buffer for the largest datagram.
pub fn room(alloc: Global) -> Result<Vec<u8>, AllocError> {
    vec![in alloc; 0; usize::from(LARGEST_DATAGRAM)]
}

fn caster_at<'a>(parties: &'a mut Parties) -> Result<&'a mut Caster<SessionScheme>, Stop> {
    match parties.casters.first_mut() {
        Some(caster) => Ok(caster),
        None => Err(Stop::Found("there is no broadcaster")),
    }
}

fn peer_at<'a>(parties: &'a mut Parties, party: u16) -> Result<&'a mut Peer<SessionScheme>, Stop> {
    let place = usize::from(party).saturating_sub(1);
    match parties.peers.get_mut(place) {
        Some(peer) => Ok(peer),
        None => Err(Stop::Found("there is no such peer")),
    }
}

/// Writes the next datagram that a party sends to a buffer, and returns its receiver and length.
fn next_of(
    parties: &mut Parties,
    party: u16,
    buf: &mut [u8],
) -> Result<Option<(u16, usize)>, Stop> {
    if buf.len() < usize::from(LARGEST_DATAGRAM) {
        return Err(Stop::Found("a room is too small for a datagram"));
    }
    if party == 0 {
        Ok(caster_at(parties)?.next_out(buf))
    } else {
        Ok(peer_at(parties, party)?.next_out(buf))
    }
}

/// Lets a party take an input. A party must handle any input.
fn take(parties: &mut Parties, party: u16, input: Input<'_>) -> Result<(), Stop> {
    if party == 0 {
        return step_caster(caster_at(parties)?, input);
    }
    let peer = peer_at(parties, party)?;
    step_peer(peer, input)?;
    play_all(peer);
    Ok(())
}

/// Lets a party take an input, and counts what it sends.
pub fn count_sends(
    parties: &mut Parties,
    party: u16,
    input: Input<'_>,
    buf: &mut [u8],
) -> Result<u64, Stop> {
    take(parties, party, input)?;
    let mut count: u64 = 0;
    for _ in 0..MANY {
        if next_of(parties, party, buf)?.is_none() {
            return Ok(count);
        }
        count = count.saturating_add(1);
    }
    Err(Stop::Found("an input is answered without an end"))
}

/// Lets a party take an input, and collects what it sends.
pub fn add_sends(
    alloc: Global,
    parties: &mut Parties,
    party: u16,
    input: Input<'_>,
    buf: &mut [u8],
    sent: &mut Vec<Parcel>,
) -> Result<(), Stop> {
    take(parties, party, input)?;
    for _ in 0..MANY {
        let Some((to, len)) = next_of(parties, party, buf)? else {
            return Ok(());
        };
        let bytes = buf.get(..len).unwrap_or(b"").to_vec(alloc)?;
        sent.push(Parcel { to, bytes })?;
    }
    Err(Stop::Found("an input is answered without an end"))
}

/// Whether a party keeps evidence against another.
fn keeps_evidence(parties: &Parties, party: u16, against: u16) -> bool {
    if party == 0 {
        match parties.casters.first() {
            Some(caster) => caster.evidence(against).is_some(),
            None => false,
        }
    } else {
        match parties.peers.get(usize::from(party).saturating_sub(1)) {
            Some(peer) => peer.evidence(against).is_some(),
            None => false,
        }
    }
}

/// How many parties a party keeps evidence against.
pub fn count_evidence(parties: &Parties, party: u16) -> usize {
    let one = keeps_evidence(parties, party, 1);
    let two = keeps_evidence(parties, party, 2);
    usize::from(one).saturating_add(usize::from(two))
}
