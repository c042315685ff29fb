//! A peer that lies: what it sends by the rules is changed on its way out, and signed again with its own key.
ghost use Rattle.std.specs.Prelude.{◌≡◌, ◌<◌};

use bar_hss::SessionScheme;
use bar_outside::{Link, LinkFault, Taken};
use bar_seal::{Scheme, Verifier};
use bar_told::{Log, Note};
use std::alloc::{AllocError, Global};

/// The kinds of lies.
#[derive(Clone, Copy, Debug, PartialEq, Eq)]
pub enum Lie {
    /// The key of a briefcase is another one.
    Key,
    /// A briefcase holds something other than its terms promise.
    Case,
    /// A REQUEST gets two RESPONSEs, the second with another history.
    Answers,
    /// A REQUEST and a QUERY are sent to another peer than the seed chooses.
    Partner,
    /// The leaf that signed a CASE also signs its KEY.
    Leaf,
    /// All rules are kept, except that no KEY is sent.
    Keys,
}

/// The kinds of datagrams that are changed, and the offsets of a datagram's kind and receiver.
const REQUEST: u8 = 3;

const RESPONSE: u8 = 4;

const QUERY: u8 = 6;

const CASE: u8 = 8;

const KEY: u8 = 10;

const KIND_AT: usize = 3;

const TO_AT: usize = 14;

/// The offsets of the key in a KEY and of the byte with the history's first update in a RESPONSE.
const KEY_AT: usize = 22;

const HISTORY_AT: usize = 27;

/// A peer that lies, the number of peers, and the liar's signature scheme.
#[derive(Drop)]
pub struct Liar {
    pub lie: Lie,
    pub party: u16,
    pub peers: u16,
    pub scheme: SessionScheme,
}

/// What is sent in place of a datagram.
#[derive(Drop)]
struct Told {
    to: u16,
    bytes: Vec<u8>,
    /// The datagram itself is sent too, before it.
    is_second: bool,
}

/// The message with one bit flipped, or unchanged if it has no byte at this offset.
fn flipped(alloc: Global, message: &[u8], at: usize) -> Result<Vec<u8>, AllocError> {
    let mut changed = message.to_vec(alloc)?;
    if let Some(byte) = changed.get_mut(at) {
        *byte ^= 1;
    }
    Ok(changed)
}

/// The message with another receiver.
fn readdressed(alloc: Global, message: &[u8], to: u16) -> Result<Vec<u8>, AllocError> {
    let mut changed = message.to_vec(alloc)?;
    if changed.len() >= TO_AT + 2 {
        changed[TO_AT..TO_AT + 2].copy_from_slice(to.to_be_bytes().as_slice());
    }
    Ok(changed)
}

/// The message with its signature under a leaf, or `None` if there is no such leaf.
fn signed<S: Scheme>(
    alloc: Global,
    scheme: &S,
    leaf: u32,
    message: &[u8],
) -> Result<Option<Vec<u8>>, AllocError> {
    if leaf >= scheme.leaves() {
        return Ok(None);
    }
    let mut sig = vec![in alloc; 0u8; scheme.sig_len()]?;
    scheme.sign(leaf, message, &mut sig);
    let mut bytes = message.to_vec(alloc)?;
    bytes.extend_from_slice(&sig)?;
    Ok(Some(bytes))
}

/// The message of a signed datagram, and the leaf that signed it. `None` if the datagram is too short for a signature.
fn split<'a, S: Scheme>(scheme: &S, bytes: &'a [u8]) -> Option<(&'a [u8], u32)> {
    let len = scheme.sig_len();
    if bytes.len() < len {
        return None;
    }
    let (message, sig) = bytes.split_at(bytes.len() - len);
    Some((message, scheme.leaf_in(sig)))
}

impl Lie {
    /// The lie of this name.
    pub fn named(name: &str) -> Option<Lie> {
        match name {
            "key" => Some(Lie::Key),
            "case" => Some(Lie::Case),
            "answers" => Some(Lie::Answers),
            "partner" => Some(Lie::Partner),
            "leaf" => Some(Lie::Leaf),
            "keys" => Some(Lie::Keys),
            _ => None,
        }
    }
}

impl Liar {
    /// Whether a datagram isn't sent at all.
    fn withholds(&self, bytes: &[u8]) -> bool {
        self.lie == Lie::Keys && bytes.get(KIND_AT) == Some(&KEY)
    }

    /// A peer other than this one and the liar, if there are at least three.
    fn other(&self, peer: u16) -> u16 {
        let mut other = peer;
        for _ in 0..2 {
            other = if other >= self.peers { 1 } else { other + 1 };
            if other != self.party {
                return other;
            }
        }
        other
    }

    /// What is sent in place of a datagram, or `None` if it is sent unchanged.
    fn told(&self, alloc: Global, to: u16, bytes: &[u8]) -> Result<Option<Told>, AllocError> {
        if bytes.len() <= KIND_AT {
            return Ok(None);
        }
        let Some((message, leaf)) = split(&self.scheme, bytes) else {
            return Ok(None);
        };
        let (changed, leaf, to) = match (self.lie, bytes[KIND_AT]) {
            (Lie::Key, KEY) => (flipped(alloc, message, KEY_AT)?, leaf, to),
            (Lie::Case, CASE) => {
                let last = message.len().saturating_sub(1);
                (flipped(alloc, message, last)?, leaf, to)
            }
            (Lie::Answers, RESPONSE) => (flipped(alloc, message, HISTORY_AT)?, leaf, to),
            (Lie::Partner, REQUEST | QUERY) => {
                let other = self.other(to);
                (readdressed(alloc, message, other)?, leaf, other)
            }
            (Lie::Leaf, KEY) => (message.to_vec(alloc)?, leaf.saturating_sub(1), to),
            _ => return Ok(None),
        };
        let Some(bytes) = signed(alloc, &self.scheme, leaf, &changed)? else {
            return Ok(None);
        };
        Ok(Some(Told {
            to,
            bytes,
            is_second: self.lie == Lie::Answers,
        }))
    }
}

/// A link over which a peer lies, if there is a liar. It reports what it was asked to send, whatever it sends.
#[derive(Drop)]
pub struct Lying<L> {
    alloc: Global,
    link: L,
    liar: Option<Liar>,
    log: Log,
    faults: u64,
}

impl<L> Lying<L> {
    ghost use Rattle.std.specs.Prelude.{⊤, Err};
    ghost use Rattle.bar_outside.specs.Code.Causes.{HasCause};

    /// This link, with no fault so far.
    pub fn new(alloc: Global, link: L, liar: Option<Liar>) -> Self {
        Lying {
            alloc,
            link,
            liar,
            log: Log::new(),
            faults: 0,
        }
    }

    /// Counts a fault of the link, unless memory ran out.
    fn fault(&mut self, fault: LinkFault) -> LinkFault
        ensures cause { HasCause {T = ⊤} LinkFault.Failed self.old.faults self.new.faults (Err result) }
        ensures same { self.new.log.events ≡ self.old.log.events }
    {
        match fault {
            LinkFault::NoMemory => LinkFault::NoMemory,
            LinkFault::Failed => {
                self.faults = self.faults.saturating_add(1);
                LinkFault::Failed
            }
        }
    }
}

/// Sends the lie in place of a datagram, and before it the datagram itself if both are to be sent.
fn send_told<L: Link>(
    link: &mut L,
    to: u16,
    bytes: &[u8],
    told: Option<Told>,
) -> Result<(), LinkFault> {
    let Some(told) = told else {
        return link.send(to, bytes);
    };
    if told.is_second {
        link.send(to, bytes)?;
    }
    link.send(told.to, &told.bytes)
}

impl<L: Link> Lying<L> {
    /// Sends a datagram, or what the liar sends in its place, which may be nothing.
    fn send_lying(&mut self, to: u16, bytes: &[u8]) -> Result<(), LinkFault>
        ensures faults { self.new.faults ≡ self.old.faults }
        ensures same { self.new.log.events ≡ self.old.log.events }
    {
        let told = match &self.liar {
            Some(liar) if liar.withholds(bytes) => return Ok(()),
            Some(liar) => match liar.told(self.alloc, to, bytes) {
                Ok(told) => told,
                Err(_) => return Err(LinkFault::NoMemory),
            },
            None => None,
        };
        send_told(&mut self.link, to, bytes, told)
    }
}

impl<L: Link> Link for Lying<L> {
    ghost use Rattle.bar_system.specs.History.{wire_by};

    ghost wire = { λ link. wire_by link.log.events link.faults };

    fn bind(&mut self, me: u16, port: u16, begin_ms: u64, tick_ms: u32) -> Result<(), LinkFault> {
        match self.link.bind(me, port, begin_ms, tick_ms) {
            Ok(()) => {
                self.log = self.log.then(&Note::Bound(me, port, begin_ms, tick_ms));
                Ok(())
            }
            Err(fault) => Err(self.fault(fault)),
        }
    }

    /// The end of a link is a fault here, because neither link of this program has an end.
    fn next(&mut self, buf: &mut [u8]) -> Result<Taken, LinkFault> {
        match self.link.next(buf) {
            Ok(Taken::Tick) => {
                self.log = self.log.then(&Note::Ticked);
                Ok(Taken::Tick)
            }
            Ok(Taken::Datagram(len)) => {
                self.log = self.log.then(&Note::Came(&buf[..len]));
                Ok(Taken::Datagram(len))
            }
            Ok(Taken::End) => Err(self.fault(LinkFault::Failed)),
            Err(fault) => Err(self.fault(fault)),
        }
    }

    fn send(&mut self, to: u16, bytes: &[u8]) -> Result<(), LinkFault> {
        match self.send_lying(to, bytes) {
            Ok(()) => {
                self.log = self.log.then(&Note::Sent(to, bytes));
                Ok(())
            }
            Err(fault) => Err(self.fault(fault)),
        }
    }
}
