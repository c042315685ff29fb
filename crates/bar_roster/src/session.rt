//! A session, as its text describes it.
ghost use Rattle.std.specs.Prelude.{◌≡◌, ◌≤◌, ◌⊎◌, ◌-◌, Some, Err, Ok, IfOk, IfErr, length, option_map, slice_get};
ghost use Rattle.toml.specs.View.{table_view};
ghost use Rattle.bar_lms.specs.Params.{lms_type};
ghost use Rattle.bar_lms.specs.Schemes.{upper_types};
ghost use Rattle.bar_roster.specs.NumberRanges.{AreInRange};
ghost use Rattle.bar_roster.specs.SessionText.{parties_of, session_of};

use crate::fields::{document_table, number_at};
use crate::keys::Keys;
use crate::numbers::{Numbers, numbers_at};
use crate::parties::keys_at;
use crate::types::{check_leaves, leaves_of, params_of, shape_of, top_of, upper_types};
use crate::{Key, SessionFault};
use bar_lms::{Height, Params};
use bar_wire::Shape;
use std::alloc::{AllocError, Global};
use std::marker::Model;
use toml::Table;

/// A session: the numbers of its text, the public key of each party, and the anchor of each peer.
#[derive(Debug, Drop)]
pub struct Session {
    shape: Shape,
    cap: u8,
    fanout: u16,
    port: u16,
    tick_ms: u32,
    top: Option<Height>,
    params: Params,
    keys: Keys,
    anchors: Vec<[u8; 32]>,
}

impl Model for Session {
    ghost use Rattle.bar_roster.specs.Held.{rows_of};
    ghost use Rattle.bar_session.specs.SessionData.{SessionData};

    ghost Value = { SessionData };

    ghost view = { λ s. record {
      shape = s.shape;
      cap = s.cap;
      fanout = s.fanout;
      port = s.port;
      tick_ms = s.tick_ms;
      top = s.top;
      params = s.params;
      keys = rows_of s.keys;
      anchors = s.anchors.items;
    } };

    ghost use Rattle.bar_session.specs.Sessions.{IsSession};

    ghost invariant = { λ s. IsSession (record {
      shape = s.shape;
      cap = s.cap;
      fanout = s.fanout;
      port = s.port;
      tick_ms = s.tick_ms;
      top = s.top;
      params = s.params;
      keys = rows_of s.keys;
      anchors = s.anchors.items;
    }) };
}

/// Reads the keys, anchors and fan-out of a session whose numbers are read.
fn parties_at(alloc: Global, table: &Table, numbers: &Numbers) -> Result<Session, SessionFault>
    requires { AreInRange numbers.now }
    ensures ok { IfOk result (λ s. parties_of (table_view table.now) numbers.now ≡ Ok s) }
    ensures err { IfErr result (λ e. (e ≡ SessionFault.NoMemory) ⊎ (parties_of (table_view table.now) numbers.now ≡ Err e)) }
{
    let (keys, anchors, count) = keys_at(alloc, table, numbers)?;
    let fanout = number_at(table, Key::Fanout, "fanout", 1, u64::from(count))? as u16;
    let top = top_of(numbers);
    let params = params_of(numbers);
    check_leaves(numbers.rounds, leaves_of(top, params))?;
    Ok(Session {
        shape: shape_of(numbers, top, params, count),
        cap: numbers.cap,
        fanout,
        port: numbers.port,
        tick_ms: numbers.tick_ms,
        top,
        params,
        keys,
        anchors,
    })
}

impl Session {
    ghost use Rattle.bar_session.specs.Sessions.{IsSession};
    ghost use Rattle.bar_session.specs.SessionData.{session_of_parts};

    /// Reads a session text, or reports its first fault.
    pub fn read(alloc: Global, bytes: &[u8]) -> Result<Session, SessionFault>
        ensures ok { IfOk result (λ s. session_of bytes.now ≡ Ok s) }
        ensures err { IfErr result (λ e. (e ≡ SessionFault.NoMemory) ⊎ (session_of bytes.now ≡ Err e)) }
    {
        let table = document_table(alloc, bytes)?;
        let numbers = numbers_at(&table)?;
        parties_at(alloc, &table, &numbers)
    }

    /// The session with these numbers, the keys of its parties from 0 on, and the anchors of its peers from 1 on. They must be those of a
    /// session, except that keys may be equal.
    pub fn made(
        shape: Shape,
        cap: u8,
        fanout: u16,
        port: u16,
        tick_ms: u32,
        params: Params,
        keys: Vec<[u8; 56]>,
        anchors: Vec<[u8; 32]>,
    ) -> Session
        requires { IsSession (session_of_parts shape cap fanout port tick_ms params keys.items anchors.items) }
        ensures { result ≡ session_of_parts shape cap fanout port tick_ms params keys.items anchors.items }
    {
        Session {
            shape,
            cap,
            fanout,
            port,
            tick_ms,
            top: None,
            params,
            keys: Keys::Single(keys),
            anchors,
        }
    }

    /// A copy of the session.
    pub fn copied(&self, alloc: Global) -> Result<Session, AllocError>
        ensures { IfOk result (λ s. s ≡ self.now) }
    {
        let keys = self.keys.copied(alloc)?;
        let mut anchors = vec![in alloc; [0u8; 32]; self.anchors.len()]?;
        anchors.copy_from_slice(&self.anchors);
        Ok(Session {
            shape: self.shape,
            cap: self.cap,
            fanout: self.fanout,
            port: self.port,
            tick_ms: self.tick_ms,
            top: self.top,
            params: self.params,
            keys,
            anchors,
        })
    }

    /// The numbers of the session's datagrams.
    pub fn shape(&self) -> Shape
        ensures value { result ≡ self.now.shape }
        ensures session { IsSession self.now }
    {
        self.shape
    }

    /// The most updates that one side of an exchange trades.
    pub fn cap(&self) -> u8
        ensures { result ≡ self.now.cap }
    {
        self.cap
    }

    /// How many peers the broadcaster sends each block to.
    pub fn fanout(&self) -> u16
        ensures { result ≡ self.now.fanout }
    {
        self.fanout
    }

    /// The UDP port of party 0 on loopback; party p uses this port plus p.
    pub fn port(&self) -> u16
        ensures { result ≡ self.now.port }
    {
        self.port
    }

    /// The milliseconds between two ticks.
    pub fn tick_ms(&self) -> u32
        ensures { result ≡ self.now.tick_ms }
    {
        self.tick_ms
    }

    /// The LMS type of the upper tree, if signatures have two levels.
    pub fn top(&self) -> Option<u32>
        ensures { result ≡ option_map lms_type self.now.top }
    {
        Some(self.top?.number())
    }

    /// The types of the upper tree, if signatures have two levels.
    pub fn upper(&self) -> Option<Params>
        ensures value { result ≡ option_map (λ height. upper_types height self.now.params) self.now.top }
        ensures session { IsSession self.now }
    {
        Some(upper_types(self.top?, self.params))
    }

    /// The types of the trees that sign messages.
    pub fn params(&self) -> Params
        ensures { result ≡ self.now.params }
    {
        self.params
    }

    /// The public key of a party, the broadcaster's at 0.
    pub fn key(&self, party: u16) -> &[u8]
        requires { party ≤ self.now.shape.peers }
        ensures value { slice_get self.now.keys party ≡ Some result.now }
        ensures short { length result.now ≤ 60 }
    {
        self.keys.get(usize::from(party))
    }

    /// The anchor of a peer, from 1.
    pub fn anchor(&self, peer: u16) -> &[u8; 32]
        requires low { 1 ≤ peer }
        requires high { peer ≤ self.now.shape.peers }
        ensures { slice_get self.now.anchors (peer - 1) ≡ Some result.now }
    {
        &self.anchors[usize::from(peer) - 1]
    }
}
