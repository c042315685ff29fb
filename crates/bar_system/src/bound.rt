//! The state of a bound link: its socket and the ticks that are due.
ghost use Rattle.std.specs.Prelude.{◌≡◌, ◌≤◌, ◌+◌, length, IfOk, IfSome, OnOk, OnErr};
ghost use Rattle.bar_outside.specs.Wire.{largest_packet};

use crate::room::Room;
use crate::socket::Socket;
use std::io;
use std::io::ErrorKind;
use std::net::Net;
use std::time::{Clock, Duration, SystemTime, UNIX_EPOCH};

/// The longest wait of one read, in milliseconds. After it the clock is read again. A longer wait would end late, because the system's
/// timers get coarser with their length.
const LONGEST_WAIT: u64 = 100;

/// A socket, the port of party 0, the length of a tick and the Unix time of the next tick, both in milliseconds, and the room for datagrams
/// before that tick.
#[derive(Drop)]
pub struct Bound<S> {
    socket: S,
    port: u16,
    tick_ms: u32,
    next_tick: u64,
    room: Room,
}

// The milliseconds since 1970.
fn unix_ms<R: Clock>(rt: &R) -> io::Result<u64> {
    match SystemTime::now(rt)?.duration_since(UNIX_EPOCH) {
        Ok(since) => Ok(u64::try_from(since.as_millis()).unwrap_or(u64::MAX)),
        Err(_) => Err(io::Error::from(ErrorKind::InvalidData)),
    }
}

// The port of a party.
fn port_of(port: u16, party: u16) -> io::Result<u16>
    ensures { IfOk result (λ own. own ≡ port + party) }
{
    match port.checked_add(party) {
        Some(own) => Ok(own),
        None => Err(io::Error::from(ErrorKind::InvalidInput)),
    }
}

impl<S: Socket> Bound<S> {
    ghost use Rattle.bar_system.specs.Account.{IsOpened, handed_to};
    ghost use Rattle.bar_system.specs.Binding.{Changes, Gives, came_by};

    /// Opens a socket on the port of a party.
    pub fn open<R: Net>(rt: &R, me: u16, port: u16, begin_ms: u64, tick_ms: u32) -> io::Result<Self>
        ensures session { IfOk result (λ bound. bound.port ≡ port) }
        ensures own { IfOk result (λ bound. IsOpened (port + me) (S.account bound.socket)) }
    {
        let socket = S::open(rt, port_of(port, me)?)?;
        Ok(Bound {
            socket,
            port,
            tick_ms,
            next_tick: begin_ms,
            room: Room::new(),
        })
    }

    // Waits at most `wait` milliseconds for a datagram and writes it to the buffer. The result is `None` if none arrives or if it is
    // dropped.
    fn take_one(&mut self, wait: u64, buf: &mut [u8]) -> io::Result<Option<usize>>
        ensures within { IfOk result (λ datagram. IfSome datagram (λ len. len ≤ length buf.new)) }
        ensures gives { Gives S.account (came_by buf.new result) self.old self.new }
    {
        match self.socket.receive(Duration::from_millis(wait), buf) {
            Ok(len) => {
                if self.room.takes(&buf[..len]) {
                    return Ok(Some(len));
                }
                Ok(None)
            }
            Err(error) => match error.kind() {
                ErrorKind::WouldBlock | ErrorKind::TimedOut | ErrorKind::Interrupted => Ok(None),
                _ => Err(error),
            },
        }
    }

    /// Waits until the next tick is due, and then returns `None`, or until a datagram is accepted, which is written to the buffer. An
    /// overdue tick is returned at once.
    pub fn wait<R: Clock>(&mut self, rt: &R, buf: &mut [u8]) -> io::Result<Option<usize>>
        requires { length buf.old ≡ largest_packet }
        ensures whole { length buf.new ≡ largest_packet }
        ensures within { IfOk result (λ datagram. IfSome datagram (λ len. len ≤ largest_packet)) }
        ensures gives { Gives S.account (came_by buf.new result) self.old self.new }
    {
        for _ in 0..u64::MAX {
            let now = unix_ms(rt)?;
            if self.next_tick <= now {
                self.next_tick = self.next_tick.saturating_add(u64::from(self.tick_ms));
                self.room = Room::new();
                return Ok(None);
            }
            let left = (self.next_tick - now).min(LONGEST_WAIT);
            if let Some(len) = self.take_one(left, buf)? {
                return Ok(Some(len));
            }
        }
        Err(io::Error::from(ErrorKind::TimedOut))
    }

    /// Sends a datagram to the port of a party.
    pub fn send(&mut self, to: u16, bytes: &[u8]) -> io::Result<()>
        ensures same { self.new.port ≡ self.old.port }
        ensures handed { OnOk result (Changes S.account (handed_to (self.old.port + to) bytes.now) self.old self.new) }
        ensures kept { OnErr result (S.account self.new.socket ≡ S.account self.old.socket) }
    {
        self.socket.hand_over(port_of(self.port, to)?, bytes)
    }
}
