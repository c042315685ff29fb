//! The real link: a UDP socket on the loopback address, that of the system or another. It reports its binding, the inputs it gave and the
//! datagrams the socket took, and counts its faults.
ghost use Rattle.std.specs.Prelude.{◌≡◌, ◌≢◌, ◌≤◌, ◌+◌, [], length, IfOk, OnOk, OnErr};
ghost use Rattle.bar_outside.specs.Wire.{largest_packet};
ghost use Rattle.bar_system.specs.History.{wire_by};

use crate::bound::Bound;
use crate::socket::Socket;
use bar_outside::{LARGEST_PACKET, Link, LinkFault, Taken};
use bar_told::{Log, Note};
use std::io;
use std::io::ErrorKind;
use std::net::{Net, UdpSocket};
use std::time::Clock;

/// A link over UDP on the loopback address. The first tick is due at the time given to `bind`, and each later one a tick's length after the
/// one before. Overdue ticks are returned at once, one a call, before any datagram. A datagram that can't belong to any session, by its
/// first bytes or its length, is dropped. So is a datagram beyond 16,384 datagrams or 8 MiB between two ticks. The socket isn't connected,
/// so a datagram to a port where nobody listens is lost without an error.
#[derive(Drop)]
pub struct RealLink<'a, R, S> {
    rt: &'a R,
    bound: Option<Bound<S>>,
    log: Log,
    faults: u64,
}

impl<'a, R> RealLink<'a, R, UdpSocket> {
    ghost use Rattle.bar_system.specs.RealLink.{wire_of};

    /// An unbound link over the network of the system, with no fault so far.
    pub fn new(rt: &'a R) -> Self
        ensures { wire_of result ≡ wire_by [] 0 }
    {
        RealLink::over(rt)
    }
}

impl<'a, R, S> RealLink<'a, R, S> {
    ghost use Rattle.std.specs.Prelude.{⊤, Err};
    ghost use Rattle.bar_outside.specs.Code.Causes.{HasCause};
    ghost use Rattle.bar_system.specs.RealLink.{wire_of};

    /// An unbound link, with no fault so far.
    pub fn over(rt: &'a R) -> Self
        ensures { wire_of result ≡ wire_by [] 0 }
    {
        RealLink {
            rt,
            bound: None,
            log: Log::new(),
            faults: 0,
        }
    }

    /// Counts a fault, unless memory ran out.
    fn fault(&mut self, error: &io::Error) -> LinkFault
        ensures cause { HasCause {T = ⊤} LinkFault.Failed self.old.faults self.new.faults (Err result) }
        ensures same { self.new.log.events ≡ self.old.log.events }
        ensures bound { self.new.bound ≡ self.old.bound }
    {
        if error.kind() == ErrorKind::OutOfMemory {
            return LinkFault::NoMemory;
        }
        self.faults = self.faults.saturating_add(1);
        LinkFault::Failed
    }
}

impl<R: Net + Clock, S: Socket> Link for RealLink<'_, R, S> {
    ghost use Rattle.bar_outside.specs.Wire.{Acts, Takes, bound_by, bound_to, sent_to};
    ghost use Rattle.bar_system.specs.RealLink.{wire_of, given_by, HandsOn, IsBoundTo, Rests, TakesFrom};

    ghost wire = { wire_of };

    fn bind(&mut self, me: u16, port: u16, begin_ms: u64, tick_ms: u32) -> Result<(), LinkFault>
        ensures acts { Acts (bound_to (bound_by me port begin_ms tick_ms)) (wire_of self.old) (wire_of self.new) result }
        // the socket is bound to the port of the party, if it keeps an account
        ensures hands_on { OnOk result (IsBoundTo S.account port (port + me) self.new.bound) }
        ensures kept { OnErr result (self.new.bound ≡ self.old.bound) }
    {
        match Bound::open(self.rt, me, port, begin_ms, tick_ms) {
            Ok(bound) => {
                self.bound = Some(bound);
                self.log = self.log.then(&Note::Bound(me, port, begin_ms, tick_ms));
                Ok(())
            }
            Err(error) => Err(self.fault(&error)),
        }
    }

    fn next(&mut self, buf: &mut [u8]) -> Result<Taken, LinkFault>
        requires { largest_packet ≤ length buf.old }
        ensures takes { Takes buf.new (wire_of self.old) (wire_of self.new) result }
        // a socket has no end
        ensures no_end { IfOk result (λ taken. taken ≢ Taken.End) }
        // the link gives the socket's last datagram, if the socket keeps an account
        ensures hands_on { TakesFrom S.account (given_by buf.new result) self.old.bound self.new.bound }
    {
        let taken = match &mut self.bound {
            Some(bound) => bound.wait(self.rt, &mut buf[..LARGEST_PACKET]),
            None => Err(io::Error::from(ErrorKind::NotConnected)),
        };
        match taken {
            Ok(None) => {
                self.log = self.log.then(&Note::Ticked);
                Ok(Taken::Tick)
            }
            Ok(Some(len)) => {
                self.log = self.log.then(&Note::Came(&buf[..len]));
                Ok(Taken::Datagram(len))
            }
            Err(error) => Err(self.fault(&error)),
        }
    }

    fn send(&mut self, to: u16, bytes: &[u8]) -> Result<(), LinkFault>
        ensures acts { Acts (sent_to to bytes.now) (wire_of self.old) (wire_of self.new) result }
        // the socket was passed exactly this datagram for the port of the party, if it keeps an account
        ensures hands_on { OnOk result (HandsOn S.account to bytes.now self.old.bound self.new.bound) }
        ensures kept { OnErr result (Rests S.account self.old.bound self.new.bound) }
    {
        let sent = match &mut self.bound {
            Some(bound) => bound.send(to, bytes),
            None => Err(io::Error::from(ErrorKind::NotConnected)),
        };
        match sent {
            Ok(()) => {
                self.log = self.log.then(&Note::Sent(to, bytes));
                Ok(())
            }
            Err(error) => Err(self.fault(&error)),
        }
    }
}
