//! The socket of a link, as a trait over the system's socket. The trait makes explicit what a link passes to a socket.
ghost use Rattle.std.specs.Prelude.{None};

use std::io;
use std::net::{Ipv4Addr, Net, UdpSocket};
use std::time::Duration;

/// A datagram socket on the loopback address. By `account` it may report what it is bound to, was passed and gave. A socket without an
/// account never gets one.
pub trait Socket: Drop {
    ghost use Rattle.std.specs.Prelude.{◌≡◌, ◌≤◌, Option, length, IfOk, OnOk, OnErr};
    ghost use Rattle.std.specs.Option.{option_map};
    ghost use Rattle.bar_system.specs.Account.{Account, IsOpened, gave_all, handed_to, received};

    ghost account: { Self → Option Account };

    /// Opens a socket bound to this port.
    fn open<R: Net>(rt: &R, port: u16) -> io::Result<Self>
        ensures { IfOk result (λ socket. IsOpened port (account socket)) };

    /// Sends a datagram to this port, whole or not at all.
    fn hand_over(&mut self, port: u16, bytes: &[u8]) -> io::Result<()>
        ensures handed { OnOk result (account self.new ≡ option_map (handed_to port bytes.now) (account self.old)) }
        ensures kept { OnErr result (account self.new ≡ account self.old) };

    /// Receives the next datagram, writes it to the start of the buffer and returns its length. If none arrives in this time, the call
    /// fails.
    fn receive(&mut self, wait: Duration, buf: &mut [u8]) -> io::Result<usize>
        ensures within { IfOk result (λ len. len ≤ length buf.new) }
        ensures gave { account self.new ≡ option_map (gave_all (received buf.new result)) (account self.old) };
}

/// A socket of the system. It keeps no account.
impl Socket for UdpSocket {
    ghost account = { λ _. None };

    fn open<R: Net>(rt: &R, port: u16) -> io::Result<UdpSocket> {
        UdpSocket::bind(rt, (Ipv4Addr::LOCALHOST, port))
    }

    fn hand_over(&mut self, port: u16, bytes: &[u8]) -> io::Result<()> {
        let sent = self.send_to(bytes, (Ipv4Addr::LOCALHOST, port))?;
        if sent < bytes.len() {
            return Err(io::Error::from(io::ErrorKind::WriteZero));
        }
        Ok(())
    }

    fn receive(&mut self, wait: Duration, buf: &mut [u8]) -> io::Result<usize> {
        self.set_read_timeout(Some(wait))?;
        let (len, _) = self.recv_from(buf)?;
        Ok(len)
    }
}
