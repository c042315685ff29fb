//! A socket without a network, which gives the same datagram at once whenever it is asked.
ghost use Rattle.std.specs.Prelude.{None};

use bar_outside::LARGEST_PACKET;
use bar_system::Socket;
use std::io;
use std::net::Net;
use std::time::Duration;

/// The start of the datagrams, up to their kind.
const FRONT: [u8; 3] = [0xba, 0x47, 1];

/// A socket that gives short datagrams, or the longest ones at an odd port. The fields say what it gives. It keeps no account.
#[derive(Drop)]
pub struct EndlessSocket {
    kind: u8,
    len: usize,
}

impl Socket for EndlessSocket {
    ghost account = { λ _. None };

    fn open<R: Net>(_rt: &R, port: u16) -> io::Result<EndlessSocket> {
        if port % 2 == 0 {
            return Ok(EndlessSocket { kind: 9, len: 22 });
        }
        Ok(EndlessSocket {
            kind: 11,
            len: LARGEST_PACKET,
        })
    }

    fn hand_over(&mut self, _port: u16, _bytes: &[u8]) -> io::Result<()> {
        Ok(())
    }

    fn receive(&mut self, _wait: Duration, buf: &mut [u8]) -> io::Result<usize> {
        let [first, second, version] = FRONT;
        if let [a, b, c, kind, ..] = buf {
            *a = first;
            *b = second;
            *c = version;
            *kind = self.kind;
        }
        Ok(self.len.min(buf.len()))
    }
}
