//! A link over two streams of bytes. Whoever holds their other ends controls the time and the network: it supplies each input, and learns
//! when the next one is asked for and what was sent.
ghost use Rattle.std.specs.Prelude.{◌≡◌, ◌≤◌, length, IfOk, IfSome};
ghost use Rattle.bar_outside.specs.Wire.{largest_packet};

use bar_outside::{LARGEST_PACKET, Link, LinkFault, Taken};
use bar_told::{Log, Note};
use std::io;
use std::io::{ErrorKind, Read, Write};

/// The first byte of an incoming entry: a tick, or a datagram, whose length in two bytes and whose bytes follow.
const TICK: u8 = 1;

const DATAGRAM: u8 = 2;

/// The first byte of an outgoing entry: the next input is asked for, or a datagram was sent. The datagram's receiver and length, two bytes
/// each, and its bytes follow.
const ASKED: u8 = 1;

const SENT: u8 = 2;

/// A link over two streams. It reports its inputs and what was sent, and counts its faults.
#[derive(Drop)]
pub struct PipeLink<R, W> {
    input: R,
    output: W,
    log: Log,
    faults: u64,
}

/// Asks for the next input, and reads it. A tick is `None`.
fn take<R: Read, W: Write>(
    input: &mut R,
    output: &mut W,
    buf: &mut [u8],
) -> io::Result<Option<usize>>
    requires { length buf.old ≡ largest_packet }
    ensures { IfOk result (λ datagram. IfSome datagram (λ len. len ≤ largest_packet)) }
{
    output.write_all(&[ASKED])?;
    output.flush()?;
    let mut kind = [0u8; 1];
    input.read_exact(&mut kind)?;
    match kind[0] {
        TICK => Ok(None),
        DATAGRAM => {
            let mut size = [0u8; 2];
            input.read_exact(&mut size)?;
            let len = usize::from(u16::from_be_bytes(size));
            if len > LARGEST_PACKET {
                return Err(io::Error::from(ErrorKind::InvalidData));
            }
            input.read_exact(&mut buf[..len])?;
            Ok(Some(len))
        }
        _ => Err(io::Error::from(ErrorKind::InvalidData)),
    }
}

/// Reports a datagram that was sent.
fn tell<W: Write>(output: &mut W, to: u16, bytes: &[u8]) -> io::Result<()> {
    let Ok(len) = u16::try_from(bytes.len()) else {
        return Err(io::Error::from(ErrorKind::InvalidInput));
    };
    output.write_all(&[SENT])?;
    output.write_all(to.to_be_bytes().as_slice())?;
    output.write_all(len.to_be_bytes().as_slice())?;
    output.write_all(bytes)?;
    output.flush()
}

impl<R, W> PipeLink<R, W> {
    ghost use Rattle.std.specs.Prelude.{⊤, Err};
    ghost use Rattle.bar_outside.specs.Code.Causes.{HasCause};

    /// A link over these streams, with no fault so far.
    pub fn new(input: R, output: W) -> Self {
        PipeLink {
            input,
            output,
            log: Log::new(),
            faults: 0,
        }
    }

    /// Counts a fault, unless memory ran out.
    fn fault(&mut self, error: &io::Error) -> LinkFault
        ensures cause { HasCause {T = ⊤} LinkFault.Failed self.old.faults self.new.faults (Err result) }
        ensures same { self.new.log.events ≡ self.old.log.events }
    {
        if error.kind() == ErrorKind::OutOfMemory {
            return LinkFault::NoMemory;
        }
        self.faults = self.faults.saturating_add(1);
        LinkFault::Failed
    }
}

impl<R: Read, W: Write> Link for PipeLink<R, W> {
    ghost use Rattle.bar_system.specs.History.{wire_by};

    ghost wire = { λ link. wire_by link.log.events link.faults };

    /// There is nothing to bind, and the other end supplies the time.
    fn bind(&mut self, me: u16, port: u16, begin_ms: u64, tick_ms: u32) -> Result<(), LinkFault> {
        self.log = self.log.then(&Note::Bound(me, port, begin_ms, tick_ms));
        Ok(())
    }

    fn next(&mut self, buf: &mut [u8]) -> Result<Taken, LinkFault> {
        match take(
            &mut self.input,
            &mut self.output,
            &mut buf[..LARGEST_PACKET],
        ) {
            Ok(None) => {
                self.log = self.log.then(&Note::Ticked);
                Ok(Taken::Tick)
            }
            Ok(Some(len)) => {
                self.log = self.log.then(&Note::Came(&buf[..len]));
                Ok(Taken::Datagram(len))
            }
            Err(error) => Err(self.fault(&error)),
        }
    }

    fn send(&mut self, to: u16, bytes: &[u8]) -> Result<(), LinkFault> {
        match tell(&mut self.output, to, bytes) {
            Ok(()) => {
                self.log = self.log.then(&Note::Sent(to, bytes));
                Ok(())
            }
            Err(error) => Err(self.fault(&error)),
        }
    }
}
