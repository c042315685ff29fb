ghost use Rattle.std.specs.Prelude.{◌≡◌, ◌↔◌, IsTrue, MatchResult};
ghost use Rattle.bar_wire.specs.Faults.{IsFirstFault};
ghost use Rattle.bar_wire.specs.Code.Headers.{IsHeader, IsCutAt};

use crate::fault::WireFault;
use crate::kind::Kind;
use crate::lengths::{has_length, signature_len};
use crate::limits::HEADER_LEN;
use crate::shape::Shape;
use bar_bytes::{split_array, split_u16};

/// The header of a datagram, and the bytes after it.
#[derive(Drop)]
struct Header<'a> {
    pub kind: Kind,
    pub from: u16,
    pub to: u16,
    pub rest: &'a [u8],
}

fn is_id(id: &[u8; 8], shape: &Shape) -> bool
    ensures { IsTrue result ↔ (id.now ≡ shape.now.id) }
{
    *id == shape.id
}

fn read_header<'a>(bytes: &'a [u8], shape: &Shape) -> Result<Header<'a>, WireFault>
    ensures { MatchResult result (IsHeader shape.now bytes.now) (IsFirstFault shape.now bytes.now) }
{
    if bytes.len() < HEADER_LEN {
        return Err(WireFault::Short);
    }
    let [first, second, version, code, rest @ ..] = bytes else {
        return Err(WireFault::Short);
    };
    if *first != 0xba || *second != 0x47 {
        return Err(WireFault::BadMagic);
    }
    if *version != shape.version {
        return Err(WireFault::BadVersion);
    }
    let Some(kind) = Kind::at(*code) else {
        return Err(WireFault::BadKind);
    };
    let (id, rest) = split_array(rest);
    if !is_id(id, shape) {
        return Err(WireFault::BadSession);
    }
    let (from, rest) = split_u16(rest);
    let (to, rest) = split_u16(rest);
    Ok(Header {
        kind,
        from,
        to,
        rest,
    })
}

/// The parts of a datagram, cut by its length.
#[derive(Drop)]
pub(crate) struct Cut<'a> {
    pub kind: Kind,
    pub from: u16,
    pub to: u16,
    pub fields: &'a [u8],
    pub sig: &'a [u8],
}

/// Cuts the bytes of a datagram into its parts.
pub(crate) fn cut_parts<'a>(bytes: &'a [u8], shape: &Shape) -> Result<Cut<'a>, WireFault>
    ensures { MatchResult result (IsCutAt shape.now bytes.now) (IsFirstFault shape.now bytes.now) }
{
    let header = read_header(bytes, shape)?;
    let sig_len = signature_len(header.kind, shape);
    if header.rest.len() < sig_len {
        return Err(WireFault::BadLength);
    }
    let (fields, sig) = header.rest.split_at(header.rest.len() - sig_len);
    if !has_length(header.kind, fields, shape) {
        return Err(WireFault::BadLength);
    }
    Ok(Cut {
        kind: header.kind,
        from: header.from,
        to: header.to,
        fields,
        sig,
    })
}
