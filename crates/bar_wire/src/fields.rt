ghost use Rattle.std.specs.Prelude.{◌≡◌, ◌<◌, length};
ghost use Rattle.bar_wire.specs.declared.kind.Kind.TheVariants as kinds;
ghost use Rattle.bar_wire.specs.Places.{fields_len};
ghost use Rattle.bar_wire.specs.Code.Views.{plain, AreWhole};
ghost use Rattle.bar_wire.specs.Code.Reading.{HasBytes, Reads, ReadsForm, IsReadButRanges};

use crate::exchange::split_side;
use crate::kind::Kind;
use crate::ranges::is_in_range;
use crate::shape::Shape;
use crate::terms::read_terms;
use crate::view::Body;
use crate::windows::{read_window, read_windows};
use bar_bytes::{split_array, split_u8, split_u32};

fn manifest<'a>(bytes: &'a [u8], shape: &Shape) -> Body<'a>
    requires { length bytes.now ≡ fields_len shape.now kinds.Manifest bytes.now }
    ensures has { HasBytes shape.now kinds.Manifest (plain result) bytes.now }
    ensures whole { AreWhole result }
{
    let (round, rest) = split_u32(bytes);
    let (count, digests) = split_u8(rest);
    Body::Manifest {
        round,
        count,
        digests,
    }
}

fn block<'a>(bytes: &'a [u8], shape: &Shape) -> Body<'a>
    requires { length bytes.now ≡ fields_len shape.now kinds.Block bytes.now }
    ensures { HasBytes shape.now kinds.Block (plain result) bytes.now }
{
    let (round, rest) = split_u32(bytes);
    let (index, rest) = split_u8(rest);
    let (block, _) = split_array(rest);
    Body::Block {
        round,
        index,
        block,
    }
}

fn request<'a>(bytes: &'a [u8], shape: &Shape) -> Body<'a>
    requires { length bytes.now ≡ fields_len shape.now kinds.Request bytes.now }
    ensures { HasBytes shape.now kinds.Request (plain result) bytes.now }
{
    let (round, rest) = split_u32(bytes);
    let (seed, rest) = split_array(rest);
    let (commitment, _) = split_array(rest);
    Body::Request {
        round,
        seed,
        commitment,
    }
}

fn response<'a>(bytes: &'a [u8], shape: &Shape) -> Option<Body<'a>>
    requires { length bytes.now ≡ fields_len shape.now kinds.Response bytes.now }
    ensures { ReadsForm shape.now kinds.Response bytes.now result }
{
    let (round, rest) = split_u32(bytes);
    let (hb, _) = read_window(rest, round, shape)?;
    Some(Body::Response { round, hb })
}

fn divulge<'a>(bytes: &'a [u8], shape: &Shape) -> Option<Body<'a>>
    requires { length bytes.now ≡ fields_len shape.now kinds.Divulge bytes.now }
    ensures { ReadsForm shape.now kinds.Divulge bytes.now result }
{
    let (round, rest) = split_u32(bytes);
    let (nonce, rest) = split_array(rest);
    let (ha, _) = read_window(rest, round, shape)?;
    Some(Body::Divulge { round, nonce, ha })
}

fn query<'a>(bytes: &'a [u8], shape: &Shape) -> Option<Body<'a>>
    requires { length bytes.now ≡ fields_len shape.now kinds.Query bytes.now }
    ensures { ReadsForm shape.now kinds.Query bytes.now result }
{
    let (round, rest) = split_u32(bytes);
    let (seed, rest) = split_array(rest);
    let (young, aged, _) = read_windows(rest, round, shape)?;
    Some(Body::Query {
        round,
        seed,
        young,
        aged,
    })
}

fn reply<'a>(bytes: &'a [u8], shape: &Shape) -> Option<Body<'a>>
    requires { length bytes.now ≡ fields_len shape.now kinds.Reply bytes.now }
    ensures { ReadsForm shape.now kinds.Reply bytes.now result }
{
    let (round, rest) = split_u32(bytes);
    let (want, give, rest) = read_windows(rest, round, shape)?;
    let (junk, _) = split_u8(rest);
    Some(Body::Reply {
        round,
        want,
        give,
        junk,
    })
}

fn case<'a>(bytes: &'a [u8], shape: &Shape) -> Option<Body<'a>>
    requires { length bytes.now ≡ fields_len shape.now kinds.Case bytes.now }
    ensures { ReadsForm shape.now kinds.Case bytes.now result }
{
    let (round, rest) = split_u32(bytes);
    let (xkind, role, rest) = split_side(rest)?;
    let (updates, rest) = split_u8(rest);
    let (junk, rest) = split_u8(rest);
    let (terms, cipher) = read_terms(xkind, rest, round, shape)?;
    Some(Body::Case {
        round,
        xkind,
        role,
        updates,
        junk,
        terms,
        cipher,
    })
}

fn key_request<'a>(bytes: &'a [u8], shape: &Shape) -> Option<Body<'a>>
    requires { length bytes.now ≡ fields_len shape.now kinds.KeyReq bytes.now }
    ensures { ReadsForm shape.now kinds.KeyReq bytes.now result }
{
    let (round, rest) = split_u32(bytes);
    let (xkind, role, _) = split_side(rest)?;
    Some(Body::KeyReq { round, xkind, role })
}

fn key<'a>(bytes: &'a [u8], shape: &Shape) -> Option<Body<'a>>
    requires { length bytes.now ≡ fields_len shape.now kinds.Key bytes.now }
    ensures { ReadsForm shape.now kinds.Key bytes.now result }
{
    let (round, rest) = split_u32(bytes);
    let (xkind, role, rest) = split_side(rest)?;
    let (key, _) = split_array(rest);
    Some(Body::Key {
        round,
        xkind,
        role,
        key,
    })
}

fn evidence<'a>(bytes: &'a [u8], shape: &Shape) -> Body<'a>
    requires { length bytes.now ≡ fields_len shape.now kinds.Evidence bytes.now }
    ensures has { HasBytes shape.now kinds.Evidence (plain result) bytes.now }
    ensures whole { AreWhole result }
{
    let (count, datagrams) = split_u8(bytes);
    Body::Evidence { count, datagrams }
}

fn evict<'a>(bytes: &'a [u8], shape: &Shape) -> Body<'a>
    requires { length bytes.now ≡ fields_len shape.now kinds.Evict bytes.now }
    ensures has { HasBytes shape.now kinds.Evict (plain result) bytes.now }
    ensures whole { AreWhole result }
{
    let (round, rest) = split_u32(bytes);
    let (count, parties) = split_u8(rest);
    Body::Evict {
        round,
        count,
        parties,
    }
}

fn raw_body<'a>(kind: Kind, bytes: &'a [u8], shape: &Shape) -> Option<Body<'a>>
    requires { length bytes.now ≡ fields_len shape.now kind bytes.now }
    ensures { ReadsForm shape.now kind bytes.now result }
{
    match kind {
        Kind::Manifest => Some(manifest(bytes, shape)),
        Kind::Block => Some(block(bytes, shape)),
        Kind::Request => Some(request(bytes, shape)),
        Kind::Response => response(bytes, shape),
        Kind::Divulge => divulge(bytes, shape),
        Kind::Query => query(bytes, shape),
        Kind::Reply => reply(bytes, shape),
        Kind::Case => case(bytes, shape),
        Kind::KeyReq => key_request(bytes, shape),
        Kind::Key => key(bytes, shape),
        Kind::Evidence => Some(evidence(bytes, shape)),
        Kind::Evict => Some(evict(bytes, shape)),
    }
}

/// The body, if each of its fields is in its range.
fn in_range<'a>(kind: Kind, body: Body<'a>, bytes: &[u8], shape: &Shape) -> Option<Body<'a>>
    requires { IsReadButRanges shape.now kind bytes.now body }
    ensures { Reads shape.now kind bytes.now result }
{
    if is_in_range(&body, shape) {
        Some(body)
    } else {
        None
    }
}

/// The body that the bytes after the header encode, if they encode one of the kind.
pub(crate) fn read_body<'a>(kind: Kind, bytes: &'a [u8], shape: &Shape) -> Option<Body<'a>>
    requires { length bytes.now ≡ fields_len shape.now kind bytes.now }
    ensures { Reads shape.now kind bytes.now result }
{
    let body = raw_body(kind, bytes, shape)?;
    in_range(kind, body, bytes, shape)
}
