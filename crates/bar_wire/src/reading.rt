ghost use Rattle.std.specs.Prelude.{◌≡◌, ◌↔◌, IsTrue, length, IsSome, MatchResult, IfOk, IfErr, IsOkAnd};
ghost use Rattle.std.specs.Option.{option_map};
ghost use Rattle.std.specs.Result.{result_ok};
ghost use Rattle.bar_wire.specs.Kinds.{is_signed_kind};
ghost use Rattle.bar_wire.specs.Datagram.{Datagram};
ghost use Rattle.bar_wire.specs.Grammar.{SpellsDatagram, signature_len};
ghost use Rattle.bar_wire.specs.Places.{datagram_of};
ghost use Rattle.bar_wire.specs.Faults.{IsFirstFault};
ghost use Rattle.bar_wire.specs.Code.Views.{datagram, signature_bytes, IsView};

use crate::fault::WireFault;
use crate::fields::read_body;
use crate::header::cut_parts;
use crate::kind::Kind;
use crate::ranges::may_send;
use crate::shape::Shape;
use crate::view::View;

/// The signature, if the kind has one.
fn signature<'a>(kind: Kind, sig: &'a [u8], shape: &Shape) -> Option<&'a [u8]>
    requires { length sig.now ≡ signature_len shape.now kind }
    ensures bytes { signature_bytes result ≡ sig.now }
    ensures some { IsSome result ↔ IsTrue (is_signed_kind kind) }
{
    if kind.is_signed() { Some(sig) } else { None }
}

fn read<'a>(bytes: &'a [u8], shape: &Shape) -> Result<View<'a>, WireFault>
    ensures { MatchResult result (IsView shape.now bytes.now) (IsFirstFault shape.now bytes.now) }
{
    let cut = cut_parts(bytes, shape)?;
    let Some(body) = read_body(cut.kind, cut.fields, shape) else {
        return Err(WireFault::BadField);
    };
    if !may_send(cut.kind, cut.from, cut.to, shape) {
        return Err(WireFault::BadField);
    }
    let message = &bytes[..bytes.len() - cut.sig.len()];
    let sig = signature(cut.kind, cut.sig, shape);
    Ok(View {
        from: cut.from,
        to: cut.to,
        body,
        message,
        sig,
    })
}

/// The datagram that the bytes encode, or the first fault if they encode none. Allocates no memory; the view borrows its parts.
pub fn decode<'a>(bytes: &'a [u8], shape: &Shape) -> Result<View<'a>, WireFault>
    // The bytes encode the datagram that is read.
    ensures found { IfOk result (IsView shape.now bytes.now) }
    // If the bytes encode a datagram, it is read.
    ensures only { (d : Datagram) → SpellsDatagram shape.now d bytes.now → IsOkAnd result (λ v. datagram shape.now v ≡ d) }
    // An error is the first fault that applies.
    ensures fault { IfErr result (IsFirstFault shape.now bytes.now) }
    // So the result is the datagram of the bytes.
    ensures told { option_map (datagram shape.now) (result_ok result) ≡ datagram_of shape.now bytes.now }
{
    read(bytes, shape)
}
