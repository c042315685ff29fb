ghost use Rattle.std.specs.Prelude.{◌<◌, ◌≤◌, length};
ghost use Rattle.bar_window.specs.declared.exchange.XKind.{XKind};
ghost use Rattle.bar_window.specs.declared.exchange.XKind.TheVariants as kinds;
ghost use Rattle.bar_window.specs.Exchange.{kind_code};
ghost use Rattle.bar_wire.specs.Places.{terms_len};
ghost use Rattle.bar_wire.specs.Code.Terms.{ReadsTerms};

use crate::shape::Shape;
use crate::windows::read_windows;
use bar_bytes::{split_array, split_u8};
use bar_window::{Terms, XKind};

fn balanced<'a>(bytes: &'a [u8], round: u32, shape: &Shape) -> Option<(Terms, &'a [u8])>
    requires { terms_len shape.now 0 ≤ length bytes.now }
    ensures { ReadsTerms shape.now kinds.Balanced round bytes.now result }
{
    let (nonce, rest) = split_array(bytes);
    let (ha, hb, rest) = read_windows(rest, round, shape)?;
    let terms = Terms::Balanced {
        nonce: *nonce,
        ha,
        hb,
    };
    Some((terms, rest))
}

fn push<'a>(bytes: &'a [u8], round: u32, shape: &Shape) -> Option<(Terms, &'a [u8])>
    requires { terms_len shape.now 1 ≤ length bytes.now }
    ensures { ReadsTerms shape.now kinds.Push round bytes.now result }
{
    let (young, aged, rest) = read_windows(bytes, round, shape)?;
    let (want, give, rest) = read_windows(rest, round, shape)?;
    let (junk, rest) = split_u8(rest);
    let terms = Terms::Push {
        young,
        aged,
        want,
        give,
        junk,
    };
    Some((terms, rest))
}

/// The terms of an exchange of a kind, and the bytes after them.
pub(crate) fn read_terms<'a>(
    kind: XKind,
    bytes: &'a [u8],
    round: u32,
    shape: &Shape,
) -> Option<(Terms, &'a [u8])>
    requires { terms_len shape.now (kind_code kind) ≤ length bytes.now }
    ensures { ReadsTerms shape.now kind round bytes.now result }
{
    match kind {
        XKind::Balanced => balanced(bytes, round, shape),
        XKind::Push => push(bytes, round, shape),
    }
}
