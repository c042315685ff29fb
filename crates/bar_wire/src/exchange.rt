ghost use Rattle.std.specs.Prelude.{◌≡◌, ◌+◌, ◌≤◌, [], ◌∷◌, length};
ghost use Rattle.bar_bytes.specs.Code.Putting.{Appends};
ghost use Rattle.bar_window.specs.Exchange.{kind_code, role_code};
ghost use Rattle.bar_wire.specs.Code.Sides.{ReadsSide};

use bar_bytes::{put_u8, split_u8};
use bar_window::{Role, XKind};

/// The kind of exchange and the sender's role whose codes the bytes begin with, and what follows them.
pub(crate) fn split_side(bytes: &[u8]) -> Option<(XKind, Role, &[u8])>
    requires { 2 ≤ length bytes.now }
    ensures { ReadsSide bytes.now result }
{
    let (kind, rest) = split_u8(bytes);
    let (role, rest) = split_u8(rest);
    let kind = XKind::at(kind)?;
    let role = Role::at(role)?;
    Some((kind, role, rest))
}

/// Writes the codes of a kind of exchange and of the sender's role.
pub(crate) fn put_side(out: &mut [u8], at: usize, kind: XKind, role: Role) -> usize
    requires { at + 2 ≤ length out.old }
    ensures writes { Appends out.old at (kind_code kind ∷ role_code role ∷ []) out.new result }
    ensures end { result ≡ at + 2 }
{
    let at = put_u8(out, at, kind.code());
    put_u8(out, at, role.code())
}
