//! Laws of the grammar of datagrams.

ghost use Rattle.std.specs.Prelude.{◌≡◌, ◌↔◌, ℕ, List, [], ◌++◌, Some, IsTrue};
ghost use Rattle.bar_wire.specs.declared.shape.Shape.{Shape};
ghost use Rattle.bar_wire.specs.Datagram.{Datagram};
ghost use Rattle.bar_wire.specs.Grammar.{SpellsDatagram, IsDatagram};
ghost use Rattle.bar_wire.specs.Ranges.{is_datagram};
ghost use Rattle.bar_wire.specs.Places.{datagram_of};

/// Bytes encode at most one datagram.
pub fn bytes_spell_one()
    ensures { (s : Shape) (d e : Datagram) (bytes : List ℕ) → SpellsDatagram s d bytes → SpellsDatagram s e bytes → d ≡ e }
{}

/// A datagram has one encoding.
pub fn a_datagram_has_one_spelling()
    ensures { (s : Shape) (d : Datagram) (a b : List ℕ) → SpellsDatagram s d a → SpellsDatagram s d b → a ≡ b }
{}

/// The encoding is prefix-free: if one encoding is a prefix of another, nothing follows it.
pub fn no_spelling_begins_another()
    ensures { (s : Shape) (d e : Datagram) (a b after : List ℕ) → SpellsDatagram s d a → SpellsDatagram s e b → a ++ after ≡ b →
        after ≡ [] }
{}

/// The test for datagrams that have an encoding is exact.
pub fn the_test_tells_a_datagram()
    ensures { (s : Shape) (d : Datagram) → IsTrue (is_datagram s d) ↔ IsDatagram s d }
{}

/// The datagram that is read at the places of its kind is the one that the bytes encode.
pub fn the_datagram_is_spelled()
    ensures { (s : Shape) (d : Datagram) (bytes : List ℕ) → (datagram_of s bytes ≡ Some d) ↔ SpellsDatagram s d bytes }
{}
