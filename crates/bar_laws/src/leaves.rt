//! Leaf discipline: no leaf signs two messages.

ghost use Rattle.bar_laws.specs.Leaves.{LeafDiscipline};

/// For every list of inputs, no leaf of a peer's key signs two different messages. Each leaf is below the number of leaves (RFC 8554, 5.1:
/// `2 ^ h`). The leaf that signed a message is the one that every later log gives for it.
pub fn leaf_discipline()
    ensures { LeafDiscipline }
{}
