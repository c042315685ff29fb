//! Peers sign by the rules.

ghost use Rattle.bar_laws.specs.Obedience.{SignedByRule};

/// For every list of inputs, each datagram that a peer signs meets the rule at that moment and has the signature of its leaf. Each signed
/// datagram that it sends is one of these.
pub fn signed_by_rule()
    ensures { SignedByRule }
{}
