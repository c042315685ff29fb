//! Which inputs change nothing.

ghost use Rattle.bar_laws.specs.Ignoring.{CastersIgnore, PeersIgnore};

/// A datagram that can't be read leaves a party unchanged, and the party sends and plays nothing for it. The same holds for a peer if it
/// doesn't admit the datagram, which repeats none that it admitted and completes no evidence. It holds for a broadcaster if the datagram
/// shows no fault of a party that isn't evicted yet.
pub fn ignored_datagrams_change_nothing()
    ensures peers { PeersIgnore }
    ensures casters { CastersIgnore }
{}
