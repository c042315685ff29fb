//! Logs grow.

ghost use Rattle.bar_laws.specs.Growing.{CastersGrow, PartiesGrow, PeersGrow};

/// For every list of inputs or moves, a party's log keeps all its entries: what was once heard, said, kept or announced remains so.
pub fn logs_grow()
    // for a peer, over every list of inputs
    ensures peers { PeersGrow }
    // for a broadcaster
    ensures casters { CastersGrow }
    // for each party of a world, over every list of moves
    ensures parties { PartiesGrow }
{}
