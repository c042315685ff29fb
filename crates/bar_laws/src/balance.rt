//! Balance of exchanges.

ghost use Rattle.bar_laws.specs.Balance.{Balanced, KeysGoToPartners, SaidKeysWereSent};

/// Every exchange is balanced, for every list of inputs.
pub fn balanced()
    // what a peer opens in an exchange, counted in items, is nothing, or equals both what it promised and what the partner's briefcase that
    // it holds promises
    ensures opened { Balanced }
    // each key that a peer sends is for its partner in the exchange
    ensures partners { KeysGoToPartners }
    // a key was sent if and only if it was signed, so counting keys that were sent gives the same totals as what is known
    ensures said { SaidKeysWereSent }
{}
