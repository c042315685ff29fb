//! Debts: a party that owes a key isn't served.

ghost use Rattle.bar_laws.specs.Debts.{DebtsAreRead, WhoOwesIsNotServed};

/// In every log, a party owes this member a key if and only if all of this holds. The session is of version 3, this member has said its key
/// of an exchange with the party, and the party's key was never admitted. The round is one in which the party's key is due and may still be
/// admitted.
pub fn debts_are_read()
    ensures { DebtsAreRead }
{}

/// For every list of inputs, a party that owes a key isn't served: its requests aren't admitted, and it isn't asked. So if a key was said
/// in time and the party never gives its own, few exchanges with the party follow in the next rounds, and little is opened in them.
pub fn who_owes_is_not_served()
    ensures { WhoOwesIsNotServed }
{}
