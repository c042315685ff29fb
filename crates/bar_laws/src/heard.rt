//! What was heard, for every list of inputs.

ghost use Rattle.bar_laws.specs.Heard.{HeardHasCome, OpeningsAreTold};

/// Every admitted datagram arrived as an input, and what it can show is decided when it is admitted.
pub fn what_was_heard_came()
    // each datagram that was admitted is encoded by the bytes of one of the inputs
    ensures came { HeardHasCome }
    // No key opens an admitted CASE to Unknown under the peer's table. So an admitted KEY opens its partner's CASE well or badly, at once
    // and ever after.
    ensures told { OpeningsAreTold }
{}
