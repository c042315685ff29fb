//! No peer is framed by the messages that it signed.

ghost use Rattle.bar_laws.specs.Framing.{NoFraming};

/// For every list of inputs, no evidence that consists of messages which a peer signed names that peer, under any table that agrees with
/// the peer's.
pub fn no_framing()
    ensures { NoFraming }
{}
