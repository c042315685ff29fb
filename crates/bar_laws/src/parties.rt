//! What holds among several parties, whatever the network and hostile parties do.
//!
//! Each contract is about a set of trusted parties that contains the broadcaster, and about any list of moves that forges no accepted
//! signature of a trusted party. That signatures can't be forged is a premise, not a theorem.

ghost use Rattle.bar_laws.specs.Parties.{NobodyIsEvicted, NobodyIsAnnounced, NobodyIsAccused, KeysOpenWell, TablesAreExtended, StepIsAccepted, SentIsAccepted, HeardWasSaid};

/// No trusted peer is evicted.
pub fn nobody_is_evicted()
    ensures { NobodyIsEvicted }
{}

/// No trusted peer is announced evicted to any peer.
pub fn nobody_is_announced()
    ensures { NobodyIsAnnounced }
{}

/// No trusted party, the broadcaster among them, keeps evidence against a trusted peer.
pub fn nobody_is_accused()
    ensures { NobodyIsAccused }
{}

/// If one of two trusted peers admitted a key from the other, the key opens well, and the receiver then holds each promised update that is
/// alive.
pub fn keys_open_well()
    ensures { KeysOpenWell }
{}

/// The broadcaster's table extends the table of each trusted peer.
pub fn tables_are_extended()
    ensures { TablesAreExtended }
{}

/// Whatever is forged, each datagram that a party sends can be read and names the party as its sender. If its kind is signed, the signature
/// is accepted under the party's key (RFC 8554, 5.4.2).
pub fn sent_is_accepted()
    // for each input that a party may take
    ensures step { StepIsAccepted }
    // for all packets that were ever sent
    ensures packets { SentIsAccepted }
{}

/// Each signed datagram that a peer admitted from a trusted party was signed by this party.
pub fn what_was_heard_was_said()
    ensures { HeardWasSaid }
{}
