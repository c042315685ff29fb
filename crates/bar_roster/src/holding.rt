//! Whether a session holds a public key and an anchor.

ghost use Rattle.std.specs.Prelude.{◌≡◌, ◌-◌, ◌≤◌};
ghost use Rattle.bar_roster.specs.KeyFile.{holds, is_at};

use crate::Session;

impl Session {
    // Whether the session holds a public key for a party.
    fn holds_key(&self, party: u16, key: &[u8]) -> bool
        requires { party ≤ self.now.shape.peers }
        ensures { result ≡ is_at self.now.keys party key.now }
    {
        self.key(party) == key
    }

    // Whether the session holds an anchor for a peer.
    fn holds_anchor(&self, peer: u16, anchor: &[u8; 32]) -> bool
        requires low { 1 ≤ peer }
        requires high { peer ≤ self.now.shape.peers }
        ensures { result ≡ is_at self.now.anchors (peer - 1) anchor.now }
    {
        self.anchor(peer).as_slice() == anchor.as_slice()
    }

    /// Whether the session holds a public key for a party, and for a peer an anchor.
    pub fn holds(&self, party: u16, key: &[u8], anchor: &[u8; 32]) -> bool
        requires { party ≤ self.now.shape.peers }
        ensures { result ≡ holds self.now party key.now anchor.now }
    {
        self.holds_key(party, key) && (party == 0 || self.holds_anchor(party, anchor))
    }
}
