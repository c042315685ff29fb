//! Laws of session and key texts. These functions do nothing: what they ensure is a law.

ghost use Rattle.std.specs.Prelude.{◌≡◌, ◌≤◌, ℕ, ◌↔◌, Bool, false, length, List, Ok, IsTrue};
ghost use Rattle.bar_session.specs.SessionData.{SessionData};
ghost use Rattle.bar_roster.specs.SessionText.{session_of};
ghost use Rattle.bar_session.specs.Sessions.{IsSession};
ghost use Rattle.bar_seeds.specs.declared.secrets.Secrets.{Secrets};
ghost use Rattle.bar_roster.specs.KeyAnew.{longest_text, text_of};
ghost use Rattle.bar_session.specs.Fits.{Fits};
ghost use Rattle.bar_roster.specs.KeyFile.{IsHeldBy, fits, key_file_of};

/// The test of a secret is true if and only if the session holds the key, and for a peer the anchor, derived from it.
pub fn secrets_are_tested()
    ensures { (s : SessionData) (party : ℕ) (secret : List ℕ) → IsTrue (fits s party secret) ↔ Fits s party secret }
{}

/// A key text is accepted only if the session holds the public key, and for a peer the anchor, derived from its secret.
pub fn accepted_secrets_are_held()
    ensures { (s : SessionData) (caster fresh : Bool) (bytes : List ℕ) (k : Secrets) → key_file_of s caster fresh bytes ≡ Ok k →
        IsHeldBy s caster k }
{}

/// An accepted session has its numbers in their ranges, a key for each party, an anchor for each peer, and a leaf for each message.
pub fn accepted_sessions_are_in_range()
    ensures { (bytes : List ℕ) (s : SessionData) → session_of bytes ≡ Ok s → IsSession s }
{}

/// If a key text was accepted, the text that is written from its secrets, spent or not, is read back as the same secrets, unless a fresh
/// key is asked for. The text is short.
pub fn accepted_keys_are_read_back()
    ensures same { (s : SessionData) (caster fresh spent : Bool) (bytes : List ℕ) (k : Secrets) → key_file_of s caster fresh bytes ≡ Ok k →
        key_file_of s caster false (text_of s k spent) ≡ Ok k }
    ensures short { (s : SessionData) (caster fresh spent : Bool) (bytes : List ℕ) (k : Secrets) → key_file_of s caster fresh bytes ≡ Ok k →
        length (text_of s k spent) ≤ longest_text }
{}
