/// The outcome for a block: the first of these that holds.
#[derive(Clone, Copy, Debug, PartialEq, Eq)]
pub enum Added {
    /// The update is no longer alive.
    Late,
    /// The manifest of its round is missing.
    NoManifest,
    /// The manifest has no digest for its index.
    PastEnd,
    /// The manifest has another digest for it.
    WrongDigest,
    /// Its block was held already.
    Held,
    /// Its block is held from now on.
    New,
}
