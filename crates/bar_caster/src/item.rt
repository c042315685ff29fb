/// What is sent to a peer: the manifest of this round or of the previous one, this round's notice of evictions, or the block of this round
/// with an index.
#[derive(Clone, Copy, Debug, PartialEq, Eq)]
pub enum Item {
    Manifest,
    ManifestBefore,
    Evictions,
    Block(u8),
}
