/// An update of the stream: the round that released it, and its index there. Updates are ordered by round, then by index.
#[derive(Clone, Copy, Debug, PartialEq, Eq, PartialOrd, Ord, Hash)]
pub struct UpdateId {
    pub round: u32,
    pub index: u8,
}
