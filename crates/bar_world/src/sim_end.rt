use crate::small_list::SmallList;

/// The result of a simulation.
#[derive(Clone, Copy, Debug, PartialEq, Eq)]
pub struct SimEnd {
    /// How many bytes each of peers 1 to 5 played.
    pub played: [u64; 5],
    /// How many entries of the queue were delivered.
    pub delivered: u64,
    /// How many were lost.
    pub lost: u64,
    /// How many of the delivered ones were delivered twice.
    pub repeated: u64,
    /// Whom the broadcaster evicted.
    pub evicted: SmallList,
}
