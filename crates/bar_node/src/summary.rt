/// How many ticks a run took, how many datagrams it sent and how many bytes it played. The last two saturate at 2^64 - 1.
#[derive(Clone, Copy, Debug, PartialEq, Eq)]
pub struct Summary {
    pub ticks: u32,
    pub sent: u64,
    pub played: u64,
}
