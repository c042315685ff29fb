/// The numbers of updates and of junk items that a CASE states for its briefcase.
#[derive(Clone, Copy, Debug)]
pub struct Counts {
    pub updates: u8,
    pub junk: u8,
}
