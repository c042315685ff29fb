/// How many items this peer promised in an exchange, was promised, and gave a key for. Junk items count.
#[derive(Clone, Copy, Debug, PartialEq, Eq)]
pub struct Totals {
    pub promised: u8,
    pub received: u8,
    pub opened: u8,
}
