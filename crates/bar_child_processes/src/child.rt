/// A child that was started: its party, and its number at the spawner.
#[derive(Clone, Copy, Debug)]
pub struct Child {
    pub party: u16,
    pub number: usize,
}
