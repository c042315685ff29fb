use crate::item::Item;

/// What is to be sent, and to which peer.
#[derive(Clone, Copy, Debug)]
pub struct Order {
    pub peer: u16,
    pub item: Item,
}
