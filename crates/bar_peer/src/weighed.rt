/// Whether a datagram is admitted, and whether it is searched for evidence.
#[derive(Clone, Copy, Debug)]
pub struct Weighed {
    pub is_admitted: bool,
    pub is_tried: bool,
}
