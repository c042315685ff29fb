ghost use Rattle.std.specs.Prelude.{◌≡◌, ◌≤◌, length, take};

/// Up to five parties.
#[derive(Clone, Copy, Debug, PartialEq, Eq)]
pub struct SmallList {
    pub list: [u16; 5],
    pub len: u8,
}

impl SmallList {
    /// These parties, or the first five if there are more.
    pub(crate) fn of(parties: &[u16]) -> SmallList
        ensures few { result.len ≤ 5 }
        ensures all { length parties.now ≤ 5 → take result.len result.list ≡ parties.now }
    {
        let mut list = [0; 5];
        let mut len = 0;
        for party in parties {
            if len < 5 {
                list[len as usize] = *party;
                len += 1;
            }
        }
        SmallList { list, len }
    }
}
