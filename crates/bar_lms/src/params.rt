//! The types of LM-OTS and LMS, and their numbers.

ghost use Rattle.std.specs.Prelude.{◌≡◌, ◌^◌, ◌≤◌, ◌↔◌, Ok, IsErr};
ghost use Rattle.bar_lms.specs.Params.{digit_bits, chains, checksum_shift, ots_type, lms_type, levels, last, signature_len, most_steps, NameNoTypes};

/// The types of LM-OTS (RFC 8554, 4.1), by the bits of a digit.
#[derive(Clone, Copy, Debug, PartialEq, Eq)]
pub enum Ots {
    W1,
    W2,
    W4,
    W8,
}

/// The types of LMS (RFC 8554, 5.1), by the levels of the tree above its leaves.
#[derive(Clone, Copy, Debug, PartialEq, Eq)]
pub enum Height {
    H5,
    H10,
    H15,
}

impl Ots {
    /// The bits of a digit.
    pub fn digit_bits(self) -> u32
        ensures { result ≡ digit_bits self }
    {
        match self {
            Ots::W1 => 1,
            Ots::W2 => 2,
            Ots::W4 => 4,
            Ots::W8 => 8,
        }
    }

    /// The chains of a key.
    pub fn chains(self) -> usize
        ensures { result ≡ chains self }
    {
        match self {
            Ots::W1 => 265,
            Ots::W2 => 133,
            Ots::W4 => 67,
            Ots::W8 => 34,
        }
    }

    /// The bits that the checksum is shifted by.
    pub fn checksum_shift(self) -> u32
        ensures { result ≡ checksum_shift self }
    {
        match self {
            Ots::W1 => 7,
            Ots::W2 => 6,
            Ots::W4 => 4,
            Ots::W8 => 0,
        }
    }

    /// The last value of a digit.
    pub fn last(self) -> u32
        ensures { result ≡ last self }
    {
        match self {
            Ots::W1 => 1,
            Ots::W2 => 3,
            Ots::W4 => 15,
            Ots::W8 => 255,
        }
    }

    /// The number of the type.
    pub fn number(self) -> u32
        ensures { result ≡ ots_type self }
    {
        match self {
            Ots::W1 => 1,
            Ots::W2 => 2,
            Ots::W4 => 3,
            Ots::W8 => 4,
        }
    }
}

impl Height {
    /// The levels above the leaves.
    pub fn levels(self) -> u32
        ensures { result ≡ levels self }
    {
        match self {
            Height::H5 => 5,
            Height::H10 => 10,
            Height::H15 => 15,
        }
    }

    /// The leaves.
    pub fn leaves(self) -> usize
        ensures value { result ≡ 2 ^ levels self }
        ensures bound { result ≤ 32768 }
    {
        match self {
            Height::H5 => 32,
            Height::H10 => 1024,
            Height::H15 => 32768,
        }
    }

    /// The number of the type.
    pub fn number(self) -> u32
        ensures { result ≡ lms_type self }
    {
        match self {
            Height::H5 => 5,
            Height::H10 => 6,
            Height::H15 => 7,
        }
    }
}

/// The types of a key: the height of its tree and the width of its digits.
#[derive(Clone, Copy, Debug, PartialEq, Eq)]
pub struct Params {
    pub height: Height,
    pub ots: Ots,
}

/// Numbers that name no types.
#[derive(Clone, Copy, Debug, PartialEq, Eq)]
pub struct BadType;

impl Params {
    /// The types of these numbers: LMS types 5 to 7 (RFC 8554, 5.1) and LM-OTS types 1 to 4 (4.1).
    pub fn of_types(lms: u32, ots: u32) -> Result<Params, BadType>
        ensures found { (p : Params) → (result ≡ Ok p) ↔ ((lms ≡ lms_type p.height) × (ots ≡ ots_type p.ots)) }
        ensures bad_type { IsErr result ↔ NameNoTypes lms ots }
    {
        let height = match lms {
            5 => Height::H5,
            6 => Height::H10,
            7 => Height::H15,
            _ => return Err(BadType),
        };
        let ots = match ots {
            1 => Ots::W1,
            2 => Ots::W2,
            3 => Ots::W4,
            4 => Ots::W8,
            _ => return Err(BadType),
        };
        Ok(Params { height, ots })
    }

    /// The number of the LMS type.
    pub fn lms(&self) -> u32
        ensures { result ≡ lms_type self.now.height }
    {
        self.height.number()
    }

    /// The number of the LM-OTS type.
    pub fn ots(&self) -> u32
        ensures { result ≡ ots_type self.now.ots }
    {
        self.ots.number()
    }

    /// The levels of the tree above its leaves: there are 2 to this power leaves.
    pub fn height(&self) -> u32
        ensures { result ≡ levels self.now.height }
    {
        self.height.levels()
    }

    /// The bytes of a signature.
    pub fn sig_len(&self) -> usize
        ensures { result ≡ signature_len self.now }
    {
        12 + 32 * (self.ots.chains() + 1) + 32 * self.height.levels() as usize
    }

    /// The most steps that `verify` takes.
    pub fn most(&self) -> u32
        ensures { result ≡ most_steps self.now }
    {
        self.ots.chains() as u32 * self.ots.last() + self.height.levels() + 3
    }
}
