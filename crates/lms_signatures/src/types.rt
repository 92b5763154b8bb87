//! The types of keys and signatures (RFC 8554, tables 1 and 2), and what can be wrong with their bytes.

ghost use Rattle.std.specs.Prelude.{◌≡◌, ◌/◌, ◌^◌, ◌-◌};
ghost use Rattle.lms_signatures.specs.Types.{ots_code, width, chain_count, checksum_shift, lms_code, height, ots_of, lms_of};

/// A type of LM-OTS key, by the width of its coefficients in bits.
#[derive(Clone, Copy, Debug, PartialEq, Eq)]
pub enum OtsType {
    W1,
    W2,
    W4,
    W8,
}

impl OtsType {
    /// The type of this code.
    pub fn from_code(code: u32) -> Option<OtsType>
        ensures { result ≡ ots_of code }
    {
        match code {
            1 => Some(OtsType::W1),
            2 => Some(OtsType::W2),
            3 => Some(OtsType::W4),
            4 => Some(OtsType::W8),
            _ => None,
        }
    }

    /// The code of this type.
    pub fn code(self) -> u32
        ensures { result ≡ ots_code self }
    {
        match self {
            OtsType::W1 => 1,
            OtsType::W2 => 2,
            OtsType::W4 => 3,
            OtsType::W8 => 4,
        }
    }

    /// The width of a coefficient in bits.
    pub fn width(self) -> usize
        ensures { result ≡ width self }
    {
        match self {
            OtsType::W1 => 1,
            OtsType::W2 => 2,
            OtsType::W4 => 4,
            OtsType::W8 => 8,
        }
    }

    /// The largest coefficient, 2^w - 1.
    pub fn max_digit(self) -> u8
        ensures { result ≡ 2 ^ width self - 1 }
    {
        match self {
            OtsType::W1 => 1,
            OtsType::W2 => 3,
            OtsType::W4 => 15,
            OtsType::W8 => 255,
        }
    }

    /// The number of coefficients in a hash, 256 / w.
    pub fn hash_digits(self) -> u16
        ensures { result ≡ 256 / width self }
    {
        match self {
            OtsType::W1 => 256,
            OtsType::W2 => 128,
            OtsType::W4 => 64,
            OtsType::W8 => 32,
        }
    }

    /// The number of chains, p.
    pub fn chain_count(self) -> u16
        ensures { result ≡ chain_count self }
    {
        match self {
            OtsType::W1 => 265,
            OtsType::W2 => 133,
            OtsType::W4 => 67,
            OtsType::W8 => 34,
        }
    }

    /// How far the checksum is shifted to the left, ls, in bits.
    pub fn checksum_shift(self) -> u32
        ensures { result ≡ checksum_shift self }
    {
        match self {
            OtsType::W1 => 7,
            OtsType::W2 => 6,
            OtsType::W4 => 4,
            OtsType::W8 => 0,
        }
    }
}

/// A type of LMS key, by the height of its tree.
#[derive(Clone, Copy, Debug, PartialEq, Eq)]
pub enum LmsType {
    H5,
    H10,
    H15,
}

impl LmsType {
    /// The type of this code.
    pub fn from_code(code: u32) -> Option<LmsType>
        ensures { result ≡ lms_of code }
    {
        match code {
            5 => Some(LmsType::H5),
            6 => Some(LmsType::H10),
            7 => Some(LmsType::H15),
            _ => None,
        }
    }

    /// The code of this type.
    pub fn code(self) -> u32
        ensures { result ≡ lms_code self }
    {
        match self {
            LmsType::H5 => 5,
            LmsType::H10 => 6,
            LmsType::H15 => 7,
        }
    }

    /// The height of the tree, h.
    pub fn height(self) -> u16
        ensures { result ≡ height self }
    {
        match self {
            LmsType::H5 => 5,
            LmsType::H10 => 10,
            LmsType::H15 => 15,
        }
    }
}

/// What is wrong with the bytes of a key or a signature, in the order in which it is looked for.
#[derive(Clone, Copy, Debug, PartialEq, Eq)]
pub enum LmsFault {
    /// The length, in bytes, is not the one that the key's types give.
    Length(usize),
    /// A type code is unknown, or is not the key's.
    Kind(u32),
    /// No leaf has this index.
    Index(u32),
}
