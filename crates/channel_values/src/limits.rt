//! The limits of the formats. Specs write the numbers.

/// Assets of an outcome.
pub const MOST_ASSETS: usize = 4;

/// Items or destinations of an asset.
pub const MOST_ITEMS: usize = 16;

/// Participants of a channel.
pub const MOST_PEOPLE: usize = 4;

/// States of a chain.
pub const MOST_STATES: usize = 4;

/// Marks of a chain.
pub const MOST_MARKS: usize = 4;

/// Bytes of a state's application data.
pub const MOST_APP_BYTES: usize = 4096;

/// Bytes of a signature: the longest of RFC 8554's types that are known here.
pub const MOST_SIGNATURE_BYTES: usize = 9004;
