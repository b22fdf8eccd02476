//! The limits of this implementation, which contracts cite.

/// The greatest dimension of an object.
pub const GREATEST_DIMENSION: u64 = 4_294_967_296;

/// How many objects there may be at a time.
pub const MOST_OBJECTS: u64 = 1_024;

/// The greatest length of a name, in letters.
pub const LONGEST_NAME: usize = 32;

/// The greatest length of a file's name, in bytes.
pub const LONGEST_FILE_NAME: usize = 255;

/// The greatest length of a call's line, in bytes, without its line end.
pub const LONGEST_LINE: usize = 65_536;

/// The greatest number of positions that a call fills with one value.
pub const MOST_FILLED: u64 = 16_777_216;
