// What 01 sets as greatest.

// The bytes of a format.
pub const LONGEST_FORMAT: usize = 4096;

// The bytes of a string that a vet is asked for.
pub const LONGEST_STRING: usize = 4096;

// The blocks that are open at once.
pub const DEEPEST: usize = 8;

// The steps of a call.
pub const MOST_STEPS: usize = 65536;

// The entries of a table, and the bytes of its pool.
pub const MOST_ENTRIES: usize = 1024;

pub const MOST_POOL: usize = 65536;

// The number of a parameter, and that of a character.
pub const MOST_NUMBER: u16 = 4096;

pub const MOST_CHARACTER: u16 = 127;

// The tag of the last kind.
// A number and no enum: a vet gets kinds as bytes from C.
pub const LAST_KIND: u8 = 4;
