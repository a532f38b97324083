// The records whose text is written, a line each for the header, the variables, and the clauses.

// x and y in 0..2, not equal.
pub const UNEQUAL: [u8; 44] = *b"\x01\0\0\0\x27\0\x02\0\0\0\x01\
    \0\0\0\x02\0\0\0\x02\
    \x02\x02\x02\x01\0\0\xFF\0\x01\xFF\xFF\xFF\xFF\x02\x02\xFF\0\0\x01\0\x01\xFF\xFF\xFF\xFF";

// x in 0..0, x at most -1: an empty clause.
pub const NEVER: [u8; 25] = *b"\x01\0\0\0\x14\0\x01\0\0\0\x01\
    \0\0\0\0\
    \x01\x02\x01\x01\0\0\xFF\xFF\xFF\xFF";

// No variable and no clause; the same, of version 9.
pub const NOTHING: [u8; 11] = *b"\x01\0\0\0\x06\0\0\0\0\0\0";

pub const VERSION_NINE: [u8; 11] = *b"\x09\0\0\0\x06\0\0\0\0\0\0";
