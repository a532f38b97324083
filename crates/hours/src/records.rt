// The records of the cases, a line each for the header, the variables, and the clause.

// Case 10: x, y, z in -4,096..4,095, 64x + 64y + 64z at most 0.
pub const WIDE_SUM: [u8; 39] = *b"\x01\0\0\0\x22\0\x03\0\0\0\x01\
    \xF0\0\x0F\xFF\xF0\0\x0F\xFF\xF0\0\x0F\xFF\
    \x01\x02\x03\x40\0\0\x40\0\x01\x40\0\x02\0\0\0\0";

// Case 7: x in 5..5.
pub const ONE_VALUE: [u8; 15] = *b"\x01\0\0\0\x0A\0\x01\0\0\0\0\
    \0\x05\0\x05";

// x in -4..3.
pub const AROUND_ZERO: [u8; 15] = *b"\x01\0\0\0\x0A\0\x01\0\0\0\0\
    \xFF\xFC\0\x03";

// x in -4,096..4,095: 8,192 values.
pub const WIDEST: [u8; 15] = *b"\x01\0\0\0\x0A\0\x01\0\0\0\0\
    \xF0\0\x0F\xFF";

// x in 1000..1509: the makespan of 003, Table 1.
pub const MAKESPAN: [u8; 15] = *b"\x01\0\0\0\x0A\0\x01\0\0\0\0\
    \x03\xE8\x05\xE5";
