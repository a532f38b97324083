// The records of the cases, a line each for the header, the variables, and the clause or its literals.

// Case 2: x, y in 2..6, x + y at most 7.
pub const AT_MOST_7: [u8; 32] = *b"\x01\0\0\0\x1B\0\x02\0\0\0\x01\
    \0\x02\0\x06\0\x02\0\x06\
    \x01\x02\x02\x01\0\0\x01\0\x01\0\0\0\x07";

// Case 5: x, y in 0..3, x + y at most -2.
pub const IMPOSSIBLE: [u8; 32] = *b"\x01\0\0\0\x1B\0\x02\0\0\0\x01\
    \0\0\0\x03\0\0\0\x03\
    \x01\x02\x02\x01\0\0\x01\0\x01\xFF\xFF\xFF\xFE";

// Case 8: x in 0..3, x at most 1 or x at most 2.
pub const SINGLE_TERMS: [u8; 34] = *b"\x01\0\0\0\x1D\0\x01\0\0\0\x01\
    \0\0\0\x03\
    \x02\x02\x01\x01\0\0\0\0\0\x01\
    \x02\x01\x01\0\0\0\0\0\x02";

// Case 10: x, y, z in -4,096..4,095, 64x + 64y + 64z at most 0.
pub const WIDE_SUM: [u8; 39] = *b"\x01\0\0\0\x22\0\x03\0\0\0\x01\
    \xF0\0\x0F\xFF\xF0\0\x0F\xFF\xF0\0\x0F\xFF\
    \x01\x02\x03\x40\0\0\x40\0\x01\x40\0\x02\0\0\0\0";

// x, y, z in 0..1,700, 64x + 64y + 64z at most 0: few tuples in wide ranges.
pub const FEW_TUPLES: [u8; 39] = *b"\x01\0\0\0\x22\0\x03\0\0\0\x01\
    \0\0\x06\xA4\0\0\x06\xA4\0\0\x06\xA4\
    \x01\x02\x03\x40\0\0\x40\0\x01\x40\0\x02\0\0\0\0";

// Case 13: x, y in 0..2, x - y at most -1 or -x + y at most -1.
pub const EITHER_FIRST: [u8; 44] = *b"\x01\0\0\0\x27\0\x02\0\0\0\x01\
    \0\0\0\x02\0\0\0\x02\
    \x02\x02\x02\x01\0\0\xFF\0\x01\xFF\xFF\xFF\xFF\
    \x02\x02\xFF\0\0\x01\0\x01\xFF\xFF\xFF\xFF";

// x in 0..3 and a Boolean b, b or x at most 1.
pub const BOOLEAN_OR_EARLY: [u8; 28] = *b"\x01\0\0\0\x17\0\x01\0\x01\0\x01\
    \0\0\0\x03\
    \x02\0\0\x01\
    \x02\x01\x01\0\0\0\0\0\x01";

// Case 14: a model of case 13's board.
pub const MODEL: [u8; 10] = *b"\0\x01\x01\x01\0\0\x01\x01\x01\0";
