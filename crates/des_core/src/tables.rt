//! The tables of FIPS 46-3 by which round keys are made, a line for each line of the standard's print.
//!
//! A permutation table gives, for each bit of its result in order, the place of the bit that it takes. Places count from
//! 1, the most significant bit. Behind each line stand the bits of the result that it gives.
//!
//! Each table is compared with the printed one of the definition, entry by entry and by computation, in the contract of
//! `laws::tables_are_those_of_the_standard`: a wrong entry here or there is refused.

/// PC-1, permuted choice 1: bits 1 to 28 are the half C, bits 29 to 56 the half D.
pub const PERMUTED_CHOICE_1: [u8; 56] = [
    57, 49, 41, 33, 25, 17, 9, // bits 1 to 7
    1, 58, 50, 42, 34, 26, 18, // bits 8 to 14
    10, 2, 59, 51, 43, 35, 27, // bits 15 to 21
    19, 11, 3, 60, 52, 44, 36, // bits 22 to 28
    63, 55, 47, 39, 31, 23, 15, // bits 29 to 35
    7, 62, 54, 46, 38, 30, 22, // bits 36 to 42
    14, 6, 61, 53, 45, 37, 29, // bits 43 to 49
    21, 13, 5, 28, 20, 12, 4, // bits 50 to 56
];

/// PC-2, permuted choice 2.
pub const PERMUTED_CHOICE_2: [u8; 48] = [
    14, 17, 11, 24, 1, 5, // bits 1 to 6
    3, 28, 15, 6, 21, 10, // bits 7 to 12
    23, 19, 12, 4, 26, 8, // bits 13 to 18
    16, 7, 27, 20, 13, 2, // bits 19 to 24
    41, 52, 31, 37, 47, 55, // bits 25 to 30
    30, 40, 51, 45, 33, 48, // bits 31 to 36
    44, 49, 39, 56, 34, 53, // bits 37 to 42
    46, 42, 50, 36, 29, 32, // bits 43 to 48
];

/// The number of left shifts in each of the sixteen iterations.
pub const LEFT_SHIFTS: [u8; 16] = [1, 1, 2, 2, 2, 2, 2, 2, 1, 2, 2, 2, 2, 2, 2, 1];
