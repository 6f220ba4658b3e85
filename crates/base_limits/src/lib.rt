// The limits of the rules, each in one place.

#![tactic(auto)]

// The longest file, and the longest result, in bytes.
pub const LONGEST_FILE: usize = 16_777_216;

// The longest line without its end, in bytes.
pub const LONGEST_LINE: usize = 4096;

// The longest name or reference, and the longest text that the writer takes, in bytes.
pub const LONGEST_NAME: usize = 76;

// The largest sum of magnitudes, in minor units.
pub const MOST: u64 = 999_999_999_999_999_999;

// The most bytes that the program `summary` judges.
pub const MOST_INPUT: usize = 65_536;
