// Text in lent bytes: each function writes at the start of the buffer that it is lent, and answers how many bytes.
#![tactic(auto)]

pub mod lengths; // lengths.rt: how many digits a number has
pub mod lines; // lines.rt: words, and lines of a word and two numbers
pub mod numbers; // numbers.rt: digits, and the numbers of a clause list
