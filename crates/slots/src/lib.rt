// What later passes read, plainly and without checks, from a record that was accepted before.
#![tactic(auto)]

// The bounds of an integer variable.
#[derive(Clone, Copy)]
pub struct Bounds {
    pub lower: i32,
    pub upper: i32,
}

#[derive(Clone, Copy)]
pub struct Term {
    pub coefficient: i32,
    pub variable: usize,
}

// A comparison's terms are the first n.
#[derive(Clone, Copy)]
pub struct Terms {
    pub n: usize,
    pub terms: [Term; 3],
}

// The length of a table of first numbers: one for each of 1,024 variables, and the first selector's.
pub const FIRSTS: usize = 1025;

pub mod comparisons; // comparisons.rt: a comparison's terms, and the comparison made ready to walk
pub mod variables; // variables.rt: bounds, widths, first numbers
pub mod numbered; // numbered.rt: a record with the first number of each of its variables
