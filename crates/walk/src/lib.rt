// A comparison's tuples one after another, and the literal of each term at the present one.
#![tactic(auto)]

// A term: its coefficient, its variable's bounds and the number of p(x, lower - 1).
#[derive(Clone, Copy)]
pub struct Slot {
    pub coefficient: i32,
    pub lower: i32,
    pub upper: i32,
    pub first: u32,
}

// The sum of the first n slots is at most the constant.
#[derive(Clone, Copy)]
pub struct Comparison {
    pub n: usize,
    pub slots: [Slot; 3],
    pub constant: i32,
}

// The least and the greatest bound of a term.
#[derive(Clone, Copy)]
pub struct Range {
    pub lo: i32,
    pub hi: i32,
}

// A bound as its offset k from the least bound lo; the largest offset is w.
#[derive(Clone, Copy)]
pub struct Place {
    pub lo: i32,
    pub k: u32,
    pub w: u32,
}

// A tuple of three bounds. The places of terms that a comparison lacks stand in front.
#[derive(Clone, Copy)]
pub struct Walk {
    pub a: Place,
    pub b: Place,
    pub c: Place,
}

// A term's literal at an offset, and how far it is from there to the next multiple of d, the coefficient's magnitude: behind that
// offset the literal rises by 1.
#[derive(Clone, Copy)]
pub struct Spot {
    pub d: u32,
    pub r: u32,
    pub literal: i32,
}

// Clauses that differ in the literals of the last two terms alone: so many, from these two literals on. In front of them stands a
// literal or none.
#[derive(Clone, Copy)]
pub struct Run {
    pub front: Option<i32>,
    pub y: Spot,
    pub z: Spot,
    pub count: u32,
}

// The clauses of a row: one clause of one literal or none where there are fewer than two terms, else a run.
#[derive(Clone, Copy)]
pub enum Row {
    One(Option<i32>),
    Many(Run),
}

pub mod division; // division.rt: signed division, rounded down and up
pub mod rows; // rows.rt: tuples that differ in the last two places alone
pub mod terms; // terms.rt: a term's bounds, and its literal at each
pub mod tuples; // tuples.rt: the first tuple, the next, their literals
