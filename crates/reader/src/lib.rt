// From the bytes of the rules to literals and clauses, with refusals 4, 6, 7, 8 and 15 to 17. specs/Said.antt gives the definitions' result for each answer.
#![tactic(auto)]

pub mod faults; // faults.rt: 01's refusal for each fault
pub mod checks; // checks.rt: fields whose value has a range
pub mod comparisons; // comparisons.rt: terms and constant
pub mod clauses; // clauses.rt: literals and clauses
pub mod rereading; // rereading.rt: a literal of an accepted record, without checks

// What the record has said before.
#[derive(Clone, Copy)]
pub struct Context {
    pub version: u32,
    pub ints: u32,
    pub bools: u32,
}

// What a field is refused for: 4 to 8, and 15 to 17 for a term's variable, unknown or repeated, and a comparison's constant.
#[derive(Clone, Copy)]
pub enum Why {
    Count,
    Bound,
    Literal,
    Coefficient,
    End,
    Unknown,
    Repeated,
    Constant,
}

// Why, and the place of the field's first byte.
#[derive(Clone, Copy)]
pub struct Fault {
    pub why: Why,
    pub place: usize,
}

// A comparison is known by the place of its term count, and its constant.
#[derive(Clone, Copy)]
pub enum Literal {
    Boolean(u32),
    Negated(u32),
    Comparison { place: usize, constant: i32 },
}
