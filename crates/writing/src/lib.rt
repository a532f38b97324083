// Writers of clauses: each adds its numbers at a place of what it is lent, a list or bytes of text, and answers the place behind.
#![tactic(auto)]

pub mod axioms; // axioms.rt: a variable's axioms
pub mod comparisons; // comparisons.rt: a comparison's clauses
pub mod lines; // lines.rt: the line of a clause's Boolean literals and selectors
pub mod parts; // parts.rt: what the numbers are added to
pub mod rows; // rows.rt: a row of a comparison's clauses
