// What all operations begin with: the record's refusals, or its header and sizes. They are counted; no tuple is walked.
#![tactic(auto)]

ghost use Rattle.measure.specs.Outcome.{Allowed};

use crate::sums::totals_of;
use definitions::{Refusal, Sizes};
use opening::record::Record;
use opening::{Header, open};

pub mod count; // count.rt: how many tuples a comparison has, by formula
pub mod pieces; // pieces.rt: what a piece of the rules adds
pub mod sums; // sums.rt: the pieces and the variables together

// What a piece of the rules adds, or several: clauses, places in the list, selectors.
#[derive(Clone, Copy)]
pub struct Share {
    pub clauses: u64,
    pub places: u64,
    pub selectors: u64,
}

// Clauses, and their places in the list.
#[derive(Clone, Copy)]
pub struct Part {
    pub clauses: usize,
    pub places: usize,
}

// The sizes by kind: SAT variables that are Booleans, order variables and selectors; the axioms and the rules.
#[derive(Clone, Copy)]
pub struct Kinds {
    pub booleans: usize,
    pub orders: usize,
    pub selectors: usize,
    pub axioms: Part,
    pub rules: Part,
}

// The header of an accepted record, and its sizes.
#[derive(Clone, Copy)]
pub struct Measured {
    pub header: Header,
    pub sizes: Sizes,
}

// The longest list that is not refused.
const LONGEST: usize = 2000000000;

// A refusal of the record, or its header and sizes.
pub fn measure(bytes: &[u8]) -> Result<Measured, Refusal>
    ensures { Allowed bytes.now result }
{
    let header = open(bytes)?;
    let sizes = totals_of(&Record::new(bytes, header));
    if LONGEST < sizes.k {
        return Err(Refusal::ListTooLong);
    }
    Ok(Measured { header, sizes })
}
