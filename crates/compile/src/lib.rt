// Compile: the clause list of a record, number for number.
#![tactic(auto)]

ghost use Rattle.std.specs.Prelude.{◌≡◌, ◌≤◌, length};
ghost use Rattle.definitions.specs.Encoding.{clause_list};
ghost use Rattle.laws.specs.Boards.{board_of};
ghost use Rattle.laws.specs.Written.{written};
ghost use Rattle.compile.specs.Lists.{axioms_from};
ghost use Rattle.compile.specs.Outcome.{Allowed};

use crate::pieces::put_pieces;
use crate::variables::put_variables;
use definitions::{Refusal, Sizes};
use measure::measure;
use opening::record::Record;
use slots::numbered::Numbered;
use writing::parts::AsNumbers;

pub mod pieces; // pieces.rt: the clauses of the rules, piece by piece
pub mod variables; // variables.rt: the axioms of all variables

// The axioms, at the list's start.
fn put_axioms(opened: &Record, list: &mut [i32]) -> usize
    requires { length (axioms_from (board_of opened.now) 0) ≤ length list.old }
    ensures { (result ≡ length (axioms_from (board_of opened.now) 0)) × (list.new ≡ written (axioms_from (board_of opened.now) 0) list.old) }
{
    let mut part = AsNumbers { list };
    put_variables(opened, 0, &mut part)
}

// The axioms, and then, in the rest of the list, the clauses of the rules.
fn put_list(opened: &Record, list: &mut [i32]) -> usize
    requires { length (clause_list (board_of opened.now)) ≤ length list.old }
    ensures { (result ≡ length (clause_list (board_of opened.now))) × (list.new ≡ written (clause_list (board_of opened.now)) list.old) }
{
    let at = put_axioms(opened, list);
    at + put_pieces(&Numbered::new(opened), &mut list[at..])
}

// Writes the first K places of the list; a refusal leaves it as it was.
pub fn compile(bytes: &[u8], list: &mut [i32]) -> Result<Sizes, Refusal>
    ensures { Allowed bytes.now list.old result list.new }
{
    let measured = measure(bytes)?;
    let sizes = measured.sizes;
    if list.len() < sizes.k {
        return Err(Refusal::ListTooShort { wanted: sizes.k });
    }
    let opened = &Record::new(bytes, measured.header);
    let k = put_list(opened, list);
    Ok(Sizes {
        n: sizes.n,
        m: sizes.m,
        k,
    })
}
