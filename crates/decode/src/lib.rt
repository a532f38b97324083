// Reading a model back (01, Decode): the search for a clause that does not hold, then the values and the Booleans.
#![tactic(auto)]

ghost use Rattle.std.specs.Prelude.{◌≡◌};
ghost use Rattle.definitions.specs.Encoding.{N};
ghost use Rattle.definitions.specs.Answers.{said_verdict};
ghost use Rattle.definitions.specs.Operations.{lending};
ghost use Rattle.laws.specs.Boards.{board_of};
ghost use Rattle.decode.specs.Given.{Given};
ghost use Rattle.decode.specs.Decoded.{model_checks, read_back};
ghost use Rattle.decode.specs.Outcome.{Allowed, Leaves};

use crate::search::search_clauses;
use crate::values::{write_booleans, write_values};
use definitions::Refusal;
use lent::first_bad_byte;
use measure::measure;
use opening::record::Record;

pub mod axioms; // axioms.rt: the search over the axioms
pub mod lines; // lines.rt: the clause of a record clause's Booleans and selectors
pub mod pieces; // pieces.rt: the clauses of a piece of the rules
pub mod rows; // rows.rt: a row of a comparison's clauses
pub mod search; // search.rt: the search over the rules
pub mod truth; // truth.rt: whether a literal holds in a model
pub mod values; // values.rt: what is read back

// Checks 12 and 13 of a model of the right length.
fn check_model(opened: &Record, model: &[u8]) -> Result<(), Refusal>
    requires { Given opened.now model.now }
    ensures { said_verdict result ≡ model_checks (board_of opened.now) model.now }
{
    if let Some(index) = first_bad_byte(model) {
        return Err(Refusal::ByteWrong { index });
    }
    if let Some(number) = search_clauses(opened, model) {
        return Err(Refusal::ClauseFails { number });
    }
    Ok(())
}

// What follows once the record is accepted and has n SAT variables: all checks come before anything is written.
fn read_back(
    opened: &Record,
    n: usize,
    model: &[u8],
    values: &mut [i32],
    booleans: &mut [u8],
) -> Result<(), Refusal>
    requires { n ≡ N (board_of opened.now) }
    ensures { Leaves (lending (values.old, booleans.old) (read_back (board_of opened.now) model.now values.old booleans.old)) result values.new booleans.new }
{
    if model.len() != n {
        return Err(Refusal::LentWrong { wanted: n });
    }
    let ints = opened.ints();
    if values.len() != ints {
        return Err(Refusal::LentWrong { wanted: ints });
    }
    let bools = opened.bools();
    if booleans.len() != bools {
        return Err(Refusal::LentWrong { wanted: bools });
    }
    check_model(opened, model)?;
    write_values(opened, model, values);
    write_booleans(model, booleans);
    Ok(())
}

// 01, Decode: a refusal leaves both lists as they were.
pub fn decode(
    bytes: &[u8],
    model: &[u8],
    values: &mut [i32],
    booleans: &mut [u8],
) -> Result<(), Refusal>
    ensures { Allowed bytes.now model.now values.old booleans.old result values.new booleans.new }
{
    let measured = measure(bytes)?;
    let opened = &Record::new(bytes, measured.header);
    read_back(opened, measured.sizes.n, model, values, booleans)
}
