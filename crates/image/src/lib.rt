// Image: the plain model of a solution.
#![tactic(auto)]

ghost use Rattle.std.specs.Prelude.{◌≡◌};
ghost use Rattle.definitions.specs.Encoding.{N};
ghost use Rattle.definitions.specs.Meaning.{assigned, plain_model};
ghost use Rattle.definitions.specs.Answers.{said_verdict};
ghost use Rattle.laws.specs.Boards.{Opens, board_of};
ghost use Rattle.image.specs.Checks.{imaging, Writable};
ghost use Rattle.image.specs.Outcome.{Allowed};

use crate::parts::put_booleans;
use crate::selectors::put_selectors;
use crate::variables::put_variables;
use definitions::{Refusal, Sizes};
use judge::checks::{lengths, solved};
use measure::measure;
use opening::record::Record;

pub mod parts; // parts.rt: the bytes of Booleans and of order variables
pub mod selectors; // selectors.rt: the bytes of the selectors
pub mod variables; // variables.rt: the order variables of all variables

// Refusal 11 for the values, the Booleans and the model, of which only its length is looked at; then 12, 14 and 13.
fn checked(
    opened: &Record,
    sizes: Sizes,
    values: &[i32],
    booleans: &[u8],
    lent: usize,
) -> Result<(), Refusal>
    requires { Opens opened.now × (sizes.n ≡ N (board_of opened.now)) }
    ensures { said_verdict result ≡ imaging (board_of opened.now) values.now booleans.now lent }
{
    lengths(opened, values, booleans)?;
    if lent != sizes.n {
        return Err(Refusal::LentWrong { wanted: sizes.n });
    }
    solved(opened, values, booleans)
}

// Booleans, order variables, selectors, each into the part of the model that follows the bytes already written.
fn put_model(opened: &Record, values: &[i32], booleans: &[u8], model: &mut [u8])
    requires { Writable opened.now values.now booleans.now model.old }
    ensures { model.new ≡ plain_model (board_of opened.now) (assigned values.now booleans.now) }
{
    let orders = put_booleans(booleans, model);
    let selectors = orders + put_variables(opened, values, &mut model[orders..]);
    put_selectors(opened, values, &mut model[selectors..]);
}

// Writes the whole model; a refusal leaves it as it was.
pub fn image(bytes: &[u8], values: &[i32], booleans: &[u8], model: &mut [u8]) -> Result<(), Refusal>
    ensures { Allowed bytes.now values.now booleans.now model.old result model.new }
{
    let measured = measure(bytes)?;
    let opened = &Record::new(bytes, measured.header);
    checked(opened, measured.sizes, values, booleans, model.len())?;
    put_model(opened, values, booleans, model);
    Ok(())
}
