// WriteText: an accepted record's text into lent bytes. The text is made clause by clause, and no clause list is lent: one pass over the
// record counts its bytes, and where there is room a second one, the same, writes them.
#![tactic(auto)]

ghost use Rattle.std.specs.Prelude.{◌≡◌, length};
ghost use Rattle.definitions.specs.Encoding.{clause_list};
ghost use Rattle.laws.specs.Boards.{board_of};
ghost use Rattle.measure.specs.Said.{totals_of};
ghost use Rattle.definitions.specs.TextOperations.{text_of};
ghost use Rattle.writing.specs.Adds.{Adds, Counts};
ghost use Rattle.write_text.specs.Outcome.{Allowed};

use crate::head::add_first_line;
use crate::pieces::add_pieces;
use compile::variables::put_variables;
use definitions::{Refusal, Sizes};
use measure::measure;
use opening::record::Record;
use slots::numbered::Numbered;
use writing::parts::{AsText, Part};

pub mod head; // head.rt: the first line
pub mod pieces; // pieces.rt: the clauses of the rules, piece by piece

// The axioms, the clauses of the rules.
fn add_clauses<P: Part>(opened: &Record, at: usize, part: &mut P) -> usize
    requires { P.room part.old at (clause_list (board_of opened.now)) }
    ensures { P.adds (clause_list (board_of opened.now)) at part.old result part.new }
{
    let rules = put_variables(opened, at, part);
    add_pieces(&Numbered::new(opened), rules, part)
}

// The first line, the clauses.
fn add_text(opened: &Record, sizes: Sizes, out: &mut [u8]) -> usize
    requires { (sizes ≡ totals_of (board_of opened.now)) × Counts 0 (text_of (board_of opened.now)) }
    ensures { Adds (text_of (board_of opened.now)) 0 out.old result out.new }
{
    let clauses = add_first_line(sizes.n as u64, sizes.m as u64, 0, out);
    let mut part = AsText { out };
    add_clauses(opened, clauses, &mut part)
}

// How many bytes the text has.
fn text_length(opened: &Record, sizes: Sizes) -> usize
    requires { (sizes ≡ totals_of (board_of opened.now)) × Counts 0 (text_of (board_of opened.now)) }
    ensures { result ≡ length (text_of (board_of opened.now)) }
{
    let mut nothing = [0u8; 0];
    add_text(opened, sizes, &mut nothing)
}

// Writes the text into the first bytes that are lent; a refusal leaves them as they were.
pub fn write_text(bytes: &[u8], out: &mut [u8]) -> Result<usize, Refusal>
    ensures { Allowed bytes.now out.old result out.new }
{
    let measured = measure(bytes)?;
    let opened = &Record::new(bytes, measured.header);
    let length = text_length(opened, measured.sizes);
    if out.len() < length {
        return Err(Refusal::ListTooShort { wanted: length });
    }
    Ok(add_text(opened, measured.sizes, out))
}
