// The search over the rules: it stops at the first clause none of whose literals holds.
ghost use Rattle.std.specs.Prelude.{◌≡◌, ◌+◌, ◌<◌, length};
ghost use Rattle.definitions.specs.Result.{each};
ghost use Rattle.definitions.specs.Encoding.{clauses};
ghost use Rattle.laws.specs.Boards.{board_of};
ghost use Rattle.lent.specs.Said.{said_found};
ghost use Rattle.decode.specs.Given.{Given};
ghost use Rattle.decode.specs.Truth.{tests};
ghost use Rattle.decode.specs.Sums.{Told, ValuesIn};
ghost use Rattle.decode.specs.Passes.{rule_tests};

use crate::axioms::search_axioms;
use crate::pieces::{passed, piece_holds, tails_of, walked};
use crate::rows::search_row;
use crate::values::write_values;
use opening::record::Record;
use rules::{next_piece, start};
use slots::numbered::Numbered;
use walk::rows::after_row;

// The most integer variables that a record has.
const VALUES: usize = 1024;

// The clauses of the rules, which are counted from `from` on: piece by piece, and in a piece that is not known to hold its tuples,
// row by row, a walk that 01 has left by its label. The axioms hold, and `values` are what they tell.
#[inline(never)]
fn search_rules(numbered: &Numbered, values: &[i32], model: &[u8], from: usize) -> Option<usize>
    requires { Given numbered.now model.now × Told (board_of numbered.now) model.now × ValuesIn (board_of numbered.now) model.now values.now × (from + length (rule_tests (board_of numbered.now) model.now) < 9223372036854775808) }
    ensures { said_found 13 result ≡ each 13 from (rule_tests (board_of numbered.now) model.now) }
{
    let opened = numbered.record();
    let rules = opened.rules();
    let mut number = from;
    let mut cursor = start(opened.clauses());
    'search: loop {
        let Some((piece, behind)) = next_piece(rules, cursor) else {
            break 'search None;
        };
        let held = piece_holds(numbered, values, rules, model, piece);
        let tails = tails_of(numbered, rules, piece);
        number += passed(held, tails);
        let mut here = walked(held, tails);
        while let Some(tuple) = here {
            let onward = after_row(tails, tuple);
            match search_row(model, tails, tuple, number) {
                Err(failing) => break 'search Some(failing),
                Ok(after) => number = after,
            }
            here = onward;
        }
        cursor = behind;
    }
}

// The first of all clauses that does not hold: the axioms come first, then the rules.
pub fn search_clauses(opened: &Record, model: &[u8]) -> Option<usize>
    requires { Given opened.now model.now }
    ensures { said_found 13 result ≡ each 13 0 (tests (board_of opened.now) model.now (clauses (board_of opened.now))) }
{
    match search_axioms(opened, model) {
        Err(failing) => Some(failing),
        Ok(number) => {
            let mut values = [0i32; VALUES];
            write_values(opened, model, &mut values);
            search_rules(&Numbered::new(opened), &values, model, number)
        }
    }
}
