// The clauses of a piece of the rules: each is the piece's lead and, behind it, the literals of a tuple.
ghost use Rattle.std.specs.Prelude.{◌≡◌, length, pos, ◌≤ℤ◌};
ghost use Rattle.laws.specs.Boards.{board_of};
ghost use Rattle.laws.specs.Reread.{comparison_at, context_of, Stands};
ghost use Rattle.laws.specs.Mentions.{Sound};
ghost use Rattle.rules.specs.Cursors.{said_piece, Held};
ghost use Rattle.walk.specs.Comparisons.{FairComparison, Walking, over_least, to_come};
ghost use Rattle.decode.specs.Given.{Given};
ghost use Rattle.decode.specs.Truth.{true_clause};
ghost use Rattle.decode.specs.Sums.{Told, ValuesIn, Shown};
ghost use Rattle.decode.specs.Tails.{lead_of, passed_by, walked_by, Tails, Single, TailsOf};

use crate::lines::line_holds;
use judge::literals::compares;
use lent::is_on;
use measure::count::tuples_of;
use rules::Piece;
use slots::numbered::Numbered;
use walk::tuples::{first_tuple, least};
use walk::{Comparison, Slot, Walk};

// Whether the piece's lead holds: of a line, some literal; of a comparison, its negated selector.
fn lead_holds(numbered: &Numbered, rules: &[u8], model: &[u8], piece: Piece) -> bool
    requires { Given numbered.now model.now × Held (context_of (board_of numbered.now)) rules.now piece × Sound (board_of numbered.now) (said_piece rules.now piece) }
    ensures { result ≡ true_clause (board_of numbered.now) model.now (lead_of (said_piece rules.now piece)) }
{
    match piece {
        Piece::Line {
            place,
            literals,
            selector,
        } => line_holds(numbered, rules, model, literals, place, selector),
        Piece::Lone { .. } => false,
        Piece::Led { selector, .. } => {
            let first = numbered.selectors() as usize;
            !is_on(model, first + selector)
        }
    }
}

// Whether all clauses of the piece hold, told without a look at them: its lead holds, or its comparison does at the values that the
// model stands for (000, Proposition 1).
pub fn piece_holds(
    numbered: &Numbered,
    values: &[i32],
    rules: &[u8],
    model: &[u8],
    piece: Piece,
) -> bool
    requires { Given numbered.now model.now × Told (board_of numbered.now) model.now × ValuesIn (board_of numbered.now) model.now values.now × Held (context_of (board_of numbered.now)) rules.now piece × Sound (board_of numbered.now) (said_piece rules.now piece) }
    ensures { Shown (board_of numbered.now) model.now (said_piece rules.now piece) result }
{
    if lead_holds(numbered, rules, model, piece) {
        return true;
    }
    match piece {
        Piece::Line { .. } => false,
        // no joined arm: the proof of one that binds a signed number does not close
        Piece::Lone { place, constant } => compares(rules, values, place, constant),
        Piece::Led {
            place,
            constant,
            ..
        } => compares(rules, values, place, constant),
    }
}

// A comparison of no terms that has one tuple, without literals: the sum asked for, constant - n + 1, is 0, that of no bounds.
fn single() -> Comparison
    ensures { Single result }
{
    Comparison {
        n: 0,
        slots: [Slot {
            coefficient: 0,
            lower: 0,
            upper: 0,
            first: 0,
        }; 3],
        constant: -1,
    }
}

// The comparison at a place, or a single clause where its constant is below the least sum.
fn tails_at(numbered: &Numbered, rules: &[u8], place: usize, constant: i32) -> Comparison
    requires { Stands (length (board_of numbered.now).bounds) rules.now place constant }
    ensures { TailsOf (board_of numbered.now) (comparison_at rules.now place constant) result }
{
    let c = numbered.ready(rules, place, constant);
    if constant < least(c) {
        return single();
    }
    c
}

// What is walked for the clauses of a piece: each tuple gives what stands behind the lead.
pub fn tails_of(numbered: &Numbered, rules: &[u8], piece: Piece) -> Comparison
    requires { Held (context_of (board_of numbered.now)) rules.now piece }
    ensures { Tails (board_of numbered.now) (said_piece rules.now piece) result }
{
    match piece {
        Piece::Line { .. } => single(),
        // no joined arm here either
        Piece::Lone { place, constant } => tails_at(numbered, rules, place, constant),
        Piece::Led {
            place,
            constant,
            ..
        } => tails_at(numbered, rules, place, constant),
    }
}

// How many of a piece's clauses need no look: all where they are known to hold, else none.
pub fn passed(held: bool, tails: Comparison) -> usize
    requires { FairComparison tails × (pos 0 ≤ℤ over_least tails) }
    ensures { result ≡ passed_by held tails }
{
    if held {
        return tuples_of(tails) as usize;
    }
    0
}

// Where the walk over the piece's tuples begins: where they are known to hold, at its end.
pub fn walked(held: bool, tails: Comparison) -> Option<Walk>
    requires { FairComparison tails }
    ensures { Walking tails result × (to_come tails result ≡ walked_by held tails) }
{
    if held {
        return None;
    }
    first_tuple(tails)
}
