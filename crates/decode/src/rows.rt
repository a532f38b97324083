// A row of a comparison's clauses, searched for the first that does not hold; they are counted on from `number`. A search gives the
// number of the clause after those that it has looked at, or, in place of it, of the first that does not hold.
ghost use Rattle.std.specs.Prelude.{◌≡◌, Some, ◌∷◌, [], map, false, ◌+◌, ◌<◌, length};
ghost use Rattle.definitions.specs.Tools.{All};
ghost use Rattle.laws.specs.Mentions.{InList};
ghost use Rattle.walk.specs.Comparisons.{FairComparison, Walking};
ghost use Rattle.walk.specs.Rows.{front_of, in_run, ReadyRun, row_clauses};
ghost use Rattle.decode.specs.Goes.{Sought};
ghost use Rattle.decode.specs.Truth.{true_tail};

use crate::truth::holds;
use walk::rows::{onward, row_at};
use walk::{Comparison, Row, Run, Walk};

fn pair_holds(model: &[u8], y: i32, z: i32) -> bool
    requires { All (InList (length model.now)) (y ∷ z ∷ []) × (length model.now < 2147483648) }
    ensures { result ≡ true_tail model.now (y ∷ z ∷ []) }
{
    holds(model, y) || holds(model, z)
}

// The clauses of a run whose front does not hold: the last two literals of each decide.
fn search_run(model: &[u8], run: Run, number: usize) -> Result<usize, usize>
    requires { ReadyRun run × (true_tail model.now (front_of run.front) ≡ false) × All (All (InList (length model.now))) (in_run run) × (length model.now < 2147483648) × (number + length (in_run run) < 9223372036854775808) }
    ensures { Sought number (map (true_tail model.now) (in_run run)) result }
{
    let end = number + run.count as usize;
    let mut rest = run;
    for at in number..end {
        let y = rest.y;
        let z = rest.z;
        if !pair_holds(model, y.literal, z.literal) {
            return Err(at);
        }
        rest = onward(rest);
    }
    Ok(end)
}

fn front_holds(model: &[u8], front: Option<i32>) -> bool
    requires { All (InList (length model.now)) (front_of front) × (length model.now < 2147483648) }
    ensures { result ≡ true_tail model.now (front_of front) }
{
    let Some(literal) = front else {
        return false;
    };
    holds(model, literal)
}

// The clauses of the present tuple's row. A front stays along it: where it holds, so do all.
pub fn search_row(
    model: &[u8],
    tails: Comparison,
    tuple: Walk,
    number: usize,
) -> Result<usize, usize>
    requires { FairComparison tails × Walking tails (Some tuple) × All (All (InList (length model.now))) (row_clauses tails tuple) × (length model.now < 2147483648) × (number + length (row_clauses tails tuple) < 9223372036854775808) }
    ensures { Sought number (map (true_tail model.now) (row_clauses tails tuple)) result }
{
    match row_at(tails, tuple) {
        Row::One(front) => {
            if front_holds(model, front) {
                Ok(number + 1)
            } else {
                Err(number)
            }
        }
        Row::Many(run) => {
            if front_holds(model, run.front) {
                Ok(number + run.count as usize)
            } else {
                search_run(model, run, number)
            }
        }
    }
}
