// The search over the axioms, by the numbers of the order variables.
ghost use Rattle.std.specs.Prelude.{◌≡◌, ◌+◌, ◌≤◌, ◌<◌, length};
ghost use mathlib.Core.List.{flatten};
ghost use Rattle.definitions.specs.Encoding.{axioms};
ghost use Rattle.laws.specs.Boards.{board_of};
ghost use Rattle.decode.specs.Given.{Given};
ghost use Rattle.decode.specs.Goes.{Sought};
ghost use Rattle.decode.specs.Axioms.{rises, axiom_test};
ghost use Rattle.decode.specs.Truth.{tests};

use lent::is_on;
use opening::record::Record;
use slots::variables::{bounds_of, width_of};

// Of the order variables v and v + 1, the first is not true or the second is.
fn holds_from(model: &[u8], v: usize) -> bool
    requires { (1 ≤ v) × (v < length model.now) }
    ensures { result ≡ rises model.now v }
{
    !is_on(model, v) || is_on(model, v + 1)
}

// The axiom k, counted from 0, of a variable that has `width` order variables, the first of them `first`.
fn axiom_holds(model: &[u8], first: usize, width: usize, k: usize) -> bool
    requires { (1 ≤ first) × (2 ≤ width) × (first + width ≤ length model.now + 1) × (length model.now < 2147483648) × (k ≤ width) }
    ensures { result ≡ axiom_test model.now first width k }
{
    match k {
        0 => !is_on(model, first),
        1 => is_on(model, first + width - 1),
        _ => holds_from(model, first + k - 2),
    }
}

// Variable by variable, and for each variable axiom by axiom, a walk that 01 has left by its label: the number of the clause after
// the axioms, or, in place of it, of the first that does not hold.
pub fn search_axioms(opened: &Record, model: &[u8]) -> Result<usize, usize>
    requires { Given opened.now model.now }
    ensures { Sought 0 (tests (board_of opened.now) model.now (flatten (axioms (board_of opened.now)))) result }
{
    let ints = opened.ints();
    let mut x = 0;
    let mut first = opened.bools() + 1;
    let mut number = 0;
    'search: loop {
        if ints <= x {
            break 'search Ok(number);
        }
        let width = width_of(bounds_of(opened, x)) as usize;
        for k in 0..width + 1 {
            if !axiom_holds(model, first, width, k) {
                break 'search Err(number);
            }
            number += 1;
        }
        x += 1;
        first += width;
    }
}
