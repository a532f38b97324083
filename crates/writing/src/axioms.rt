// The axioms of an integer variable, from its first number and how many order variables it has.
ghost use Rattle.std.specs.Prelude.{◌+◌, ◌<◌};
ghost use Rattle.laws.specs.Limits.{numbers_limit};
ghost use Rattle.writing.specs.Axioms.{steps_from, axiom_numbers};

use crate::parts::Part;
use crate::rows::put_short;

// From each order variable to the next: if x is at most c - 1, it is at most c.
fn put_steps<P: Part>(first: u32, steps: u32, at: usize, part: &mut P) -> usize
    requires { (first + steps < numbers_limit) × P.room part.old at (steps_from first steps) }
    ensures { P.adds (steps_from first steps) at part.old result part.new }
{
    let mut place = at;
    let mut here = part.taken();
    for i in 0..steps {
        place = here.add_step(first + i, place);
    }
    *part = here;
    place
}

// Not p(x, lower - 1); p(x, upper); then the steps between.
pub fn put_axioms<P: Part>(first: u32, width: u32, at: usize, part: &mut P) -> usize
    requires { (0 < width) × (first + width < numbers_limit) × P.room part.old at (axiom_numbers first width) }
    ensures { P.adds (axiom_numbers first width) at part.old result part.new }
{
    let steps = width - 1;
    let upper = put_short(Some(-(first as i32)), None, at, part);
    let between = put_short(Some((first + steps) as i32), None, upper, part);
    put_steps(first, steps, between, part)
}
