// A row of a comparison's clauses: the literals of all terms but the last two stay, and those of the last two are stepped.
ghost use Rattle.std.specs.Prelude.{◌+◌, ◌<◌, ◌∷◌, [], ◌++◌};
ghost use Rattle.walk.specs.Rows.{front_of, in_run, ReadyRun, in_row, Ready};
ghost use Rattle.writing.specs.Numbers.{clause, led, stays};

use crate::parts::Part;
use walk::rows::onward;
use walk::{Row, Run};

fn put_front<P: Part>(front: Option<i32>, at: usize, part: &mut P) -> usize
    requires { P.room part.old at (front_of front) }
    ensures { P.adds (front_of front) at part.old result part.new }
{
    let Some(literal) = front else {
        return at;
    };
    part.add(literal, at)
}

// The last two terms' literals and 0.
pub fn put_pair<P: Part>(y: i32, z: i32, at: usize, part: &mut P) -> usize
    requires { P.room part.old at (clause (y ∷ z ∷ [])) }
    ensures { P.adds (clause (y ∷ z ∷ [])) at part.old result part.new }
{
    let second = part.add(y, at);
    let end = part.add(z, second);
    part.add(0, end)
}

fn put_fixed<P: Part>(lead: Option<i32>, front: Option<i32>, at: usize, part: &mut P) -> usize
    requires { P.room part.old at (stays lead front) }
    ensures { P.adds (stays lead front) at part.old result part.new }
{
    let place = put_front(lead, at, part);
    put_front(front, place, part)
}

fn put_clause<P: Part>(
    lead: Option<i32>,
    front: Option<i32>,
    y: i32,
    z: i32,
    at: usize,
    part: &mut P,
) -> usize
    requires { P.room part.old at (clause (stays lead front ++ (y ∷ z ∷ []))) }
    ensures { P.adds (clause (stays lead front ++ (y ∷ z ∷ []))) at part.old result part.new }
{
    let place = put_fixed(lead, front, at, part);
    put_pair(y, z, place, part)
}

// One clause, of fewer than two terms.
#[tactic(auto, unfolding(crate::specs::Numbers::clause))]
pub fn put_short<P: Part>(lead: Option<i32>, front: Option<i32>, at: usize, part: &mut P) -> usize
    requires { P.room part.old at (clause (stays lead front)) }
    ensures { P.adds (clause (stays lead front)) at part.old result part.new }
{
    let place = put_fixed(lead, front, at, part);
    part.add(0, place)
}

fn put_stepped<P: Part>(lead: Option<i32>, run: Run, at: usize, part: &mut P) -> usize
    requires { ReadyRun run × P.room part.old at (led lead (in_run run)) }
    ensures { P.adds (led lead (in_run run)) at part.old result part.new }
{
    let mut place = at;
    let mut rest = run;
    let mut here = part.taken();
    while 0 < rest.count {
        let front = rest.front;
        let y = rest.y;
        let z = rest.z;
        place = put_clause(lead, front, y.literal, z.literal, place, &mut here);
        rest = onward(rest);
    }
    *part = here;
    place
}

// Where both coefficients are 1 or -1, one literal rises with each clause, the other falls.
fn put_units<P: Part>(lead: Option<i32>, run: Run, at: usize, part: &mut P) -> usize
    requires { ReadyRun run × (run.y.d + run.z.d < 3) × P.room part.old at (led lead (in_run run)) }
    ensures { P.adds (led lead (in_run run)) at part.old result part.new }
{
    let front = run.front;
    let y = run.y;
    let z = run.z;
    let mut place = at;
    let mut left = run.count;
    let mut p = y.literal;
    let mut q = z.literal;
    let mut here = part.taken();
    while 0 < left {
        place = put_clause(lead, front, p, q, place, &mut here);
        p += 1;
        q -= 1;
        left -= 1;
    }
    *part = here;
    place
}

// The row's clauses, each under the lead.
#[tactic(auto, using(crate::proofs::Leads::led_alone), unfolding(crate::specs::Numbers::clause))]
pub fn put_row<P: Part>(lead: Option<i32>, row: Row, at: usize, part: &mut P) -> usize
    requires { Ready row × P.room part.old at (led lead (in_row row)) }
    ensures { P.adds (led lead (in_row row)) at part.old result part.new }
{
    match row {
        Row::One(front) => put_short(lead, front, at, part),
        Row::Many(run) => {
            let y = run.y;
            let z = run.z;
            if y.d + z.d < 3 {
                put_units(lead, run, at, part)
            } else {
                put_stepped(lead, run, at, part)
            }
        }
    }
}
