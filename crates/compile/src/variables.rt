// The axioms of all integer variables, one after another.
ghost use Rattle.laws.specs.Boards.{board_of};
ghost use Rattle.compile.specs.Lists.{axioms_from};

use opening::record::Record;
use slots::variables::{bounds_of, width_of};
use writing::axioms::put_axioms;
use writing::parts::Part;

pub fn put_variables<P: Part>(opened: &Record, at: usize, part: &mut P) -> usize
    requires { P.room part.old at (axioms_from (board_of opened.now) 0) }
    ensures { P.adds (axioms_from (board_of opened.now) 0) at part.old result part.new }
{
    let ints = opened.ints();
    let mut first = opened.bools() as u32 + 1;
    let mut place = at;
    for x in 0..ints {
        let width = width_of(bounds_of(opened, x));
        place = put_axioms(first, width, place, part);
        first += width;
    }
    place
}
