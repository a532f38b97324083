// The order variables of all integer variables, one variable after another.
ghost use Rattle.std.specs.Prelude.{◌≡◌, [], ◌≤◌, length};
ghost use Rattle.definitions.specs.Meaning.{assigned};
ghost use Rattle.laws.specs.Boards.{board_of};
ghost use Rattle.laws.specs.Written.{written};
ghost use Rattle.image.specs.Variables.{orders_from};

use crate::parts::put_orders;
use opening::record::Record;
use slots::variables::{bounds_of, width_of};

pub fn put_variables(opened: &Record, values: &[i32], model: &mut [u8]) -> usize
    requires { (length values.now ≡ length (board_of opened.now).bounds) × (length (orders_from (board_of opened.now) (assigned values.now []) 0) ≤ length model.old) }
    ensures { (result ≡ length (orders_from (board_of opened.now) (assigned values.now []) 0)) × (model.new ≡ written (orders_from (board_of opened.now) (assigned values.now []) 0) model.old) }
{
    let mut at = 0;
    for (x, value) in values.iter().enumerate() {
        let bounds = bounds_of(opened, x);
        let width = width_of(bounds) as usize;
        at += put_orders(*value, bounds.lower, width, &mut model[at..]);
    }
    at
}
