// What is read back from a model: the integer values and the Booleans.
ghost use Rattle.std.specs.Prelude.{◌≡◌, ◌+◌, ◌≤◌, ◌<◌, length, take};
ghost use Rattle.definitions.specs.Meaning.{values_of};
ghost use Rattle.laws.specs.Boards.{board_of};
ghost use Rattle.laws.specs.Written.{written};
ghost use Rattle.laws.specs.Admitted.{GoodBounds};
ghost use Rattle.slots.specs.Variables.{bounds_read};
ghost use Rattle.definitions.specs.Encoding.{width};
ghost use Rattle.decode.specs.Given.{Given};
ghost use Rattle.decode.specs.Values.{value_from};

use lent::is_on;
use opening::record::Record;
use slots::Bounds;
use slots::variables::{bounds_of, width_of};

// The least value whose order variable is true; the first order variable, of lower - 1, has the number `first`.
fn value_of(model: &[u8], first: usize, bounds: Bounds) -> i32
    requires { GoodBounds (bounds_read bounds) × (1 ≤ first) × (first + width (bounds_read bounds) ≤ length model.now + 1) × (length model.now < 2147483648) }
    ensures { result ≡ value_from model.now first (bounds_read bounds) }
{
    let width = width_of(bounds) as usize;
    for k in 0..width - 2 {
        if is_on(model, first + 1 + k) {
            return bounds.lower + k as i32;
        }
    }
    // no other is true, so upper's own need not be looked at
    bounds.upper
}

// The value of each variable in turn, over the start of a list.
pub fn write_values(opened: &Record, model: &[u8], values: &mut [i32])
    requires { Given opened.now model.now × (length (board_of opened.now).bounds ≤ length values.old) }
    ensures { values.new ≡ written (values_of (board_of opened.now) model.now) values.old }
{
    let mut first = opened.bools() + 1;
    for x in 0..opened.ints() {
        let bounds = bounds_of(opened, x);
        values[x] = value_of(model, first, bounds);
        first += width_of(bounds) as usize;
    }
}

// The Booleans are the first bytes of the model.
pub fn write_booleans(model: &[u8], booleans: &mut [u8])
    requires { length booleans.old ≤ length model.now }
    ensures { booleans.new ≡ take (length booleans.old) model.now }
{
    for i in 0..booleans.len() {
        booleans[i] = model[i];
    }
}
