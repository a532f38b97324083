// Whether a literal, by its number, holds in a model.
ghost use Rattle.std.specs.Prelude.{◌≡◌, ◌≤◌, ◌<◌, length, nat_abs};
ghost use Rattle.decode.specs.Truth.{true_number};

use lent::is_on;

pub fn holds(model: &[u8], literal: i32) -> bool
    requires { (1 ≤ nat_abs literal) × (nat_abs literal ≤ length model.now) × (length model.now < 2147483648) }
    ensures { result ≡ true_number model.now literal }
{
    let number = literal.unsigned_abs() as usize;
    if literal < 0 {
        !is_on(model, number)
    } else {
        is_on(model, number)
    }
}
