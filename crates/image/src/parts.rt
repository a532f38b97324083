// The plain model's bytes: of the Boolean variables, and of an integer variable's order variables.
ghost use Rattle.std.specs.Prelude.{◌≡◌, ◌≤◌, nat_abs, length};
ghost use Rattle.laws.specs.Written.{written};
ghost use Rattle.image.specs.Parts.{boolean_bytes, order_from};

pub fn put_booleans(booleans: &[u8], model: &mut [u8]) -> usize
    requires { length booleans.now ≤ length model.old }
    ensures { (result ≡ length booleans.now) × (model.new ≡ written (boolean_bytes booleans.now) model.old) }
{
    for (i, boolean) in booleans.iter().enumerate() {
        model[i] = u8::from(*boolean == 1);
    }
    booleans.len()
}

// For so many c from lower - 1 on, whether the value is at most c.
pub fn put_orders(value: i32, lower: i32, width: usize, model: &mut [u8]) -> usize
    requires { (nat_abs lower ≤ 4096) × (width ≤ 8193) × (width ≤ length model.old) }
    ensures { (result ≡ width) × (model.new ≡ written (order_from value lower width) model.old) }
{
    let first = lower - 1;
    for i in 0..width {
        model[i] = u8::from(value <= first + i as i32);
    }
    width
}
