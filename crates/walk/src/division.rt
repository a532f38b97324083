// Division of a signed number by a signed divisor, rounded down and up.
ghost use Rattle.std.specs.Prelude.{◌≡◌, ◌≤◌, ◌<◌, pos, nat_abs, ◌<ℤ◌};
ghost use Rattle.definitions.specs.Tools.{floor, ceil};

fn floor_positive(b: i32, a: i32) -> i32
    requires { (pos 0 <ℤ a) × (nat_abs b ≤ 1000000) }
    ensures { result ≡ floor b a }
{
    // most coefficients are 1 or -1, and a machine's division is slow
    if a == 1 {
        return b;
    }
    if b < 0 {
        return -1 - (-1 - b) / a;
    }
    b / a
}

// Toward minus infinity.
pub fn floor_div(b: i32, a: i32) -> i32
    requires { (0 < nat_abs a) × (nat_abs a ≤ 64) × (nat_abs b ≤ 1000000) }
    ensures { result ≡ floor b a }
{
    if a < 0 {
        return floor_positive(-b, -a);
    }
    floor_positive(b, a)
}

// Toward plus infinity.
pub fn ceil_div(b: i32, a: i32) -> i32
    requires { (0 < nat_abs a) × (nat_abs a ≤ 64) × (nat_abs b ≤ 1000000) }
    ensures { result ≡ ceil b a }
{
    -floor_div(-b, a)
}
