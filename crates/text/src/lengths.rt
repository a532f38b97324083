// How many digits a number has.
ghost use Rattle.std.specs.Prelude.{◌≡◌, ◌≤◌, ◌<◌, length};
ghost use Rattle.definitions.specs.Dimacs.{decimal};

// Of a number below 100,000.
fn few_digits(n: u64) -> usize
    requires { n < 100000 }
    ensures { result ≡ length (decimal n) }
{
    if n < 10 {
        return 1;
    }
    if n < 100 {
        return 2;
    }
    if n < 1000 {
        return 3;
    }
    if n < 10000 {
        return 4;
    }
    5
}

// Of a number from 10,000,000,000 on, which no clause list has.
fn many_digits(n: u64) -> usize
    requires { 10000000000 ≤ n }
    ensures { result ≡ length (decimal n) }
{
    if n < 100000000000 {
        return 11;
    }
    if n < 1000000000000 {
        return 12;
    }
    if n < 10000000000000 {
        return 13;
    }
    if n < 100000000000000 {
        return 14;
    }
    if n < 1000000000000000 {
        return 15;
    }
    if n < 10000000000000000 {
        return 16;
    }
    if n < 100000000000000000 {
        return 17;
    }
    if n < 1000000000000000000 {
        return 18;
    }
    if n < 10000000000000000000 {
        return 19;
    }
    20
}

pub fn digits(n: u64) -> usize
    ensures { result ≡ length (decimal n) }
{
    if n < 100000 {
        return few_digits(n);
    }
    if n < 1000000 {
        return 6;
    }
    if n < 10000000 {
        return 7;
    }
    if n < 100000000 {
        return 8;
    }
    if n < 1000000000 {
        return 9;
    }
    if n < 10000000000 {
        return 10;
    }
    many_digits(n)
}
