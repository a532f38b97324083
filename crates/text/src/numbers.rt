// Digits, and the numbers of a clause list.
ghost use Rattle.std.specs.Prelude.{◌≡◌, ◌≤◌, length};
ghost use Rattle.definitions.specs.Dimacs.{decimal, entry};
ghost use Rattle.text.specs.Puts.{Put};
ghost use Rattle.text.specs.Lines.{with_end};
ghost use Rattle.text.specs.Entries.{entries};

use crate::lengths::digits;

// The digits, from the last to the first.
pub fn put_decimal(n: u64, out: &mut [u8]) -> usize
    requires { length (decimal n) ≤ length out.old }
    ensures { Put (decimal n) out.old result out.new }
{
    let length = digits(n);
    let mut left = n;
    for at in (1..length).rev() {
        out[at] = b'0' + (left % 10) as u8;
        left /= 10;
    }
    out[0] = b'0' + left as u8;
    length
}

// A number and the byte that ends it.
pub fn put_ended(n: u64, end: u8, out: &mut [u8]) -> usize
    requires { length (with_end n end) ≤ length out.old }
    ensures { Put (with_end n end) out.old result out.new }
{
    let at = put_decimal(n, out);
    out[at] = end;
    at + 1
}

// A number of the clause list: 0 ends a line, any other number is a literal and parted from the next.
pub fn put_entry(number: i32, out: &mut [u8]) -> usize
    requires { length (entry number) ≤ length out.old }
    ensures { Put (entry number) out.old result out.new }
{
    if number > 0 {
        return put_ended(number.unsigned_abs() as u64, b' ', out);
    }
    if number < 0 {
        out[0] = b'-';
        return 1 + put_ended(number.unsigned_abs() as u64, b' ', &mut out[1..]);
    }
    put_ended(0, b'\n', out)
}

pub fn put_entries(list: &[i32], out: &mut [u8]) -> usize
    requires { length (entries list.now) ≤ length out.old }
    ensures { Put (entries list.now) out.old result out.new }
{
    let mut at: usize = 0;
    for number in list {
        at += put_entry(*number, &mut out[at..]);
    }
    at
}
