// The first line of the text: "p cnf", how many variables, how many clauses.
ghost use Rattle.std.specs.Prelude.{◌≤◌, length, take};
ghost use Rattle.definitions.specs.Dimacs.{ascii};
ghost use Rattle.text.specs.Lines.{line};
ghost use Rattle.writing.specs.Adds.{Adds, Counts};

use text::lines::{put_text_line, put_word};

// A word of six bytes, and two numbers of at most 20 digits, each with its end.
const LONGEST: usize = 48;

// The first n of some bytes.
fn add_bytes(bytes: &[u8], n: usize, at: usize, out: &mut [u8]) -> usize
    requires { (n ≤ length bytes.now) × Counts at (take n bytes.now) }
    ensures { Adds (take n bytes.now) at out.old result out.new }
{
    let next = at + n;
    if out.len() < next {
        return next;
    }
    at + put_word(&bytes[..n], &mut out[at..])
}

pub fn add_first_line(n: u64, m: u64, at: usize, out: &mut [u8]) -> usize
    requires { Counts at (line (ascii "p cnf ") n m) }
    ensures { Adds (line (ascii "p cnf ") n m) at out.old result out.new }
{
    let mut bytes = [0u8; LONGEST];
    let k = put_text_line(b"p cnf ", n, m, &mut bytes);
    add_bytes(&bytes, k, at, out)
}
