// The least variable that does not stand in a reply exactly once, sought by windows of marks.
ghost use Rattle.std.specs.Prelude.{◌≡◌, ◌+◌, ◌-◌, ◌≤◌, length};
ghost use Rattle.lent.specs.Said.{said_found};
ghost use Rattle.replies.specs.Parts.{literals_from, HasModel};
ghost use Rattle.replies.specs.Marks.{Cleared, changed, raised, marks_of, ones_from, once_from, sought_from};

use super::Listed;
use super::literals::Literals;

// Marks are of the variables from `first` on, and go no higher than 2.
fn mark(marks: &mut [u8], first: usize, variable: usize)
    ensures { marks.new ≡ changed raised first variable marks.old }
{
    if variable < first {
        return;
    }
    let at = variable - first;
    if marks.len() <= at {
        return;
    }
    let often = marks[at];
    if 2 <= often {
        return;
    }
    marks[at] = often + 1;
}

// How often each variable of a window stands in the reply, up to twice.
fn mark_values(text: &[u8], n: u32, from: usize, first: usize, marks: &mut [u8])
    requires good { HasModel n from text.now }
    requires cleared { Cleared marks.old }
    ensures { marks.new ≡ marks_of first (length marks.old) (literals_from n from text.now) }
{
    for literal in Literals::from(text, n, from) {
        mark(marks, first, literal.size as usize);
    }
}

fn first_not_one(marks: &[u8], first: usize) -> Option<usize>
    requires { first + length marks.now ≤ 18446744073709551615 }
    ensures { said_found 19 result ≡ ones_from first marks.now }
{
    for (i, mark) in marks.iter().enumerate() {
        if *mark != 1 {
            return Some(first + i);
        }
    }
    None
}

// Of so many variables from `first` on, the least that does not stand in the reply exactly once.
fn not_once_in(text: &[u8], n: u32, from: usize, first: usize, many: usize) -> Option<usize>
    requires good { HasModel n from text.now }
    requires few { many ≤ 32768 }
    requires inside { first + many ≤ 18446744073709551615 }
    ensures { said_found 19 result ≡ once_from first many (literals_from n from text.now) }
{
    let mut marks = [0u8; 32768];
    mark_values(text, n, from, first, &mut marks);
    first_not_one(&marks[..many], first)
}

// Each window takes a pass over the reply. Of a reply's literals and one variable more some is not there once, so that
// few passes are made however great n is.
pub fn least_not_once(text: &[u8], n: u32, from: usize, first: usize) -> Option<usize>
    requires good { HasModel n from text.now }
    requires inside { first ≤ n + 1 }
    ensures { said_found 19 result ≡ once_from first ((n + 1) - first) (literals_from n from text.now) }
{
    let end = n as usize + 1;
    // by hand, since the last window is shorter
    let mut at = first;
    while at < end {
        let many = (end - at).min(32768);
        if let Some(variable) = not_once_in(text, n, from, at, many) {
            return Some(variable);
        }
        at += many;
    }
    None
}

// Literals of 1, 2, .. in this order leave only those past the last to be sought.
pub fn sought_from(n: u32, listed: Listed) -> usize
    ensures { result ≡ sought_from n listed.count listed.rising }
{
    if !listed.rising {
        return 1;
    }
    listed.count.min(n as usize) + 1
}
