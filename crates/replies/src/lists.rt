// Text read into a lent list.
ghost use Rattle.std.specs.Prelude.{◌≡◌, ◌<◌};
ghost use Rattle.laws.specs.Written.{written};
ghost use Rattle.replies.specs.Lists.{numbers_from, Fits};
ghost use Rattle.replies.specs.Outcome.{TextAllowed};

use super::clauses::{clauses_after, count_numbers, next_number};
use super::line::first_line;
use super::{Head, Next};
use definitions::{Refusal, Sizes};

// The numbers of text that has been checked, to the start of the list: the text says how many, and not the list.
#[inline(never)]
fn put_numbers(text: &[u8], head: Head, list: &mut [i32])
    requires small { head.n < 2147483648 }
    requires room { Fits head.n head.m head.next text.now list.old }
    ensures { list.new ≡ written (numbers_from head.n head.m head.next text.now) list.old }
{
    let mut at = head.next;
    let mut numbers = 0;
    let mut clauses = 0;
    while let Ok(Next::Number(got)) = next_number(text, head.n, clauses < head.m as usize, at) {
        list[numbers] = got.value.signed();
        numbers += 1;
        clauses = clauses_after(clauses, got.value.size);
        at = got.next;
    }
}

// ReadText: N, M and K, and the list.
pub fn read_text(text: &[u8], list: &mut [i32]) -> Result<Sizes, Refusal>
    ensures { TextAllowed text.now list.old result list.new }
{
    let head = first_line(text)?;
    let k = count_numbers(text, head)?;
    if list.len() < k {
        return Err(Refusal::ListTooShort { wanted: k });
    }
    put_numbers(text, head, list);
    Ok(Sizes {
        n: head.n as usize,
        m: head.m as usize,
        k,
    })
}
