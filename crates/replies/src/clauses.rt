// The numbers of a clause list.
ghost use Rattle.std.specs.Prelude.{◌≡◌, suc, ◌<◌, drop, IfOk, if◌then◌else◌};
ghost use Rattle.definitions.specs.Tools.{eqb};
ghost use Rattle.replies.specs.Parts.{found_from, started, list_from, sized};
ghost use Rattle.replies.specs.Said.{said_next, NextIn, said_counted};

use super::bytes::is_blank;
use super::parts::number_at;
use super::{Bad, Head, Next};

// The next number, or the end. Where there is no room for a number, its first byte is refused.
pub fn next_number(text: &[u8], n: u32, room: bool, from: usize) -> Result<Next, Bad>
    ensures says { said_next text.now result ≡ found_from n room from (drop from text.now) }
    ensures place { IfOk result (NextIn from text.now) }
{
    // by hand, since a place is answered also where `from` is past the end
    let mut at = from;
    while at < text.len() && is_blank(text[at]) {
        at += 1;
    }
    if text.len() <= at {
        return Ok(Next::End(at));
    }
    if !room {
        return Err(Bad { place: at });
    }
    let got = number_at(text, n, at)?;
    Ok(Next::Number(got))
}

pub fn clauses_after(clauses: usize, size: u32) -> usize
    requires { clauses < 18446744073709551615 }
    ensures { result ≡ (if eqb size 0 then suc clauses else clauses) }
{
    if size == 0 { clauses + 1 } else { clauses }
}

// How many numbers follow the first line, if there are M clauses and all is well.
#[inline(never)]
pub fn count_numbers(text: &[u8], head: Head) -> Result<usize, Bad>
    ensures { said_counted head result ≡ sized (list_from (started head.n head.m) head.next (drop head.next text.now)) }
{
    let mut at = head.next;
    let mut numbers = 0;
    let mut clauses = 0;
    loop {
        match next_number(text, head.n, clauses < head.m as usize, at)? {
            Next::Number(got) => {
                numbers += 1;
                clauses = clauses_after(clauses, got.value.size);
                at = got.next;
            }
            Next::End(end) => {
                if clauses == head.m as usize {
                    return Ok(numbers);
                }
                return Err(Bad { place: end });
            }
        }
    }
}
