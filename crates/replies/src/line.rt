// The first line of text.
ghost use Rattle.std.specs.Prelude.{◌≡◌, ◌≤◌, max, length, drop, IfOk};
ghost use Rattle.replies.specs.Parts.{word_count, end_at, rest_at, line_at};
ghost use Rattle.replies.specs.Said.{said_count, said_head, Past};

use super::parts::{count_at, word_at};
use super::{Bad, Head};
use definitions::Got;

fn word_count(text: &[u8], word: &[u8], from: usize) -> Result<Got<u32>, Bad>
    ensures says { said_count text.now result ≡ word_count word.now from (drop from text.now) }
    ensures place { IfOk result (λ got. Past from text.now got.next) }
{
    let next = word_at(text, word, from)?;
    count_at(text, next)
}

fn line_end(text: &[u8], n: u32, m: u32, from: usize) -> Result<Head, Bad>
    ensures says { said_head text.now result ≡ end_at n m from (drop from text.now) }
    ensures place { IfOk result (λ head. head.next ≤ max from (length text.now)) }
{
    let next = word_at(text, b"\n", from)?;
    Ok(Head { n, m, next })
}

fn line_rest(text: &[u8], n: u32, from: usize) -> Result<Head, Bad>
    ensures says { said_head text.now result ≡ rest_at n from (drop from text.now) }
    ensures place { IfOk result (λ head. head.next ≤ length text.now) }
{
    let got = word_count(text, b" ", from)?;
    line_end(text, n, got.value, got.next)
}

pub fn first_line(text: &[u8]) -> Result<Head, Bad>
    ensures says { said_head text.now result ≡ line_at text.now }
    ensures place { IfOk result (λ head. head.next ≤ length text.now) }
{
    let got = word_count(text, b"p cnf ", 0)?;
    line_rest(text, got.value, got.next)
}
