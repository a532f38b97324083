// The parts of a text: a word, a count of the first line, a number. Each answers its value and the next place.
// `at` is kept by hand: a part ends in the middle of the text, and its place there is what is answered.
ghost use Rattle.std.specs.Prelude.{◌≡◌, ◌≤◌, drop, IfOk};
ghost use Rattle.replies.specs.Parts.{word_at, count_from, count_at, number_from, number_at};
ghost use Rattle.replies.specs.Said.{number_said, said_word, said_count, said_numeral, Onward, Past};

use super::bytes::{is_blank, is_digit, is_more, worth};
use super::{Bad, Number};
use definitions::Got;

pub fn word_at(text: &[u8], word: &[u8], from: usize) -> Result<usize, Bad>
    ensures says { said_word text.now result ≡ word_at word.now from (drop from text.now) }
    ensures place { IfOk result (Onward from text.now) }
{
    let mut at = from;
    for letter in word {
        if text.len() <= at || text[at] != *letter {
            return Err(Bad { place: at });
        }
        at += 1;
    }
    Ok(at)
}

fn count_from(text: &[u8], first: u32, from: usize) -> Result<Got<u32>, Bad>
    requires { first ≤ 2147483647 }
    ensures says { said_count text.now result ≡ count_from first from (drop from text.now) }
    ensures place { IfOk result (λ got. Onward from text.now got.next) }
{
    let mut value = first;
    let mut at = from;
    while at < text.len() && is_more(value, text[at]) {
        let more = 10 * u64::from(value) + u64::from(worth(text[at]));
        if 2147483647 < more {
            return Err(Bad { place: at });
        }
        value = more as u32;
        at += 1;
    }
    Ok(Got { value, next: at })
}

// N or M of the first line.
pub fn count_at(text: &[u8], from: usize) -> Result<Got<u32>, Bad>
    ensures says { said_count text.now result ≡ count_at from (drop from text.now) }
    ensures place { IfOk result (λ got. Past from text.now got.next) }
{
    match text.get(from) {
        Some(b) if is_digit(*b) => count_from(text, worth(*b), from + 1),
        _ => Err(Bad { place: from }),
    }
}

fn number_from(text: &[u8], n: u32, first: Number, from: usize) -> Result<Got<Number>, Bad>
    ensures says { said_numeral text.now result ≡ number_from n (number_said first) from (drop from text.now) }
    ensures place { IfOk result (λ got. Onward from text.now got.next) }
{
    // the size alone is kept: one that lies in a number would be packed with its sign at each digit
    let mut size = first.size;
    let mut at = from;
    while at < text.len() && !is_blank(text[at]) {
        size = Number { size, ..first }.grown(n, at, text[at])?.size;
        at += 1;
    }
    let value = Number { size, ..first };
    if !value.is_whole() {
        return Err(Bad { place: at });
    }
    Ok(Got { value, next: at })
}

pub fn number_at(text: &[u8], n: u32, start: usize) -> Result<Got<Number>, Bad>
    ensures says { said_numeral text.now result ≡ number_at n start (drop start text.now) }
    ensures place { IfOk result (λ got. Past start text.now got.next) }
{
    let Some(b) = text.get(start) else {
        return Err(Bad { place: start });
    };
    let first = Number::begun(n, start, *b)?;
    number_from(text, n, first, start + 1)
}
