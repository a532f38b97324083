// Words, and lines of a word and two numbers.
ghost use Rattle.std.specs.Prelude.{◌≤◌, length};
ghost use Rattle.text.specs.Puts.{Put};
ghost use Rattle.text.specs.Lines.{line};

use crate::numbers::put_ended;

pub fn put_word(word: &[u8], out: &mut [u8]) -> usize
    requires { length word.now ≤ length out.old }
    ensures { Put word.now out.old result out.new }
{
    out[..word.len()].copy_from_slice(word);
    word.len()
}

// A line of a word and two numbers.
pub fn put_text_line(word: &[u8], a: u64, b: u64, out: &mut [u8]) -> usize
    requires { length (line word.now a b) ≤ length out.old }
    ensures { Put (line word.now a b) out.old result out.new }
{
    let first = put_word(word, out);
    let second = first + put_ended(a, b' ', &mut out[first..]);
    second + put_ended(b, b'\n', &mut out[second..])
}
