// What the operations answer, and lists, as lines on standard output. The first write that fails ends a line, and is the answer.
#![tactic(auto)]

use answers::{detail_of, number_of};
use definitions::{Hour, Refusal, Reply, Sizes};
use std::{fmt, io};

// What is answered, in words.
#[derive(Clone, Copy)]
pub struct Worded<T>(T);

impl fmt::Display for Worded<Refusal> {
    fn fmt<W: fmt::Write>(&self, f: &mut fmt::Formatter<W>) -> fmt::Result {
        let number = number_of(self.0);
        let detail = detail_of(self.0);
        write!(f, "refused {number} {detail}")
    }
}

impl fmt::Display for Worded<Sizes> {
    fn fmt<W: fmt::Write>(&self, f: &mut fmt::Formatter<W>) -> fmt::Result {
        let Sizes { n, m, k } = self.0;
        write!(f, "N {n}, M {m}, K {k}")
    }
}

// A verdict.
impl fmt::Display for Worded<()> {
    fn fmt<W: fmt::Write>(&self, f: &mut fmt::Formatter<W>) -> fmt::Result {
        write!(f, "accepted")
    }
}

// What the writer of text answers.
impl fmt::Display for Worded<usize> {
    fn fmt<W: fmt::Write>(&self, f: &mut fmt::Formatter<W>) -> fmt::Result {
        let n = self.0;
        write!(f, "length {n}")
    }
}

// What the reader of a reply answers.
impl fmt::Display for Worded<Reply> {
    fn fmt<W: fmt::Write>(&self, f: &mut fmt::Formatter<W>) -> fmt::Result {
        match self.0 {
            Reply::Model => write!(f, "a model"),
            Reply::None => write!(f, "none"),
        }
    }
}

// What Closing answers: the value, none, or the range so far and the next question.
impl fmt::Display for Worded<Hour> {
    fn fmt<W: fmt::Write>(&self, f: &mut fmt::Formatter<W>) -> fmt::Result {
        match self.0 {
            Hour::Found(v) => write!(f, "found {v}"),
            Hour::None => write!(f, "none"),
            Hour::Unfinished {
                low,
                high,
                question,
            } => write!(f, "from {low} to {high}, at most {question}?"),
        }
    }
}

pub fn put_answer<T: Copy>(
    rt: &impl Print,
    name: &str,
    answer: Result<T, Refusal>,
) -> io::Result<()>
where
    Worded<T>: fmt::Display,
{
    match answer {
        Ok(value) => println!(rt; "{name}: {}", Worded(value)),
        Err(r) => println!(rt; "{name}: {}", Worded(r)),
    }
}

// Bytes as text, and a line's end.
pub fn put_text(rt: &impl Print, text: &[u8]) -> io::Result<()> {
    rt.write_all(text)?;
    rt.write_all(b"\n")
}

// A list as it was left: all its numbers in one line.
pub fn put_left<T: fmt::Display>(rt: &impl Print, list: &[T]) -> io::Result<()> {
    print!(rt; "left:")?;
    for number in list {
        print!(rt; " {number}")?;
    }
    println!(rt; "")
}
