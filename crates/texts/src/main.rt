// Text and replies, run: the writer with room and without, good text and each kind of departure, replies in any order, 'none', 18, 19 and 11.
#![tactic(auto)]

use crate::records::{NEVER, NOTHING, UNEQUAL, VERSION_NINE};
use printing::{put_answer, put_left, put_text};
use replies::lists::read_text;
use replies::models::read_reply;
use std::io;
use write_text::write_text;

pub mod records; // records.rt: the records

fn write(rt: &impl Print, name: &str, bytes: &[u8], text: &mut [u8]) -> io::Result<()> {
    put_answer(rt, name, write_text(bytes, text))?;
    put_text(rt, text)
}

// Sevens are lent, so that what is kept shows.
fn writer(rt: &impl Print) -> io::Result<()> {
    write(rt, "unequal", &UNEQUAL, &mut [55; 144])?;
    write(rt, "unequal, a byte less", &UNEQUAL, &mut [55; 141])?;
    write(rt, "an empty clause", &NEVER, &mut [55; 144])?;
    write(rt, "nothing", &NOTHING, &mut [55; 144])?;
    write(rt, "version 9", &VERSION_NINE, &mut [55; 144])
}

fn read(rt: &impl Print, name: &str, text: &[u8]) -> io::Result<()> {
    let mut list = [7; 5];
    put_answer(rt, name, read_text(text, &mut list))?;
    put_left(rt, &list)
}

fn good_text(rt: &impl Print) -> io::Result<()> {
    read(rt, "as printed", b"p cnf 2 1\n1 -2 0\n")?;
    read(rt, "blanks", b"p cnf 12 2\n \n12\n\n-10  0 0")?;
    read(rt, "no clause", b"p cnf 2147483647 0\n \n")?;
    read(rt, "a list too short", b"p cnf 2 3\n1 0 -2 0 1 0\n")
}

fn first_line(rt: &impl Print) -> io::Result<()> {
    read(rt, "empty", b"")?;
    read(rt, "a comment", b"c\np cnf 1 0\n")?;
    read(rt, "N too great", b"p cnf 2147483648 0\n")?;
    read(rt, "M too great", b"p cnf 1 21474836470\n")?;
    read(rt, "N with a zero", b"p cnf 01 0\n")?;
    read(rt, "two spaces", b"p cnf  1 0\n")?;
    read(rt, "cut", b"p cnf 1 0")
}

fn bad_numbers(rt: &impl Print) -> io::Result<()> {
    read(rt, "a leading zero", b"p cnf 2 1\n0012 0")?;
    read(rt, "a signed zero", b"p cnf 2 1\n-0 0")?;
    read(rt, "a plus", b"p cnf 2 1\n+1 0")?;
    read(rt, "a minus alone", b"p cnf 2 1\n- 0")?;
    read(rt, "a tab", b"p cnf 2 1\n1\t0")?;
    read(rt, "beyond N", b"p cnf 12 1\n1 -13x")?;
    read(rt, "far beyond N", b"p cnf 12 1\n1 99999999999999999999 0")?;
    read(rt, "a minus where N is 0", b"p cnf 0 1\n-1 0")
}

fn clauses(rt: &impl Print) -> io::Result<()> {
    read(rt, "a clause too many", b"p cnf 1 1\n1 0\n 1 0")?;
    read(rt, "too few", b"p cnf 1 2\n1 0\n")?;
    read(rt, "unfinished", b"p cnf 1 1\n1")
}

fn hear(rt: &impl Print, name: &str, n: u32, text: &[u8]) -> io::Result<()> {
    let mut model = [7u8; 3];
    put_answer(rt, name, read_reply(n, text, &mut model))?;
    put_left(rt, &model)
}

fn good_replies(rt: &impl Print) -> io::Result<()> {
    hear(rt, "rising", 3, b"s SATISFIABLE\nv 1 -2 3 0\n")?;
    hear(rt, "falling", 3, b"s SATISFIABLE\nv -3\nv 2 1\nv 0\n")?;
    hear(rt, "none", 9, b"s UNSATISFIABLE\n")
}

fn bad_replies(rt: &impl Print) -> io::Result<()> {
    hear(rt, "unknown", 3, b"s UNKNOWN\n")?;
    hear(rt, "none, and more", 3, b"s UNSATISFIABLE\nv 0\n")?;
    hear(rt, "no newline", 3, b"s SATISFIABLE\nv 1 -2 3 0")?;
    hear(rt, "a blank line", 3, b"s SATISFIABLE\n\nv 1 -2 3 0\n")?;
    hear(rt, "v alone", 3, b"s SATISFIABLE\nv\nv 1 -2 3 0\n")?;
    hear(
        rt,
        "a space at the end",
        3,
        b"s SATISFIABLE\nv 1 -2 \nv 3 0\n",
    )?;
    hear(rt, "after the 0", 3, b"s SATISFIABLE\nv 1 -2 3 0 3\n")?;
    hear(rt, "4 of 3", 3, b"s SATISFIABLE\nv 1 -2 3 4 0\n")
}

// 19 comes before 11.
fn not_once(rt: &impl Print) -> io::Result<()> {
    hear(rt, "missing", 3, b"s SATISFIABLE\nv 1 3 0\n")?;
    hear(rt, "the last missing", 3, b"s SATISFIABLE\nv 1 2 0\n")?;
    hear(rt, "twice", 3, b"s SATISFIABLE\nv 3 1 2 3 0\n")?;
    hear(rt, "with each sign", 3, b"s SATISFIABLE\nv 1 2 -2 3 0\n")?;
    hear(rt, "5 of 7", 7, b"s SATISFIABLE\nv 7 6 4 3 2 1 0\n")?;
    hear(rt, "4 bytes wanted", 4, b"s SATISFIABLE\nv 4 -3 -2 1 0\n")
}

fn main(rt: HostRuntime) -> io::Result<()> {
    writer(&rt)?;
    good_text(&rt)?;
    first_line(&rt)?;
    bad_numbers(&rt)?;
    clauses(&rt)?;
    good_replies(&rt)?;
    bad_replies(&rt)?;
    not_once(&rt)
}
