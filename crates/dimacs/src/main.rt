// The program: a record from standard input, its clause list to standard output as DIMACS CNF, or a line that says the refusal.
#![tactic(auto)]

ghost use Rattle.io.specs.Counts.{IsPrefixLen};

use crate::printing::put_printed;
use std::io::Read;

pub mod printing; // printing.rt: all that the program prints, in a buffer

// A read of no bytes fails where standard input is closed or a directory.
fn readable(rt: &HostRuntime) -> bool {
    let mut nothing = [0u8; 0];
    rt.stdin().read(&mut nothing).is_ok()
}

// Reads until the buffer is full, the input ends or a read fails, and returns how many bytes are read, at the buffer's start.
// A `while`, since each read says by itself how far it came.
fn read_full(input: &mut impl Read, buffer: &mut [u8]) -> usize
    ensures { IsPrefixLen result buffer.new }
{
    let mut done: usize = 0;
    while done < buffer.len() {
        match input.read(&mut buffer[done..]) {
            Ok(n) if n > 0 => done += n,
            _ => break,
        }
    }
    done
}

fn complain(rt: &impl Eprint, what: &str) {
    let _ = eprintln!(rt; "basmuthar: {what}");
}

// A byte more than a record may have is read: enough to know that it is too long.
fn main(rt: HostRuntime) {
    if readable(&rt) {
        let mut bytes = [0u8; 65537];
        let n = read_full(&mut rt.stdin(), &mut bytes);
        let mut text = [0u8; 360512];
        let k = put_printed(&bytes[..n], &mut text);
        if rt.write_all(&text[..k]).is_err() {
            complain(&rt, "standard output cannot be written");
        }
    } else {
        complain(&rt, "standard input cannot be read");
    }
}
