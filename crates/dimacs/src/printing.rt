// All that the program prints for a record, in a buffer.
ghost use Rattle.std.specs.Prelude.{◌+◌, ◌*◌, ◌≤◌, length};
ghost use Rattle.io.specs.Counts.{IsPrefixLen};
ghost use Rattle.definitions.specs.Answers.{said_sizing};
ghost use Rattle.definitions.specs.Dimacs.{shown, printed};
ghost use Rattle.text.specs.Puts.{Put};
ghost use Rattle.dimacs.specs.Shown.{cnf, refusal_line, listed};

use answers::{detail_of, number_of};
use compile::compile;
use definitions::{Refusal, Sizes};
use text::lines::put_text_line;
use text::numbers::put_entries;

// The head and the clauses.
fn put_cnf(n: u64, m: u64, clauses: &[i32], out: &mut [u8]) -> usize
    requires { 64 + 22 * length clauses.now ≤ length out.old }
    ensures { Put (cnf n m clauses.now) out.old result out.new }
{
    let at = put_text_line(b"p cnf ", n, m, out);
    at + put_entries(clauses, &mut out[at..])
}

fn put_refusal(r: Refusal, out: &mut [u8]) -> usize
    requires { 64 ≤ length out.old }
    ensures { Put (refusal_line r) out.old result out.new }
{
    put_text_line(b"refused ", number_of(r), detail_of(r), out)
}

// The clauses stand in the first numbers of the list.
fn put_shown(answer: Result<Sizes, Refusal>, list: &[i32], out: &mut [u8]) -> usize
    requires { (listed answer ≤ length list.now) × (64 + 22 * length list.now ≤ length out.old) }
    ensures { Put (shown (said_sizing answer) list.now) out.old result out.new }
{
    match answer {
        Ok(sizes) => put_cnf(sizes.n as u64, sizes.m as u64, &list[..sizes.k], out),
        Err(r) => put_refusal(r, out),
    }
}

// The program's text: it fits, as a line takes at most 64 bytes and a number at most 22 (64 bits in decimal, a minus, what ends it).
pub fn put_printed(bytes: &[u8], out: &mut [u8; 360512]) -> usize
    ensures prefix_len { IsPrefixLen result out.new }
    ensures put { Put (printed bytes.now) out.old result out.new }
{
    let mut list = [0i32; 16384];
    let answer = compile(bytes, &mut list);
    put_shown(answer, &list, out)
}
