// What follows the stated length: the counts, the variable table, the clauses, and nothing after them.
ghost use Rattle.std.specs.Prelude.{◌≡◌, ◌≤◌, length};
ghost use Rattle.reader.specs.Said.{said_step};
ghost use Rattle.opening.specs.Said.{said_header};
ghost use Rattle.opening.specs.Parts.{rules_from, header_from};

use super::head::counts_at;
use super::table::past_table;
use super::{Header, context_of};
use reader::clauses::past_clauses;
use reader::{Fault, Why};

// The clauses are read in the record's tail, where places are counted from its start; nothing follows them.
fn past_rules(bytes: &[u8], header: Header) -> Result<usize, Fault>
    requires { (header.rules ≤ length bytes.now) × ((header.ints ≤ 1024) × (header.bools ≤ 4096)) }
    ensures { said_step result ≡ rules_from header bytes.now }
{
    let base = header.rules;
    let place = match past_clauses(&bytes[base..], context_of(header), header.clauses, 0) {
        Ok(read) => base + read,
        Err(fault) => {
            return Err(Fault {
                why: fault.why,
                place: base + fault.place,
            });
        }
    };
    if place != bytes.len() {
        return Err(Fault {
            why: Why::End,
            place,
        });
    }
    Ok(place)
}

pub fn header_at(bytes: &[u8], version: u32, at: usize) -> Result<Header, Fault>
    ensures { said_header result ≡ header_from version bytes.now at }
{
    let counts = counts_at(bytes, at)?;
    let table = counts.next;
    let rules = past_table(bytes, counts.value.ints, table)?;
    let header = Header {
        version,
        ints: counts.value.ints as usize,
        bools: counts.value.bools as usize,
        clauses: counts.value.clauses as usize,
        table,
        rules,
    };
    past_rules(bytes, header)?;
    Ok(header)
}
