// The whole record: its refusals up to 8 and 15 to 17 for every input, or its header: version, counts and places.
#![tactic(auto)]

ghost use Rattle.std.specs.Prelude.{◌≡◌, ◌≤◌};
ghost use Rattle.reader.specs.Said.{context_of};
ghost use Rattle.opening.specs.Said.{context_in};
ghost use Rattle.opening.specs.Outcome.{Allowed};

use definitions::Refusal;
use fields::unsigned_at;
use reader::Context;

pub mod head; // head.rt: the counts
pub mod table; // table.rt: the variables' bounds
pub mod body; // body.rt: counts, table and clauses
pub mod record; // record.rt: a record that was opened

// The three counts.
#[derive(Clone, Copy)]
pub struct Counts {
    pub ints: u32,
    pub bools: u32,
    pub clauses: u32,
}

// What later passes over an accepted record need: version, counts, and where the variable table and the clauses begin.
#[derive(Clone, Copy)]
pub struct Header {
    pub version: u32,
    pub ints: usize,
    pub bools: usize,
    pub clauses: usize,
    pub table: usize,
    pub rules: usize,
}

// The record's refusals but 9, in 01's order: fewer than 5 bytes before the version, the stated length after it.
pub fn open(bytes: &[u8]) -> Result<Header, Refusal>
    ensures { Allowed bytes.now result }
{
    if 65536 < bytes.len() {
        return Err(Refusal::RecordTooLong);
    }
    let Some(version) = unsigned_at(bytes, 0, 1) else {
        return Err(Refusal::LengthWrong);
    };
    let Some(stated) = unsigned_at(bytes, version.next, 4) else {
        return Err(Refusal::LengthWrong);
    };
    if version.value != 1 {
        return Err(Refusal::VersionUnknown);
    }
    if stated.value as usize != bytes.len() - stated.next {
        return Err(Refusal::LengthWrong);
    }
    let header = body::header_at(bytes, version.value, stated.next)?;
    Ok(header)
}

// What the readers of clauses have to know of the record. It is no From: it asks that the counts are small.
pub fn context_of(header: Header) -> Context
    requires { (header.ints ≤ 1024) × (header.bools ≤ 4096) }
    ensures { context_of result ≡ context_in header }
{
    Context {
        version: header.version,
        ints: header.ints as u32,
        bools: header.bools as u32,
    }
}
