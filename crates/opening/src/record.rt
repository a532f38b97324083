// A record that passed the checks 1 to 8: its bytes, and the header that was read from them. Contracts see its bytes alone.
ghost use Rattle.std.specs.Prelude.{◌≡◌, ℕ, List, length};
ghost use Rattle.laws.specs.Boards.{Opens, board_of};
ghost use Rattle.opening.specs.Said.{header_of};
ghost use Rattle.opening.specs.Headers.{Opened, tail_of};

use super::Header;
use fields::unchecked;
use std::marker::Model;

#[derive(Drop)]
pub struct Record<'a> {
    bytes: &'a [u8],
    header: Header,
}

impl<'a> Model for Record<'a> {
    ghost Value = { List ℕ };

    ghost view = { λ r. r.bytes.now };

    // the bytes are a record of a board, and the header is that board's
    ghost invariant = { λ r. Opened r.bytes.now r.header };
}

impl<'a> Record<'a> {
    pub fn new(bytes: &'a [u8], header: Header) -> Record<'a>
        requires { Opened bytes.now header }
        ensures { result ≡ bytes.now }
    {
        Record { bytes, header }
    }

    // Of bytes that are known to pass the checks: their counts are read, and nothing is tested.
    pub fn of(bytes: &'a [u8]) -> Record<'a>
        requires { Opens bytes.now }
        ensures { result ≡ bytes.now }
    {
        let ints = unchecked(bytes, 5, 2) as usize;
        let bools = unchecked(bytes, 7, 2) as usize;
        let clauses = unchecked(bytes, 9, 2) as usize;
        Record::new(
            bytes,
            Header {
                version: 1,
                ints,
                bools,
                clauses,
                table: 11,
                rules: 11 + 4 * ints,
            },
        )
    }

    pub fn bytes(&self) -> &'a [u8]
        ensures bytes { result.now ≡ self.now }
        ensures opens { Opens self.now }
    {
        self.bytes
    }

    pub fn header(&self) -> Header
        ensures { result ≡ header_of (board_of self.now) }
    {
        self.header
    }

    // How many integer variables.
    pub fn ints(&self) -> usize
        ensures ints { result ≡ length (board_of self.now).bounds }
        ensures opens { Opens self.now }
    {
        self.header.ints
    }

    // How many Boolean variables.
    pub fn bools(&self) -> usize
        ensures bools { result ≡ (board_of self.now).bools }
        ensures opens { Opens self.now }
    {
        self.header.bools
    }

    // How many clauses.
    pub fn clauses(&self) -> usize
        ensures clauses { result ≡ length (board_of self.now).clauses }
        ensures opens { Opens self.now }
    {
        self.header.clauses
    }

    // The rules, which are the record's tail: the clauses are read from the place where the variable table ends.
    pub fn rules(&self) -> &'a [u8]
        ensures rules { result.now ≡ tail_of self.now }
        ensures opens { Opens self.now }
    {
        let at = self.header.rules;
        &self.bytes[at..]
    }
}
