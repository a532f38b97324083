// Cases of 01 and others, run: what the operations answer, and each lent list as it is left. Lists hold 99 in every place before.
#![tactic(auto)]

use crate::records::{
    AT_MOST_7, BOOLEAN_OR_EARLY, EITHER_FIRST, FEW_TUPLES, IMPOSSIBLE, MODEL, SINGLE_TERMS,
    WIDE_SUM,
};
use compile::compile;
use decode::decode;
use image::image;
use judge::judge;
use printing::{put_answer, put_left};
use size::size;
use std::io;

pub mod records; // records.rt: the records, and a model

fn refused_sizes(rt: &impl Print) -> io::Result<()> {
    let mut bytes = WIDE_SUM;
    put_answer(rt, "case 10", size(&bytes))?;
    bytes[26] = 65;
    put_answer(rt, "case 11, coefficient 65", size(&bytes))?;
    bytes[0] = 9;
    put_answer(rt, "case 11, version 9 as well", size(&bytes))
}

// The second term's coefficient, then its variable, unknown and repeated, then the constant, each mended before the next.
fn parts_of_a_term(rt: &impl Print) -> io::Result<()> {
    let mut bytes = WIDE_SUM;
    bytes[29] = 65;
    bytes[31] = 3;
    put_answer(rt, "coefficient 65, variable 3", size(&bytes))?;
    bytes[29] = 1;
    put_answer(rt, "variable 3 of three", size(&bytes))?;
    bytes[31] = 0;
    bytes[35] = 1;
    put_answer(rt, "variable 0 again", size(&bytes))?;
    bytes[31] = 1;
    put_answer(rt, "constant 16,777,216", size(&bytes))
}

fn list_lengths(rt: &impl Print) -> io::Result<()> {
    let mut short = [99; 52];
    put_answer(rt, "case 12, 52 places", compile(&AT_MOST_7, &mut short))?;
    put_left(rt, &short)?;
    let mut long = [99; 54];
    put_answer(rt, "case 12, 54 places", compile(&AT_MOST_7, &mut long))?;
    put_left(rt, &long)
}

fn few_tuples(rt: &impl Print) -> io::Result<()> {
    let mut list = [99; 16384];
    put_answer(
        rt,
        "three variables of 0..1700",
        compile(&FEW_TUPLES, &mut list),
    )?;
    // the last clause, and the place after it
    put_left(rt, &list[15329..15334])
}

fn below_least(rt: &impl Print) -> io::Result<()> {
    let mut list = [99; 33];
    put_answer(rt, "case 5", compile(&IMPOSSIBLE, &mut list))?;
    put_left(rt, &list)
}

fn selectors(rt: &impl Print) -> io::Result<()> {
    let mut list = [99; 25];
    put_answer(rt, "case 8", compile(&SINGLE_TERMS, &mut list))?;
    put_left(rt, &list)?;
    let mut list = [99; 53];
    put_answer(rt, "case 13", compile(&EITHER_FIRST, &mut list))?;
    put_left(rt, &list)
}

fn read_back(rt: &impl Print, name: &str, model: &[u8]) -> io::Result<()> {
    let mut values = [99; 2];
    let mut booleans = [0u8; 0];
    put_answer(
        rt,
        name,
        decode(&EITHER_FIRST, model, &mut values, &mut booleans),
    )?;
    put_left(rt, &values)
}

// A byte that is not 0 or 1 is told before a clause that does not hold.
fn models(rt: &impl Print) -> io::Result<()> {
    let mut model = MODEL;
    read_back(rt, "case 14", &model)?;
    model[9] = 1;
    read_back(rt, "case 14, last byte 1", &model)?;
    model[8] = 0;
    model[9] = 2;
    read_back(rt, "case 14, last bytes 0 and 2", &model)
}

// The model's length is told before the values', and that before the Booleans'.
fn lengths_in_order(rt: &impl Print) -> io::Result<()> {
    let mut value = [99; 1];
    let mut values = [99; 2];
    let mut booleans = [0u8; 1];
    put_answer(
        rt,
        "case 14, all lengths wrong",
        decode(&EITHER_FIRST, b"", &mut value, &mut booleans),
    )?;
    put_answer(
        rt,
        "case 14, two lengths wrong",
        decode(&EITHER_FIRST, &MODEL, &mut value, &mut booleans),
    )?;
    put_answer(
        rt,
        "case 14, one length wrong",
        decode(&EITHER_FIRST, &MODEL, &mut values, &mut booleans),
    )
}

fn judged(rt: &impl Print, name: &str, value: i32, byte: u8) -> io::Result<()> {
    put_answer(rt, name, judge(&BOOLEAN_OR_EARLY, &[value], &[byte]))
}

// A byte that is not 0 or 1 is told before a value outside its bounds, and that before a clause that does not hold.
fn judgements(rt: &impl Print) -> io::Result<()> {
    judged(rt, "b 2, x 7", 7, 2)?;
    judged(rt, "b 0, x 7", 7, 0)?;
    judged(rt, "b 0, x 2", 2, 0)?;
    judged(rt, "b 0, x 1", 1, 0)?;
    judged(rt, "b 1, x 2", 2, 1)
}

fn imaged(rt: &impl Print, name: &str, value: i32, byte: u8) -> io::Result<()> {
    let mut model = [99u8; 7];
    put_answer(
        rt,
        name,
        image(&BOOLEAN_OR_EARLY, &[value], &[byte], &mut model),
    )?;
    put_left(rt, &model)
}

fn plain_models(rt: &impl Print) -> io::Result<()> {
    imaged(rt, "image, b 0, x 1", 1, 0)?;
    imaged(rt, "image, b 1, x 2", 2, 1)?;
    imaged(rt, "image, b 0, x 2", 2, 0)
}

fn main(rt: HostRuntime) -> io::Result<()> {
    refused_sizes(&rt)?;
    parts_of_a_term(&rt)?;
    list_lengths(&rt)?;
    few_tuples(&rt)?;
    below_least(&rt)?;
    selectors(&rt)?;
    models(&rt)?;
    lengths_in_order(&rt)?;
    judgements(&rt)?;
    plain_models(&rt)
}
