// Closing, run: ranges around 0, of one value and of 8,192, every kind of answer, and its refusals in their order.
#![tactic(auto)]

use crate::records::{AROUND_ZERO, MAKESPAN, ONE_VALUE, WIDE_SUM, WIDEST};
use closing::closing;
use printing::put_answer;
use std::io;

pub mod records; // records.rt: the records

// The answer to the first n replies, for each n up to all of them.
fn reply_after_reply(rt: &impl Print, name: &str, bytes: &[u8], replies: &[u8]) -> io::Result<()> {
    for n in 0..=replies.len() {
        put_answer(rt, name, closing(bytes, 0, &replies[..n]))?;
    }
    Ok(())
}

fn makespan(rt: &impl Print) -> io::Result<()> {
    reply_after_reply(
        rt,
        "makespan",
        &MAKESPAN,
        b"\x01\x01\0\x01\0\x01\0\x01\x01\x01",
    )
}

fn around_zero(rt: &impl Print) -> io::Result<()> {
    reply_after_reply(rt, "-4..3, yes and no", &AROUND_ZERO, b"\x01\x01\0\0")?;
    reply_after_reply(rt, "-4..3, no", &AROUND_ZERO, b"\x01\0\0")?;
    reply_after_reply(rt, "-4..3, yes", &AROUND_ZERO, b"\x01\x01\x01\x01")
}

fn one_value(rt: &impl Print) -> io::Result<()> {
    reply_after_reply(rt, "5..5", &ONE_VALUE, b"\x01")
}

fn widest(rt: &impl Print, name: &str, replies: &[u8; 14]) -> io::Result<()> {
    reply_after_reply(rt, name, &WIDEST, replies)
}

fn all_values(rt: &impl Print) -> io::Result<()> {
    widest(
        rt,
        "8192 values, yes",
        b"\x01\x01\x01\x01\x01\x01\x01\x01\x01\x01\x01\x01\x01\x01",
    )?;
    widest(rt, "8192 values, no", b"\x01\0\0\0\0\0\0\0\0\0\0\0\0\0")?;
    widest(
        rt,
        "8192 values, yes and no",
        b"\x01\x01\0\x01\0\x01\0\x01\0\x01\0\x01\0\x01",
    )
}

fn none(rt: &impl Print) -> io::Result<()> {
    put_answer(rt, "-4..3, no solution", closing(&AROUND_ZERO, 0, b"\0"))?;
    put_answer(rt, "5..5, no solution", closing(&ONE_VALUE, 0, b"\0"))
}

// The record's refusals come first, then 22, then 12 over all replies, then 23.
fn refused(rt: &impl Print) -> io::Result<()> {
    put_answer(
        rt,
        "none, 2 replies left over",
        closing(&AROUND_ZERO, 0, b"\0\x01\x01"),
    )?;
    put_answer(
        rt,
        "found, 3 left over",
        closing(&ONE_VALUE, 0, b"\x01\0\0\x01"),
    )?;
    put_answer(
        rt,
        "found, a byte left over is 2",
        closing(&ONE_VALUE, 0, b"\x01\0\x02"),
    )?;
    put_answer(
        rt,
        "variable 1 of one, reply 2",
        closing(&ONE_VALUE, 1, b"\x02"),
    )?;
    put_answer(rt, "case 10, variable 3", closing(&WIDE_SUM, 3, b"\x02"))
}

fn main(rt: HostRuntime) -> io::Result<()> {
    makespan(&rt)?;
    around_zero(&rt)?;
    one_value(&rt)?;
    all_values(&rt)?;
    none(&rt)?;
    refused(&rt)
}
