//! Reads a sheet on standard input, and writes its text from a buffer of 65,536 bytes, or which refusal it has. With
//! the argument `check` it only says whether the sheet is accepted; with `order` it lists the sheet's structs, each
//! after those that it holds: an item number to a line, counted from 0. Where a read or a write fails, it says so on
//! standard error, with the system's text and number; what cannot be read is no sheet, and has no answer.
#![tactic(auto)]

ghost use Rattle.std.specs.Prelude.{◌≤◌, IfOk, length};

use check_sheet::check;
use format::Outline;
use refusal::Refusal;
use std::env::{Env, FillError};
use std::io;
use std::io::{Input, Read};
use struct_order::struct_order;
use words::equal;
use write_sheet::write;

// How many bytes of a sheet are read, and how many a text may have.
const ROOM: usize = 65536;

// ---- answers

fn write_number(rt: &impl Print, n: u8) -> io::Result<()> {
    println!(rt; "{n}")
}

fn write_refusal(rt: &impl Print, e: Refusal) -> io::Result<()> {
    rt.write_all(b"refused ")?;
    write_number(rt, u8::from(e))
}

fn write_text(rt: &impl Print, sheet: &[u8]) -> io::Result<()> {
    let mut text = [0u8; ROOM];
    match write(sheet, &mut text) {
        Ok(n) => rt.write_all(&text[..n]),
        Err(e) => write_refusal(rt, e),
    }
}

fn write_check(rt: &impl Print, sheet: &[u8]) -> io::Result<()> {
    match check(sheet) {
        Ok(()) => rt.write_all(b"accepted\n"),
        Err(e) => write_refusal(rt, e),
    }
}

fn write_items(rt: &impl Print, list: &[u8]) -> io::Result<()> {
    for item in list {
        write_number(rt, *item)?;
    }
    Ok(())
}

fn write_order(rt: &impl Print, sheet: &[u8]) -> io::Result<()> {
    let mut list = [0u8; Outline::ITEMS];
    match struct_order(sheet, &mut list) {
        Ok(n) => write_items(rt, &list[..n]),
        Err(e) => write_refusal(rt, e),
    }
}

// ---- the program

// What failed, and the system's text and number. Where this too cannot be written, nothing is left to say so.
fn write_failure(rt: &impl Eprint, what: &str, error: io::Error) {
    let _ = eprintln!(rt; "bridgetext: {what}: {error}");
}

// Reads until the buffer is full or the input ends: how many bytes it put there.
fn read_sheet(input: &mut impl Read, sheet: &mut [u8]) -> io::Result<usize>
    ensures { IfOk result (λ n. n ≤ length sheet.new) }
{
    let mut n: usize = 0;
    // By as many bytes as a read gives: no count.
    while n < sheet.len() {
        let more = input.read(&mut sheet[n..])?;
        if more == 0 {
            return Ok(n);
        }
        n += more;
    }
    Ok(n)
}

fn write_answer(rt: &(impl Input + Print + Eprint), is_check: bool, is_order: bool) {
    let mut sheet = [0u8; ROOM];
    let n = match read_sheet(&mut rt.reader(), &mut sheet) {
        Ok(n) => n,
        Err(e) => {
            write_failure(rt, "cannot read the sheet", e);
            return;
        }
    };
    let written = if is_check {
        write_check(rt, &sheet[..n])
    } else if is_order {
        write_order(rt, &sheet[..n])
    } else {
        write_text(rt, &sheet[..n])
    };
    if let Err(e) = written {
        write_failure(rt, "cannot write the answer", e);
    }
}

fn write_usage(rt: &impl Eprint) {
    let _ = eprintln!(rt; "usage: bridgetext [check|order] < SHEET");
}

fn main(rt: HostRuntime) {
    let mut word = [0u8; 8];
    let n = match rt.arg(1, &mut word) {
        Ok(n) => n,
        Err(FillError::NotPresent) => {
            write_answer(&rt, false, false);
            return;
        }
        Err(FillError::TooLong) => 0,
    };
    let is_check = equal(&word[..n], b"check");
    let is_order = equal(&word[..n], b"order");
    let is_last = matches!(rt.arg(2, &mut []), Err(FillError::NotPresent));
    if is_last && (is_check || is_order) {
        write_answer(&rt, is_check, is_order);
    } else {
        write_usage(&rt);
    }
}
