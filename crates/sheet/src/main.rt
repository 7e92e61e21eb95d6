// The program: reads a room text from standard input, or one from each file that its arguments name, and writes its sheet, or the line of its refusal, to standard output.
#![tactic(auto)]

ghost use Rattle.std.specs.Prelude.{◌<◌, ◌≤◌, length, take};
ghost use Rattle.sheets.specs.SheetText.{SheetOf};

use roomlimits;
use std::alloc::AllocError;
use std::env::{Env, FillError};
use std::io::Read;
use std::rt::Files;
use std::{fs, io};

// Puts the sheet of a text at the start of a buffer that has room for every sheet; answers how many bytes it has.
fn answer(text: &[u8], out: &mut [u8]) -> usize
    requires { 200000 ≤ length out.old }
    ensures { SheetOf text.now (take result out.new) × (result ≤ length out.new) }
{
    sheets::sheet(text, out)
}

// Reads a file up to its end, to the first read that fails, or up to one byte more than the 8,192 that a room text has at most; answers how many bytes came.
fn taken(file: &mut impl Read, text: &mut [u8]) -> usize
    requires { 8192 < length text.old }
    ensures { result ≤ length text.new }
{
    let mut done = 0;
    // Stays: std has no read that fills what it can of a slice and says how much.
    while done < text.len() {
        match file.read(&mut text[done..]) {
            Ok(0) | Err(_) => break,
            Ok(count) => done += count,
        }
    }
    done
}

// Writes the sheet of the text in a file. Nobody is told of a write that fails.
fn shown(rt: &impl Print, file: &mut impl Read) {
    let mut text = roomlimits::text();
    let mut out = roomlimits::sheet();
    let count = taken(file, &mut text);
    let end = answer(&text[..count], &mut out);
    let _ = rt.write_all(&out[..end]);
}

// The system's words for an error, without the number that std puts after them.
fn words(said: &str) -> &str {
    match said.split_once(" (os error ") {
        Some((words, _number)) => words,
        None => said,
    }
}

// Says on standard error why a file cannot be opened.
fn failed(
    rt: &(impl Eprint + AllocGlobal),
    name: &str,
    error: io::Error,
) -> Result<(), AllocError> {
    let said = format!(in rt.alloc(); "{error}")?;
    let reason = words(said.as_str());
    let _ = eprintln!(rt; "{name}: {reason}");
    Ok(())
}

// Writes the sheet of the text in the file that an argument names, or says why the file cannot be opened; answers whether there is such an argument.
fn named(
    rt: &(impl Env + Files + Print + Eprint + AllocGlobal),
    argument: usize,
) -> Result<bool, AllocError> {
    let mut name = [0u8; 4096];
    let length = match rt.arg(argument, &mut name) {
        Ok(length) => length,
        Err(FillError::NotPresent) => return Ok(false),
        // No path is as long as the buffer. The empty name, which no file has, is said to be missing.
        Err(FillError::TooLong) => 0,
    };
    match str::from_utf8(&name[..length]) {
        Ok(name) => match fs::open(rt, name) {
            Ok(mut file) => shown(rt, &mut file),
            Err(error) => failed(rt, name, error)?,
        },
        // std opens files by UTF-8 names alone.
        Err(_) => {
            let name = String::from_utf8_lossy(rt.alloc(), &name[..length])?;
            let _ = eprintln!(rt; "{name}: The name is not UTF-8");
        }
    }
    Ok(true)
}

fn main(rt: HostRuntime) -> Result<(), AllocError> {
    if !named(&rt, 1)? {
        shown(&rt, &mut rt.reader());
        return Ok(());
    }
    for argument in 2..usize::MAX {
        if !named(&rt, argument)? {
            break;
        }
    }
    Ok(())
}
