//! A program for tests and for `make bench`: one function of the library, over the file that stands on standard input.
//!
//!     parts FUNCTION < FILE
//!
//! It makes what the function needs, calls it, and writes what it gave. A fault is two lines on standard error: whether
//! it came before the function, within it or after it, and the line that the program `wire_up` has for it. So a test
//! that refuses memory sees what was refused. The status is that of the fault, and 5 where there is no such function.
#![tactic(auto)]

mod answers;
mod texts;

use crate::answers::{OverPlan, Part, Stage, text_of};
use std::io::Read;
use std::process::ExitCode;
use std::rt::Env;
use std::sync::Wait;
use std::thread::Threads;
use std::{env, io};
use wire_types::{Fault, FromRead, ToWrite, write_out};
use wire_up::plain;

/// The functions, by the words that ask for them.
const PARTS: [(&str, Part); 9] = [
    ("plain", Part::Plain),
    ("read", Part::Read),
    ("plan", Part::Plan),
    ("marks", Part::Over(OverPlan::HappensBefore)),
    ("findings", Part::Over(OverPlan::Findings)),
    ("core", Part::Over(OverPlan::Core)),
    ("round", Part::Over(OverPlan::StealRound)),
    ("workers", Part::Over(OverPlan::Workers)),
    ("board", Part::Board),
];

/// The exit status of a command line that asks for no function.
const USAGE: u8 = 5;

/// The function that a word asks for.
fn part_of(word: &str) -> Option<Part> {
    for (name, part) in PARTS {
        if name == word {
            return Some(part);
        }
    }
    None
}

/// The function that the first argument asks for.
fn read_part(rt: &(impl Env + AllocGlobal)) -> Result<Option<Part>, Fault> {
    match env::args(rt) {
        Ok(arguments) => {
            let arguments: Vec<String> = arguments.collect(rt.alloc())?;
            match arguments.get(1) {
                Some(word) => Ok(part_of(word.as_str())),
                None => Ok(None),
            }
        }
        Err(error) if error.kind() == io::ErrorKind::OutOfMemory => Err(Fault::Memory),
        Err(_) => Ok(None),
    }
}

/// All of standard input.
fn input(rt: &(impl Input + AllocGlobal)) -> Result<Vec<u8>, Fault> {
    let mut bytes = Vec::new(rt.alloc());
    match rt.reader().read_to_end(&mut bytes) {
        Ok(_) => Ok(bytes),
        Err(error) if error.kind() == io::ErrorKind::OutOfMemory => Err(Fault::Memory),
        Err(_) => Err(Fault::Read),
    }
}

/// Calls a function, and writes what it gave. `plain` reads and writes by itself.
fn run(
    rt: &(impl Input + Print + AllocGlobal + Threads + Wait + Sync),
    part: Part,
    stage: &mut Stage,
) -> Result<(), Fault> {
    let mut writer = ToWrite::new(io::writer(rt));
    if matches!(part, Part::Plain) {
        *stage = Stage::Within;
        return plain(rt.alloc(), &mut FromRead::new(rt.reader()), &mut writer);
    }
    let bytes = input(rt)?;
    let text = text_of(rt, part, bytes.as_slice(), stage)?;
    write_out(&mut writer, text.as_slice()).map_err(Fault::Write)
}

/// Calls the function that is asked for, if there is one. Answers whether there is.
fn obey(
    rt: &(impl Env + Input + Print + AllocGlobal + Threads + Wait + Sync),
    stage: &mut Stage,
) -> Result<bool, Fault> {
    let Some(part) = read_part(rt)? else {
        return Ok(false);
    };
    run(rt, part, stage)?;
    Ok(true)
}

fn main(rt: HostRuntime) -> ExitCode {
    let mut stage = Stage::Before;
    match obey(&rt, &mut stage) {
        Ok(true) => ExitCode::SUCCESS,
        Ok(false) => ExitCode::from(USAGE),
        Err(fault) => {
            let _ = rt.eprintln(stage.word());
            let _ = fault.write_line(&mut ToWrite::new(rt.stderr()));
            ExitCode::from(fault.status())
        }
    }
}
