//! The program: the words after its name and the real files, for `pynguin_job::pynguin`, which does all the rest.
//!
//! Only this crate sees the real desk.
#![tactic(auto)]

use pyn_base::{RealDesk, Text};
use pynguin_job::{Status, pynguin};
use std::process::ExitCode;
use std::rt::Env;
use std::{env, io};

// The words after the program's name.
fn words_of<R: Env + AllocGlobal>(rt: &R) -> io::Result<Vec<Text>> {
    let mut words = Vec::new(rt.alloc());
    for word in env::args(rt)?.skip(1) {
        words.push(Text::from_string(word))?;
    }
    Ok(words)
}

fn main(rt: HostRuntime) -> ExitCode {
    let alloc = rt.alloc();
    let words = match words_of(&rt) {
        Ok(words) => words,
        Err(error) => match error.kind() {
            io::ErrorKind::OutOfMemory => return ExitCode::from(Status::OutOfMemory.code()),
            // A word isn't text: the words are refused, as no words are.
            _ => Vec::new(alloc),
        },
    };
    let mut desk = RealDesk::new(rt);
    let status = pynguin(alloc, words.as_slice(), &mut desk);
    ExitCode::from(status.code())
}
