//! Reads a text and says how much it read, or how far a module's first function ran, so that the readers of Python and the machine can be timed.
//!
//! Its words are what to do with the text, and the file. `tokens` cuts the text with `py_lexer`, and prints the counts
//! of its logical lines and of its tokens, as `lines N` and `tokens N`. `expression` reads the first logical line with
//! `py_expr`, and prints its count of tokens as `tokens N`, and then `read` or `refused`. `module` reads the text with
//! `py_parser`, and prints `read` and then the count of its nodes as `nodes N`, or `refused line N` and the construct.
//! `run` has a third word, a number up to 4,294,967,295: it reads the text as a module, calls its first function so many times with no argument, as
//! a test's statement does, and prints how many calls ended, normally or by an exception, as `calls N`, and the steps of these as `steps N`.
//! `bench/tokens.sh`, `bench/expressions.sh`, `bench/modules.sh` and `bench/runs.sh` run it.
//!
//! It stands on `py_machine`, `test_chromosome`, `py_parser`, `py_expr`, `py_lexer` and `pyn_base`, and nothing stands on it.
#![tactic(auto)]

ghost use Rattle.std.specs.Prelude.{◌≡◌, chars, IfSome, OnOk};
ghost use Rattle.pyn_base.specs.Desk.{append};
ghost use Rattle.pyn_base.specs.Files.{content};
ghost use Rattle.pyn_bench.specs.Reports.{said_of};

mod modules;
mod reports;
mod runs;

use pyn_base::{Desk, DeskFail, RealDesk};
pub use reports::Reading;
use reports::report;
use std::alloc::Global;
use std::process::ExitCode;
use std::rt::Env;
use std::{env, io};

const LONGEST: u64 = 268435456;

/// Reads the file, and says what was read.
fn run<D: Desk>(alloc: Global, desk: &mut D, reading: Reading, name: &str) -> Result<(), DeskFail>
    ensures { OnOk result (IfSome (D.state desk.old).files
        (λ files. (D.state desk.new).said ≡ append (D.state desk.old).said (said_of reading (content files (chars name.now))))) }
{
    let bytes = desk.read(alloc, name, LONGEST)?;
    let text = report(alloc, reading, bytes.as_slice())?;
    desk.say(alloc, text.as_str().as_bytes())
}

/// The words after the program's name: what to do, with which file, and how often.
#[derive(Drop)]
struct Words {
    what: String,
    name: String,
    times: Option<String>,
}

fn reading_of(words: &Words) -> Option<Reading> {
    match words.what.as_str() {
        "tokens" => Some(Reading::Tokens),
        "expression" => Some(Reading::Expression),
        "module" => Some(Reading::Module),
        "run" => match &words.times {
            Some(times) => Some(Reading::Run(times.as_str().parse().ok()?)),
            None => None,
        },
        _ => None,
    }
}

fn read_words<R: Env + AllocGlobal>(rt: &R) -> io::Result<Option<Words>> {
    let mut words = env::args(rt)?.skip(1);
    let Some(what) = words.next() else {
        return Ok(None);
    };
    let Some(name) = words.next() else {
        return Ok(None);
    };
    Ok(Some(Words {
        what,
        name,
        times: words.next(),
    }))
}

fn main(rt: HostRuntime) -> ExitCode {
    let Ok(Some(words)) = read_words(&rt) else {
        return ExitCode::from(2);
    };
    let Some(reading) = reading_of(&words) else {
        return ExitCode::from(2);
    };
    let alloc = rt.alloc();
    let mut desk = RealDesk::new(rt);
    match run(alloc, &mut desk, reading, words.name.as_str()) {
        Ok(()) => ExitCode::from(0),
        Err(_) => ExitCode::from(1),
    }
}
