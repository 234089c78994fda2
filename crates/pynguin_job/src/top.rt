// The top call: all that the program does.
ghost use Rattle.std.specs.Prelude.{◌≡◌, false, IfNone, IfSome, IsSomeAnd, IsTrue, bytes_eq};
ghost use Rattle.py_language.specs.TokensNames.{is_name};
ghost use Rattle.pynguin_job.specs.Words.{job_of};
ghost use Rattle.pynguin_job.specs.Run.{Runs, RefusesWords};
ghost use Rattle.pynguin_job.specs.Headline.{IsTrusted};

use crate::say::{say, say_out_of_memory, tell};
use crate::work::work;
use crate::{Job, Status, WordsFault, read_words};
use pyn_base::{Desk, Text};
use std::alloc::Global;

// Runs a job: its work, and what is said of it.
fn run<D: Desk>(alloc: Global, desk: &mut D, job: &Job) -> Status
    requires distinct { bytes_eq job.now.suite job.now.report ≡ false }
    requires named { IsTrue (is_name job.now.name) }
    ensures runs { Runs job.now (D.state desk.old) (D.state desk.new) result }
    ensures trusted { result ≡ Status.Done → IfSome (D.state desk.old).files (λ before. IsSomeAnd (D.state desk.new).files (IsTrusted job.now before)) }
{
    match work(alloc, desk, job) {
        Ok(()) => Status::Done,
        Err(fault) => tell(alloc, desk, job, fault),
    }
}

/// Does what the words ask for, on this desk: reads the module, and writes the suite and then the report. Where it doesn't, it says why.
/// The words are those after the program's name.
pub fn pynguin<D: Desk>(alloc: Global, words: &[Text], desk: &mut D) -> Status
    ensures words { IfNone (job_of words.now) (RefusesWords (D.state desk.old) (D.state desk.new) result) }
    ensures runs { IfSome (job_of words.now) (λ job. Runs job (D.state desk.old) (D.state desk.new) result) }

    // The headline: with status 0, where the desk tells its files.
    ensures trusted { result ≡ Status.Done → IfSome (job_of words.now) (λ job.
        IfSome (D.state desk.old).files (λ before. IsSomeAnd (D.state desk.new).files (IsTrusted job before))) }
{
    match read_words(alloc, words) {
        Ok(job) => run(alloc, desk, &job),
        Err(WordsFault::Refused) => say(alloc, desk, Status::BadWords, "bad words\n"),
        Err(WordsFault::Memory) => say_out_of_memory(alloc, desk),
    }
}
