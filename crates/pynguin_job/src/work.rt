// The work of a run: what it reads and writes.
ghost use Rattle.std.specs.Prelude.{◌≡◌, [], ◌∷◌, false, IfOk, IfSome, IsSomeAnd, IsTrue, bytes_eq, chars};
ghost use Rattle.std.specs.Result.{result_err};
ghost use Rattle.pyn_base.specs.Desk.{Writes};
ghost use Rattle.py_language.specs.TokensNames.{is_name};
ghost use Rattle.pynguin_job.specs.Faults.{path_of};
ghost use Rattle.pynguin_job.specs.Run.{bytes_of, failure_behind, StopsWrites, WritesAll, Leaves, Cause};
ghost use Rattle.pynguin_job.specs.Headline.{IsTrusted};

use crate::outputs::{Output, outputs_of};
use crate::reading::{MODULE_LIMIT, module_in};
use crate::{Job, JobFault};
use pyn_base::{Construct, Desk, DeskFail};
use std::alloc::Global;

fn write_file<D: Desk>(
    alloc: Global,
    desk: &mut D,
    job: &Job,
    output: &Output,
) -> Result<(), JobFault>
    ensures writes { Writes (D.state desk.old) (D.state desk.new) (path_of job.now output.now.file) (bytes_of output.now) (failure_behind (result_err result)) }
    ensures stops { StopsWrites (result_err result) (output.now ∷ []) }
    ensures legible { chars (bytes_of output.now) ≡ output.now.text }
{
    let path = job.path(output.file);
    let text = output.text.as_str();
    match desk.write(alloc, path.as_str(), text.as_bytes()) {
        Ok(()) => Ok(()),
        Err(DeskFail::Failed) => Err(JobFault::Unwritten(output.file)),
        Err(DeskFail::TooLong) => unreachable!(),
        Err(DeskFail::Memory) => Err(JobFault::Memory),
    }
}

// Writes files in order, up to one that fails.
fn write_all<D: Desk>(
    alloc: Global,
    desk: &mut D,
    job: &Job,
    outputs: &[Output],
) -> Result<(), JobFault>
    ensures { WritesAll job.now outputs.now (D.state desk.old) (D.state desk.new) (result_err result) }
{
    for output in outputs {
        write_file(alloc, desk, job, output)?;
    }
    Ok(())
}

/// Does a job on a desk: reads the module, and writes the suite and then the report.
pub fn work<D: Desk>(alloc: Global, desk: &mut D, job: &Job) -> Result<(), JobFault>
    requires distinct { bytes_eq job.now.suite job.now.report ≡ false }
    requires named { IsTrue (is_name job.now.name) }
    ensures leaves { Leaves job.now (D.state desk.old) (D.state desk.new) (result_err result) }
    ensures cause { Cause job.now (D.state desk.old) (D.state desk.new) (result_err result) }
    ensures trusted { IfOk result (λ _. IfSome (D.state desk.old).files (λ before. IsSomeAnd (D.state desk.new).files (IsTrusted job.now before))) }
{
    let text = match desk.read(alloc, job.source.as_str(), MODULE_LIMIT) {
        Ok(text) => text,
        Err(DeskFail::Failed) => return Err(JobFault::Unread),
        Err(DeskFail::TooLong) => {
            return Err(JobFault::Refused {
                line: 1,
                construct: Construct::TooLong,
            });
        }
        Err(DeskFail::Memory) => return Err(JobFault::Memory),
    };
    let module = match module_in(alloc, text.as_slice()) {
        Ok(module) => module,
        Err(refusal) => return Err(JobFault::from_refusal(refusal)),
    };
    let Ok(outputs) = outputs_of(alloc, job, &module) else {
        return Err(JobFault::Memory);
    };
    write_all(alloc, desk, job, outputs.as_slice())
}
