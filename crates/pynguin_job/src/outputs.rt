// The files that a job writes.
ghost use Rattle.std.specs.Prelude.{◌≡◌, IfOk};
ghost use Rattle.pyn_model.specs.FirstModules.{IsFirst};
ghost use Rattle.pynguin_job.specs.Outputs.{outputs_for};

use crate::{Job, JobFile};
use first_report::write_report;
use py_syntax::Module;
use pyn_base::{Memory, Text};
use pytest_file::write_calls;
use std::alloc::Global;
use suite_check::judge_calls;

/// A file to be written: its bytes are the UTF-8 of its text.
#[derive(Debug, Drop)]
pub struct Output {
    pub file: JobFile,
    pub text: Text,
}

/// The suite and the report of a module of the first form, in the order in which they are written.
pub fn outputs_of(alloc: Global, job: &Job, module: &Module) -> Result<Vec<Output>, Memory>
    requires { IsFirst «module».now }
    ensures { IfOk result (λ outputs. outputs.items ≡ outputs_for job.now «module».now) }
{
    let suite = Output {
        file: JobFile::Suite,
        text: write_calls(alloc, module, job.name.as_str())?,
    };
    let report = judge_calls(alloc, module, &job.name)?;
    let report = Output {
        file: JobFile::Report,
        text: write_report(alloc, &report)?,
    };
    let mut outputs = Vec::new(alloc);
    outputs.push(suite)?;
    outputs.push(report)?;
    Ok(outputs)
}
