// Why a job is not done, and what is said of it.
ghost use Rattle.std.specs.Prelude.{◌≡◌, ◌++◌, IfOk, OnOk, codes, decimal};
ghost use Rattle.pyn_base.specs.Construct.{text_of};
ghost use Rattle.pynguin_job.specs.Faults.{fault_of, path_of, said_of, status_of};

use crate::{Job, JobFile, Status};
use py_syntax::{Line, Refusal};
use pyn_base::{Construct, Memory, Text};
use std::alloc::Global;

/// Why a job is not done.
#[derive(Clone, Copy, Debug, PartialEq, Eq)]
pub enum JobFault {
    /// The module is refused, for this construct on this line. One that is longer than its limit is so too.
    Refused { line: Line, construct: Construct },
    /// The module can't be read.
    Unread,
    /// This file can't be written.
    Unwritten(JobFile),
    /// Out of memory.
    Memory,
}

impl JobFault {
    /// The fault that a refusal of the module is.
    pub fn from_refusal(refusal: Refusal) -> Self
        ensures { result ≡ fault_of refusal }
    {
        match refusal {
            Refusal::Refused { line, construct } => JobFault::Refused { line, construct },
            Refusal::Memory => JobFault::Memory,
        }
    }

    /// The status of a run that ends so.
    pub fn status(&self) -> Status
        ensures { result ≡ status_of self.now }
    {
        match self {
            JobFault::Refused { .. } => Status::Refused,
            JobFault::Unread => Status::Fault,
            JobFault::Unwritten(_) => Status::Fault,
            JobFault::Memory => Status::OutOfMemory,
        }
    }
}

fn write_refusal(text: &mut Text, job: &Job, line: Line, construct: Construct) -> Result<(), Memory>
    ensures { OnOk result (text.new ≡ text.old ++ (job.now.source ++ codes ":" ++ decimal line ++ codes ": " ++ text_of construct)) }
{
    text.push_str(job.source.as_str())?;
    text.push_ascii(b":")?;
    text.push_number(line)?;
    text.push_ascii(b": ")?;
    text.push_str(construct.text())?;
    Ok(())
}

/// What is said of a fault, with its line feed. For want of memory there is no text.
pub fn message(alloc: Global, job: &Job, fault: JobFault) -> Result<Text, Memory>
    ensures { IfOk result (λ text. text ≡ said_of job.now fault) }
{
    let mut text = Text::new(alloc);
    match fault {
        JobFault::Refused { line, construct } => {
            write_refusal(&mut text, job, line, construct)?;
            text.push_ascii(b"\n")?;
        }
        JobFault::Unread => {
            text.push_str(job.source.as_str())?;
            text.push_ascii(b": cannot be read\n")?;
        }
        JobFault::Unwritten(file) => {
            text.push_str(job.path(file).as_str())?;
            text.push_ascii(b": cannot be written\n")?;
        }
        JobFault::Memory => return Err(Memory),
    }
    Ok(text)
}
