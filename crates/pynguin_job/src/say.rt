// The last call of a run: what it says.
ghost use Rattle.std.specs.Prelude.{◌≡◌};
ghost use Rattle.pynguin_job.specs.Faults.{out_of_memory, status_of};
ghost use Rattle.pynguin_job.specs.Run.{Concludes, Tells};

use crate::fault::message;
use crate::{Job, JobFault, Status};
use pyn_base::{Desk, DeskFail};
use std::alloc::Global;

/// Says a text, and gives the status: the given one, also where the `say` failed, or out of memory with it.
pub fn say<D: Desk>(alloc: Global, desk: &mut D, status: Status, text: &str) -> Status
    ensures { Concludes text.now status (D.state desk.old) (D.state desk.new) result }
{
    match desk.say(alloc, text.as_bytes()) {
        Ok(()) => status,
        Err(DeskFail::Failed) => status,
        Err(DeskFail::TooLong) => status,
        Err(DeskFail::Memory) => Status::OutOfMemory,
    }
}

/// Says that it is out of memory, which takes none.
pub fn say_out_of_memory<D: Desk>(alloc: Global, desk: &mut D) -> Status
    ensures concludes { Concludes out_of_memory Status.OutOfMemory (D.state desk.old) (D.state desk.new) result }
    ensures undone { result ≡ Status.Done → ⊥ }
{
    say(alloc, desk, Status::OutOfMemory, "out of memory\n")
}

/// Says why a job isn't done, and gives the status.
pub fn tell<D: Desk>(alloc: Global, desk: &mut D, job: &Job, fault: JobFault) -> Status
    ensures tells { Tells job.now fault (D.state desk.old) (D.state desk.new) result }
    ensures undone { result ≡ Status.Done → ⊥ }
{
    match message(alloc, job, fault) {
        Ok(text) => say(alloc, desk, fault.status(), text.as_str()),
        Err(_) => say_out_of_memory(alloc, desk),
    }
}
