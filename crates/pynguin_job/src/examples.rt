// What is said of a job that isn't done.
ghost use Rattle.std.specs.Prelude.{◌≡◌, codes};
ghost use Rattle.pyn_base.specs.declared.construct.Construct.TheVariants.{Lambda};
ghost use Rattle.pynguin_job.specs.declared.words.JobFile.TheVariants.{Report};
ghost use Rattle.pynguin_job.specs.declared.fault.JobFault.TheVariants.{Refused, Unread, Unwritten, Memory};
ghost use Rattle.pynguin_job.specs.Examples.{box};
ghost use Rattle.pynguin_job.specs.Faults.{said_of};

/// Worked examples of what is said, proved by computation. The function does nothing.
pub fn said_examples()
    ensures refused { said_of box (Refused 3 Lambda) ≡ codes "a/box.py:3: lambda\n" }
    ensures unread { said_of box Unread ≡ codes "a/box.py: cannot be read\n" }
    ensures unwritten { said_of box (Unwritten Report) ≡ codes "report.txt: cannot be written\n" }
    ensures memory { said_of box Memory ≡ codes "out of memory\n" }
{}
