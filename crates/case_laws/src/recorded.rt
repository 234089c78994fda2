// The trail, where a law has to speak of a type.

use std::marker::Model;

/// What the one who keeps the whole trail keeps. No run makes it: a law that is about any watcher names the recorder by it.
#[derive(Drop)]
pub(crate) struct Recorded;

impl Model for Recorded {
    ghost use Rattle.std.specs.Prelude.{[]};
    ghost use Rattle.std.specs.Coded.{codes};
    ghost use Rattle.py_plain.specs.contracts.judged.Judged as judged;
    ghost use Rattle.py_plain.specs.Tests.{Trail};

    ghost Value = { Trail };

    ghost coded = { Prim.hlevel (codes, judged.the_row.coded) };

    ghost view = { λ r. [] };
}
