// Laws of stacks, as clauses of a function that does nothing.
ghost use Rattle.py_frames.specs.Laws.{PushedIsNext, NodesWait};
ghost use Rattle.py_frames.specs.Loads.{MeasureFalls};

/// How a stack is read: its last entry is the first to resume, and each node whose first part runs over its entry goes on as its kind
/// means. And a number that falls where a step is taken or the load falls. `W` is what a watcher keeps.
pub fn laws_of_frames<W>()
    ensures pushed { PushedIsNext W }
    ensures nodes { NodesWait W }
    ensures falls { MeasureFalls }
{}
