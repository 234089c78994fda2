// The machine: a module under test, and a state that its statements change one after another.
ghost use Rattle.std.specs.Prelude.{◌≡◌, ◌≤◌, ◌+◌, ◌*◌, ℕ, None, Some, length, option_copied, IfOk, IsTrue};
ghost use Rattle.py_plain.specs.declared.run.End.TheVariants as end;
ghost use Rattle.py_plain.specs.declared.run.Stop.{Stop as Stopped};
ghost use Rattle.py_plain.specs.Assertions.{is_assertion};
ghost use Rattle.py_plain.specs.Import.{imported};
ghost use Rattle.py_plain.specs.Laws.{IsOfTest};
ghost use Rattle.py_plain.specs.Names.{lookup as value_of_name};
ghost use Rattle.py_plain.specs.Program.{program_of};
ghost use Rattle.py_plain.specs.Runs.{watched_by};
ghost use Rattle.py_plain.specs.Tests.{end_of, run_statement, run_assertion};
ghost use Rattle.py_machine.specs.Ends.{EndsAs, UnlessMemory, stopped_by};

use crate::run::run;
use py_bindings::lookup;
use py_effects::{Finding, Outcome};
use py_frames::Probe;
use py_import::import;
use py_lookups::class_of_object;
use py_meaning::Value;
use py_objects::Objects;
use py_plain::{Abrupt, End, State, Stop, laws_of_meaning, laws_of_runs};
use py_syntax::{Module, Stmt};
use py_tables::Tables;
use pyn_base::{Construct, Memory, Name};
use std::alloc::Global;

/// A machine with a module, in the state that the statements so far have left. `P` watches the module's nodes. The module's tables are lent for
/// as long as its statements live, so a test may live shorter than the module that it was made for.
#[derive(Drop)]
pub struct Machine<'s, 'm, P> {
    tables: &'s Tables<'m>,
    state: State<Objects, P>,
    /// What has ended the machine, after which it does nothing.
    ended: Option<Stop>,
    /// The steps of the last statement.
    used: u32,
}

/// How a statement of a test ends.
fn end_of<W: Drop>(s: &State<Objects, W>, end: Outcome<Finding>) -> End
    ensures { result ≡ end_of s.now.objects end }
{
    match end {
        Ok(_) => End::Normal,
        Err(Abrupt::Raised(id)) => End::Raised(id, class_of_object(&s.objects, id)),
        Err(Abrupt::Returned(_)) => End::Left(Construct::Form),
        Err(Abrupt::Broke) => End::Left(Construct::Form),
        Err(Abrupt::Continued) => End::Left(Construct::Form),
        Err(Abrupt::OutOfSteps) => End::OutOfSteps,
        Err(Abrupt::Left(construct)) => End::Left(construct),
    }
}

/// What an end ends for good.
fn stopped_by(end: End) -> Option<Stop>
    ensures { result ≡ stopped_by end }
{
    match end {
        End::Normal => None,
        End::Raised(_, _) => None,
        End::OutOfSteps => Some(Stop::OutOfSteps),
        End::Left(construct) => Some(Stop::Left(construct)),
        End::Memory => Some(Stop::Memory),
        End::Ended(stop) => Some(stop),
    }
}

impl<'s, 'm, P: Probe> Machine<'s, 'm, P> {
    /// A machine in the state after the import of a module, with no object (Language Reference 5.4, 8.7 and 8.8). The tables are the module's.
    pub fn load(
        alloc: Global,
        tree: &'m Module,
        tables: &'s Tables<'m>,
        probe: P,
    ) -> Result<Machine<'s, 'm, P>, Memory>
        requires { tables.now ≡ program_of tree.now }
        ensures program { IfOk result (λ machine. machine.tables.now ≡ tables.now) }
        ensures state { IfOk result (λ machine. machine.state ≡ imported tables.now probe) }
        ensures goes { IfOk result (λ machine. machine.ended ≡ None) }
    {
        let state = import(alloc, tree, tables, probe)?;
        Ok(Machine {
            tables,
            state,
            ended: None,
            used: 0,
        })
    }

    /// Runs a statement of the test with so many steps. It ends and leaves the state as the plain meaning says, unless memory is wanted. After
    /// OutOfSteps, Left or Memory the machine has ended: it answers Ended with that from then on, and changes nothing. A statement makes at most
    /// twice as many objects as it takes steps.
    pub fn run_statement(&mut self, stmt: &'s Stmt, limit: u32) -> End
        ensures over { (stop : Stopped) → self.old.ended ≡ Some stop → (result ≡ end.Ended stop) × (self.new ≡ self.old) }
        ensures program { self.new.tables.now ≡ self.old.tables.now }
        ensures meant { self.old.ended ≡ None → EndsAs result self.new.state (run_statement (watched_by P.after_began P.after_judged) self.old.tables.now limit stmt.now self.old.state) }
        ensures ended { self.old.ended ≡ None → self.new.ended ≡ stopped_by result }
        ensures used { self.old.ended ≡ None → self.new.used ≤ limit }
        ensures steps { self.old.ended ≡ None → UnlessMemory result (self.new.used + self.new.state.left ≡ limit) }
        ensures objects { self.old.ended ≡ None → UnlessMemory result (length self.new.state.objects ≤ length self.old.state.objects + 2 * self.new.used) }
    {
        if let Some(stop) = self.ended {
            return End::Ended(stop);
        }
        laws_of_meaning::<P, P>();
        laws_of_runs::<P>();
        let alloc = self.state.objects.alloc();
        let tables = self.tables;
        self.state.left = limit;
        let end = match run(alloc, &mut self.state, tables, stmt) {
            Ok(end) => end_of(&self.state, end),
            Err(Memory) => End::Memory,
        };
        self.used = limit.saturating_sub(self.state.left);
        self.ended = stopped_by(end);
        end
    }
    /// Runs an assertion of the test with so many steps. Its end is that of the statement, and each object and each variable stays as it was,
    /// unless memory is wanted; what the assertion made is cut off. So the object that Raised names is there no more.
    pub fn run_assertion(&mut self, stmt: &'s Stmt, limit: u32) -> End
        ensures over { (stop : Stopped) → self.old.ended ≡ Some stop → (result ≡ end.Ended stop) × (self.new ≡ self.old) }
        ensures program { self.new.tables.now ≡ self.old.tables.now }
        ensures meant { (levels : ℕ) → IsTrue (is_assertion levels stmt.now) → IsOfTest P self.old.state → self.old.ended ≡ None → EndsAs result self.new.state (run_assertion (watched_by P.after_began P.after_judged) self.old.tables.now limit stmt.now self.old.state) }
        ensures ended { self.old.ended ≡ None → self.new.ended ≡ stopped_by result }
        ensures used { self.old.ended ≡ None → self.new.used ≤ limit }
    {
        if let Some(stop) = self.ended {
            return End::Ended(stop);
        }
        laws_of_meaning::<P, P>();
        let count = self.state.objects.count();
        let end = self.run_statement(stmt, limit);
        self.state.objects.cut(count);
        end
    }

    /// What the module's names are looked up in.
    pub fn tables(&self) -> &'s Tables<'m>
        ensures { result.now ≡ self.now.tables.now }
    {
        self.tables
    }

    /// The value of a variable of the test, if it is bound.
    pub fn variable(&self, name: &Name) -> Option<&Value>
        ensures { option_copied result ≡ value_of_name name.now self.now.state.frame.variables }
    {
        lookup(self.state.frame.variables.as_slice(), name)
    }

    /// All objects that the statements so far have made and kept.
    pub fn objects(&self) -> &Objects
        ensures { result.now ≡ self.now.state.objects }
    {
        &self.state.objects
    }

    /// The steps of the last statement.
    pub fn used(&self) -> u32
        ensures { result ≡ self.now.used }
    {
        self.used
    }

    /// What has ended the machine, if something has.
    pub fn ended(&self) -> Option<Stop>
        ensures { result ≡ self.now.ended }
    {
        self.ended
    }

    /// Who watches, with what it has kept.
    pub fn probe(&self) -> &P
        ensures { result.now ≡ self.now.state.seen }
    {
        &self.state.seen
    }

    /// Ends the machine, and gives back who watched.
    pub fn into_probe(self) -> P
        ensures { result ≡ self.entry.state.seen }
    {
        self.state.seen
    }
}
