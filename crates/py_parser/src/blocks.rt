// Blocks, and the statements in them in order (Language Reference, chapter 8).
ghost use Rattle.std.specs.Prelude.{◌≡◌, ℕ, List, Option, Ok, Result};
ghost use Rattle.pyn_base.specs.declared.construct.Construct.TheVariants as construct;
ghost use Rattle.py_syntax.specs.Gives.{Gives};
ghost use Rattle.py_syntax.specs.declared.refusal.Refusal.{Refusal as RefusalValue};
ghost use Rattle.py_syntax.specs.declared.refusal.Refusal.TheVariants as refusal;
ghost use Rattle.py_grammar.specs.declared.form.Form.{Form as FormValue};
ghost use Rattle.py_grammar.specs.Blocks as spec;
ghost use Rattle.py_grammar.specs.Compounds as compounds;
ghost use Rattle.py_grammar.specs.Refusals as refusals;
ghost use Rattle.py_parser.specs.declared.lines.Group.{Group as GroupValue};
ghost use Rattle.py_parser.specs.Lines.{member_of};
ghost use Rattle.py_parser.specs.Reads.{Answers, Inner, form_at};

use crate::lines::{Group, Member, behind, next_group};
use crate::refusals::refusal;
use py_grammar::{Form, Place};
use py_language::Logical;
use py_line::{ExprFault, read_form};
use py_syntax::{Refusal, Stmt};
use pyn_base::Construct;
use sqlite_items::Items;
use std::alloc::Global;

/// The refusal of a line whose column is not its block's, or of a header that has no block.
pub fn misplaced(line: &Logical) -> Refusal
    ensures { result ≡ refusal.Refused line.now.line construct.Indent }
{
    Refusal::Refused {
        line: line.line,
        construct: Construct::Indent,
    }
}

/// What was made of a line, unless these are deeper.
pub fn unless_deeper<T: Drop>(deeper: &[Logical], made: T) -> Result<T, Refusal>
    ensures { Gives result (spec.unless_deeper deeper.now (Ok made)) }
{
    match deeper.split_first() {
        None => Ok(made),
        Some((line, _)) => Err(misplaced(line)),
    }
}

/// A header that has no block is refused, unless the lines end at a fault, which then counts.
#[tactic(auto, using(crate::proofs::Steps::fault_again))]
pub fn without_block<T: Drop>(end: Option<Refusal>, line: &Logical) -> Result<T, Refusal>
    ensures { Gives result (compounds.without_block {A = T} end line.now) }
{
    match end {
        Some(fault) => Err(fault),
        None => Err(misplaced(line)),
    }
}

/// Where lines are: at this place, with room for so many blocks inside one another.
#[derive(Clone, Copy)]
pub struct Scope {
    pub alloc: Global,
    pub place: Place,
    pub room: usize,
}

impl Scope {
    /// The refusal of a line, by the table.
    pub fn refusal(&self, line: &Logical) -> Refusal
        ensures { result ≡ refusals.refusal self.now.place self.now.room line.now }
    {
        refusal(self.place, self.room, line)
    }

    /// The form of a line, which is refused where it has none.
    pub fn form(&self, line: &Logical) -> Result<Form, Refusal>
        ensures { Gives result (form_at self.now.place self.now.room line.now) }
    {
        match read_form(self.alloc, line) {
            Ok(form) => Ok(form),
            Err(ExprFault::Refused) => Err(self.refusal(line)),
            Err(ExprFault::Memory) => Err(Refusal::Memory),
        }
    }

    /// What was made of a statement, unless one of these lines would continue it.
    pub fn unless_continued<T: Drop>(&self, others: &[Logical], made: T) -> Result<T, Refusal>
        ensures { (column : ℕ) → Gives result (compounds.unless_continued self.now.place self.now.room (spec.members column others.now) (Ok made)) }
    {
        match others.split_first() {
            None => Ok(made),
            Some((line, _)) => Err(self.refusal(line)),
        }
    }

    /// What was made of a statement on one line: no line is deeper, and none continues it.
    pub fn alone<T: Drop>(&self, group: Group<'_>, made: T) -> Result<T, Refusal>
        ensures { Gives result (spec.unless_deeper group.entry.first.deeper.now (compounds.unless_continued self.now.place self.now.room (spec.members group.entry.column group.entry.others.now) (Ok made))) }
    {
        match group.first.deeper.split_first() {
            None => self.unless_continued(group.others, made),
            Some((line, _)) => Err(misplaced(line)),
        }
    }

    /// What the statements of a block with this column give, in order, up to the first fault.
    pub fn in_order<T: Drop, G: Fn(Option<Refusal>, Group<'_>, Form) -> Result<Items<T>, Refusal>>(
        &self,
        column: u32,
        end: Option<Refusal>,
        lines: &[Logical],
        statement: G,
    ) -> Result<Items<T>, Refusal>
        requires { (end : Option RefusalValue) (group : GroupValue) (form : FormValue) → G.pre statement end group form }
        ensures { (f : Option RefusalValue → spec.Group → FormValue → Result (List T) RefusalValue) → Answers f (G.post statement)
            → Gives result (spec.lines_at self.now.place self.now.room f column end lines.now) }
    {
        let mut all = Items::new(self.alloc);
        let mut rest = lines;
        while let Some((group, others)) = next_group(column, rest) {
            let line = group.first.line;
            if line.column != column {
                return Err(misplaced(line));
            }
            let form = self.form(line)?;
            all.append(statement(behind(others, end), group, form)?)?;
            rest = others;
        }
        Ok(all)
    }
}

/// Reads statements whose blocks the function reads.
#[derive(Clone, Copy)]
pub struct Reader<F> {
    pub scope: Scope,
    /// Reads the lines of a block inside these.
    pub inner: F,
}

impl<F: Fn(Global, Option<Refusal>, &[Logical], usize) -> Result<Items<Stmt>, Refusal>> Reader<F> {
    /// The block on the lines that are deeper than a header.
    fn deeper_block(&self, end: Option<Refusal>, member: Member<'_>) -> Result<Items<Stmt>, Refusal>
        requires { Inner self.now.scope.room (F.pre self.now.inner) (F.post self.now.inner) }
        ensures { Gives result (compounds.deeper_block self.now.scope.place self.now.scope.room (compounds.statements self.now.scope.room) end member.entry.line.now member.entry.deeper.now) }
    {
        match member.deeper.split_first() {
            Some(_) => (self.inner)(self.scope.alloc, end, member.deeper, self.scope.room),
            None => without_block(end, member.line),
        }
    }

    /// The block of a header: the statements on its line, or the deeper lines.
    pub fn suite(
        &self,
        end: Option<Refusal>,
        member: Member<'_>,
        small: Option<Items<Stmt>>,
    ) -> Result<Items<Stmt>, Refusal>
        requires { Inner self.now.scope.room (F.pre self.now.inner) (F.post self.now.inner) }
        ensures { Gives result (compounds.suite self.now.scope.place self.now.scope.room (compounds.statements self.now.scope.room) end (member_of member.entry) small) }
    {
        let Some(small) = small else {
            return self.deeper_block(end, member);
        };
        if self.scope.room == 0 {
            return Err(self.scope.refusal(member.line));
        }
        unless_deeper(member.deeper, small)
    }
}
