// Compound statements, put together from their headers and blocks (Language Reference, chapter 8).
ghost use Rattle.std.specs.Prelude.{◌≡◌, ◌∷◌, [], ◌++◌, IfOk, Ok, Some, option_to_list};
ghost use Rattle.py_syntax.specs.Gives.{Gives};
ghost use Rattle.py_grammar.specs.declared.form.Form.TheVariants as form;
ghost use Rattle.py_grammar.specs.declared.form.Header.TheVariants as header;
ghost use Rattle.py_grammar.specs.declared.place.Place.TheVariants.{Block};
ghost use Rattle.py_grammar.specs.Blocks as blocks;
ghost use Rattle.py_grammar.specs.Compounds as spec;
ghost use Rattle.py_parser.specs.Lines.{member_of, group_of};
ghost use Rattle.py_parser.specs.Reads.{Inner, prepend_arms, prepend_clauses};

use crate::blocks::{Reader, Scope};
use crate::keywords::{first_word, is_clause};
use crate::lines::{Group, Member, behind, next_member};
use py_grammar::{Form, Header, Place};
use py_language::Logical;
use py_syntax::{Clause, Expr, Refusal, Stmt, StmtKind};
use pyn_base::{Construct, Name, NodeId};
use sqlite_items::Items;
use std::alloc::{AllocError, Global};

/// What a statement ends with: its `else` block and its `finally` block.
type Ending = (Option<Items<Stmt>>, Option<Items<Stmt>>);

impl<F: Fn(Global, Option<Refusal>, &[Logical], usize) -> Result<Items<Stmt>, Refusal>> Reader<F> {
    /// A statement that begins on the line.
    fn one(&self, line: &Logical, kind: StmtKind) -> Result<Items<Stmt>, Refusal>
        ensures { Gives result (Ok (spec.stmt line.now kind)) }
    {
        let mut all = Items::new(self.scope.alloc);
        all.push(Stmt {
            node: NodeId(0),
            line: line.line,
            kind,
        })?;
        Ok(all)
    }

    // `if` (8.1)

    /// An arm after the first one: its test, unless it is `else`, and its block.
    fn arm(
        &self,
        end: Option<Refusal>,
        member: Member<'_>,
        after: &[Logical],
        column: u32,
        form: Form,
    ) -> Result<(Option<Expr>, Items<Stmt>), Refusal>
        requires { Inner self.now.scope.room (F.pre self.now.inner) (F.post self.now.inner) }
        ensures { Gives result (spec.arm self.now.scope.place self.now.scope.room (spec.statements self.now.scope.room) end (member_of member.entry) (blocks.members column after.now) (Some form)) }
    {
        match form {
            Form::Compound(header, small) => match header {
                Header::Elif(test) => Ok((Some(test), self.suite(end, member, small)?)),
                Header::Else => {
                    let body = self.suite(end, member, small)?;
                    self.scope.unless_continued(after, (None, body))
                }
                _ => Err(self.scope.refusal(member.line)),
            },
            _ => Err(self.scope.refusal(member.line)),
        }
    }

    /// The arms on these lines, put after the first one, and the block of `else`.
    fn arms(
        &self,
        end: Option<Refusal>,
        column: u32,
        lines: &[Logical],
        first: (Expr, Items<Stmt>),
    ) -> Result<(Items<(Expr, Items<Stmt>)>, Option<Items<Stmt>>), Refusal>
        requires { Inner self.now.scope.room (F.pre self.now.inner) (F.post self.now.inner) }
        ensures { Gives result (prepend_arms (first ∷ []) (spec.arms self.now.scope.place self.now.scope.room (spec.statements self.now.scope.room) end (blocks.members column lines.now))) }
    {
        let mut all = Items::new(self.scope.alloc);
        all.push(first)?;
        let mut rest = lines;
        while let Some((member, after)) = next_member(column, rest) {
            let form = self.scope.form(member.line)?;
            let (test, body) = self.arm(behind(after, end), member, after, column, form)?;
            let Some(test) = test else {
                return Ok((all, Some(body)));
            };
            all.push((test, body))?;
            rest = after;
        }
        Ok((all, None))
    }

    #[tactic(auto, unfolding(py_grammar::specs::Compounds::statement))]
    fn if_statement(
        &self,
        end: Option<Refusal>,
        group: Group<'_>,
        test: Expr,
        small: Option<Items<Stmt>>,
    ) -> Result<Items<Stmt>, Refusal>
        requires { Inner self.now.scope.room (F.pre self.now.inner) (F.post self.now.inner) }
        ensures { Gives result (spec.statement self.now.scope.place self.now.scope.room (spec.statements self.now.scope.room) end (group_of group.entry) (form.Compound (header.If test) small)) }
    {
        let body = self.suite(behind(group.others, end), group.first, small)?;
        let (arms, orelse) = self.arms(end, group.column, group.others, (test, body))?;
        self.one(group.first.line, StmtKind::If(arms, orelse))
    }

    // loops (8.2 and 8.3)

    #[tactic(auto, unfolding(py_grammar::specs::Compounds::statement))]
    fn while_statement(
        &self,
        end: Option<Refusal>,
        group: Group<'_>,
        test: Expr,
        small: Option<Items<Stmt>>,
    ) -> Result<Items<Stmt>, Refusal>
        requires { Inner self.now.scope.room (F.pre self.now.inner) (F.post self.now.inner) }
        ensures { Gives result (spec.statement self.now.scope.place self.now.scope.room (spec.statements self.now.scope.room) end (group_of group.entry) (form.Compound (header.While test) small)) }
    {
        let body = self.suite(behind(group.others, end), group.first, small)?;
        let made = self.one(group.first.line, StmtKind::While(test, body))?;
        self.scope.unless_continued(group.others, made)
    }

    #[tactic(auto, unfolding(py_grammar::specs::Compounds::statement))]
    fn for_statement(
        &self,
        end: Option<Refusal>,
        group: Group<'_>,
        names: Items<Name>,
        is_tuple: bool,
        walked: Expr,
        small: Option<Items<Stmt>>,
    ) -> Result<Items<Stmt>, Refusal>
        requires { Inner self.now.scope.room (F.pre self.now.inner) (F.post self.now.inner) }
        ensures { Gives result (spec.statement self.now.scope.place self.now.scope.room (spec.statements self.now.scope.room) end (group_of group.entry) (form.Compound (header.For names is_tuple walked) small)) }
    {
        let body = self.suite(behind(group.others, end), group.first, small)?;
        let made = self.one(
            group.first.line,
            StmtKind::For(names, is_tuple, walked, body),
        )?;
        self.scope.unless_continued(group.others, made)
    }

    // `try` (8.4)

    fn finally(
        &self,
        end: Option<Refusal>,
        member: Member<'_>,
        after: &[Logical],
        column: u32,
        form: Form,
    ) -> Result<Option<Items<Stmt>>, Refusal>
        requires { Inner self.now.scope.room (F.pre self.now.inner) (F.post self.now.inner) }
        ensures { Gives result (spec.finally self.now.scope.place self.now.scope.room (spec.statements self.now.scope.room) end (member_of member.entry) (blocks.members column after.now) (Some form)) }
    {
        match form {
            Form::Compound(Header::Finally, small) => {
                let body = self.suite(end, member, small)?;
                self.scope.unless_continued(after, Some(body))
            }
            _ => Err(self.scope.refusal(member.line)),
        }
    }

    /// The `finally` block on these lines, if there are any.
    fn last_part(
        &self,
        end: Option<Refusal>,
        column: u32,
        lines: &[Logical],
    ) -> Result<Option<Items<Stmt>>, Refusal>
        requires { Inner self.now.scope.room (F.pre self.now.inner) (F.post self.now.inner) }
        ensures { Gives result (spec.last_part self.now.scope.place self.now.scope.room (spec.statements self.now.scope.room) end (blocks.members column lines.now)) }
    {
        let Some((member, after)) = next_member(column, lines) else {
            return Ok(None);
        };
        let form = self.scope.form(member.line)?;
        self.finally(behind(after, end), member, after, column, form)
    }

    /// `else` and `finally`, the first of which has this form.
    fn ending(
        &self,
        end: Option<Refusal>,
        member: Member<'_>,
        after: &[Logical],
        column: u32,
        form: Form,
    ) -> Result<Ending, Refusal>
        requires { Inner self.now.scope.room (F.pre self.now.inner) (F.post self.now.inner) }
        ensures { Gives result (spec.ending self.now.scope.place self.now.scope.room (spec.statements self.now.scope.room) (blocks.behind (blocks.members column after.now) end) end (member_of member.entry) (blocks.members column after.now) (Some form)) }
    {
        let next = behind(after, end);
        match form {
            Form::Compound(Header::Else, small) => {
                let body = self.suite(next, member, small)?;
                Ok((Some(body), self.last_part(end, column, after)?))
            }
            form => Ok((None, self.finally(next, member, after, column, form)?)),
        }
    }

    /// `else` and `finally` on these lines, if there are any.
    fn last_parts(
        &self,
        end: Option<Refusal>,
        column: u32,
        lines: &[Logical],
    ) -> Result<Ending, Refusal>
        requires { Inner self.now.scope.room (F.pre self.now.inner) (F.post self.now.inner) }
        ensures { Gives result (spec.last_parts self.now.scope.place self.now.scope.room (spec.statements self.now.scope.room) end (blocks.members column lines.now)) }
    {
        let Some((member, after)) = next_member(column, lines) else {
            return Ok((None, None));
        };
        let form = self.scope.form(member.line)?;
        self.ending(end, member, after, column, form)
    }

    /// A clause, and the rest of the statement, where it handles all classes and no clause may be after it.
    fn clause(
        &self,
        end: Option<Refusal>,
        member: Member<'_>,
        after: &[Logical],
        column: u32,
        classes: Option<Items<Name>>,
        name: Option<Name>,
        small: Option<Items<Stmt>>,
    ) -> Result<(Option<Clause>, Option<Ending>), Refusal>
        requires { Inner self.now.scope.room (F.pre self.now.inner) (F.post self.now.inner) }
        ensures { Gives result (spec.handler self.now.scope.place self.now.scope.room (spec.statements self.now.scope.room) (blocks.behind (blocks.members column after.now) end) end (member_of member.entry) (blocks.members column after.now) (Some (form.Compound (header.Except classes name) small))) }
    {
        let body = self.suite(behind(after, end), member, small)?;
        match classes {
            None => {
                let clause = clause_at(member.line, None, name, body);
                Ok((Some(clause), Some(self.last_parts(end, column, after)?)))
            }
            Some(classes) => Ok((
                Some(clause_at(member.line, Some(classes), name, body)),
                None,
            )),
        }
    }

    /// A clause, if this is one, and the rest of the statement, where no clause may be after it.
    fn handler(
        &self,
        end: Option<Refusal>,
        member: Member<'_>,
        after: &[Logical],
        column: u32,
        form: Form,
    ) -> Result<(Option<Clause>, Option<Ending>), Refusal>
        requires { Inner self.now.scope.room (F.pre self.now.inner) (F.post self.now.inner) }
        ensures { Gives result (spec.handler self.now.scope.place self.now.scope.room (spec.statements self.now.scope.room) (blocks.behind (blocks.members column after.now) end) end (member_of member.entry) (blocks.members column after.now) (Some form)) }
    {
        match form {
            Form::Compound(header, small) => match header {
                Header::Except(classes, name) => self.clause(
                    end, member, after, column, classes, name, small,
                ),
                header => {
                    let form = Form::Compound(header, small);
                    Ok((None, Some(self.ending(end, member, after, column, form)?)))
                }
            },
            form => Ok((None, Some(self.ending(end, member, after, column, form)?))),
        }
    }

    /// The clauses, `else` and `finally` on these lines.
    fn handlers(
        &self,
        end: Option<Refusal>,
        column: u32,
        lines: &[Logical],
    ) -> Result<(Items<Clause>, Option<Items<Stmt>>, Option<Items<Stmt>>), Refusal>
        requires { Inner self.now.scope.room (F.pre self.now.inner) (F.post self.now.inner) }
        ensures { Gives result (spec.handlers self.now.scope.place self.now.scope.room (spec.statements self.now.scope.room) end (blocks.members column lines.now)) }
    {
        let mut all = Items::new(self.scope.alloc);
        let mut rest = lines;
        while let Some((member, after)) = next_member(column, rest) {
            let form = self.scope.form(member.line)?;
            let (clause, ending) = self.handler(end, member, after, column, form)?;
            all = with_clause(all, clause)?;
            if let Some((orelse, finally)) = ending {
                return Ok((all, orelse, finally));
            }
            rest = after;
        }
        Ok((all, None, None))
    }

    /// A `try` that lacks its clauses is refused, unless the lines end at a fault, which then counts.
    #[tactic(auto, using(crate::proofs::Steps::fault_again))]
    fn lacking<T: Drop>(&self, end: Option<Refusal>, line: &Logical) -> Result<T, Refusal>
        ensures { Gives result (spec.lacking self.now.scope.place self.now.scope.room {A = T} end line.now) }
    {
        match end {
            Some(fault) => Err(fault),
            None => Err(self.scope.refusal(line)),
        }
    }

    /// What is after the block of the `try` on the line, which lacks its clauses if there are none.
    fn handled(
        &self,
        end: Option<Refusal>,
        line: &Logical,
        column: u32,
        lines: &[Logical],
    ) -> Result<(Items<Clause>, Option<Items<Stmt>>, Option<Items<Stmt>>), Refusal>
        requires { Inner self.now.scope.room (F.pre self.now.inner) (F.post self.now.inner) }
        ensures { Gives result (spec.handled self.now.scope.place self.now.scope.room (spec.statements self.now.scope.room) end line.now (blocks.members column lines.now)) }
    {
        let Some((next, _)) = lines.split_first() else {
            return self.lacking(end, line);
        };
        if !is_clause(first_word(next)) {
            return Err(self.scope.refusal(line));
        }
        self.handlers(end, column, lines)
    }

    #[tactic(auto, unfolding(py_grammar::specs::Compounds::statement))]
    fn try_statement(
        &self,
        end: Option<Refusal>,
        group: Group<'_>,
        small: Option<Items<Stmt>>,
    ) -> Result<Items<Stmt>, Refusal>
        requires { Inner self.now.scope.room (F.pre self.now.inner) (F.post self.now.inner) }
        ensures { Gives result (spec.statement self.now.scope.place self.now.scope.room (spec.statements self.now.scope.room) end (group_of group.entry) (form.Compound header.Try small)) }
    {
        let line = group.first.line;
        let body = self.suite(behind(group.others, end), group.first, small)?;
        let (clauses, orelse, finally) = self.handled(end, line, group.column, group.others)?;
        self.one(line, StmtKind::Try(body, clauses, orelse, finally))
    }

    /// The statement whose first line has this form.
    #[tactic(auto, unfolding(py_grammar::specs::Compounds::statement))]
    pub fn statement(
        &self,
        end: Option<Refusal>,
        group: Group<'_>,
        form: Form,
    ) -> Result<Items<Stmt>, Refusal>
        requires { Inner self.now.scope.room (F.pre self.now.inner) (F.post self.now.inner) }
        ensures { Gives result (spec.statement self.now.scope.place self.now.scope.room (spec.statements self.now.scope.room) end (group_of group.entry) form) }
    {
        match form {
            Form::Simple(all) => self.scope.alone(group, all),
            Form::Compound(header, small) => match header {
                Header::If(test) => self.if_statement(end, group, test, small),
                Header::While(test) => self.while_statement(end, group, test, small),
                Header::For(names, is_tuple, walked) => self.for_statement(
                    end, group, names, is_tuple, walked, small,
                ),
                Header::Try => self.try_statement(end, group, small),
                _ => Err(self.scope.refusal(group.first.line)),
            },
            _ => Err(self.scope.refusal(group.first.line)),
        }
    }

    /// The statements of a block with this column.
    fn statements(
        &self,
        column: u32,
        end: Option<Refusal>,
        lines: &[Logical],
    ) -> Result<Items<Stmt>, Refusal>
        requires { Inner self.now.scope.room (F.pre self.now.inner) (F.post self.now.inner) }
        ensures { Gives result (blocks.lines_at self.now.scope.place self.now.scope.room (spec.statement self.now.scope.place self.now.scope.room (spec.statements self.now.scope.room)) column end lines.now) }
    {
        self.scope.in_order(column, end, lines, |end, group, form| {
            self.statement(end, group, form)
        })
    }
}

fn clause_at(
    line: &Logical,
    classes: Option<Items<Name>>,
    name: Option<Name>,
    body: Items<Stmt>,
) -> Clause
    ensures { result ≡ spec.clause_at line.now classes name body }
{
    Clause {
        node: NodeId(0),
        line: line.line,
        classes,
        name,
        body,
    }
}

/// With a clause, if there is one.
fn with_clause(clauses: Items<Clause>, found: Option<Clause>) -> Result<Items<Clause>, AllocError>
    ensures { IfOk result (λ all. all ≡ clauses ++ option_to_list found) }
{
    let mut all = clauses;
    if let Some(clause) = found {
        all.push(clause)?;
    }
    Ok(all)
}

/// The statements of a block, where so many blocks may be inside one another from it on.
#[tactic(auto, unfolding(py_grammar::specs::Compounds::statements))]
pub fn statements(
    alloc: Global,
    end: Option<Refusal>,
    lines: &[Logical],
    blocks: usize,
) -> Result<Items<Stmt>, Refusal>
    ensures { Gives result (spec.statements blocks end lines.now) }
{
    let Some((first, _)) = lines.split_first() else {
        return Ok(Items::new(alloc));
    };
    if blocks == 0 {
        return Err(Refusal::Refused {
            line: first.line,
            construct: Construct::Nesting,
        });
    }
    let scope = Scope {
        alloc,
        place: Place::Block,
        room: blocks - 1,
    };
    let reader = Reader {
        scope,
        inner: statements,
    };
    reader.statements(first.column, end, lines)
}
