// What statements of a test give.
ghost use Rattle.std.specs.Prelude.{◌≡◌, option_map, IfOk};
ghost use Rattle.suite_file.specs.Spelled.{class_in, alone_in, spelled_in};
ghost use Rattle.suite_file.specs.SuiteOf.{after_spelled, after, looked_up, fault_at, does, asserts, raises_by, raises, exception_named, step_in, plain_entry, entry_of, form_at};

use crate::classes::class_in;
use crate::counts::next;
use crate::faults::{Fault, earlier, form_if};
use crate::lookups::{Lookups, is_subject_bound};
use crate::statements::{alone_in, spelled_in};
use py_syntax::{Expr, Line, Stmt};
use pyn_base::{ClassId, Construct, Memory};
use std::alloc::Global;
use suite_file::{At, Entry, FileStmt, Spelled};
use suite_model::{Assert, Step, Subject, Wants};

fn after_spelled(at: At, spelled: &Option<Spelled>) -> Result<At, Memory>
    ensures { IfOk result (λ next. next ≡ after_spelled at spelled.now) }
{
    match spelled {
        Some(Spelled::Assigns(_, _)) => Ok(At {
            steps: next(at.steps)?,
            bound: next(at.bound)?,
            closed: at.closed,
        }),
        _ => Ok(at),
    }
}

fn does(line: Line, step: Option<Step>) -> Entry
    ensures { result ≡ does line step }
{
    match step {
        None => Entry::Faulty(line, Construct::UnknownName),
        Some(step) => Entry::Does(line, step),
    }
}

/// An assertion, which is of the step before it.
fn asserts(at: At, line: Line, subject: Subject, wants: Option<Wants>) -> Entry
    ensures { result ≡ asserts at line subject wants }
{
    match wants {
        None => Entry::Faulty(line, Construct::UnknownName),
        Some(wants) => {
            if is_subject_bound(at.bound, &subject) {
                Entry::Asserts(Assert {
                    after: at.steps.saturating_sub(1),
                    line,
                    subject,
                    wants,
                })
            } else {
                Entry::Faulty(line, Construct::UnknownName)
            }
        }
    }
}

fn plain_entry(names: &Lookups, at: At, line: Line, spelled: Option<Spelled>) -> Entry
    ensures { result ≡ plain_entry names.now at line spelled }
{
    match spelled {
        None => Entry::Faulty(line, Construct::Form),
        Some(Spelled::Assigns(k, made)) => {
            if !at.closed && k == at.steps {
                does(line, names.step_in(at.bound, made))
            } else {
                Entry::Faulty(line, Construct::Form)
            }
        }
        Some(Spelled::Asserts(subject, asked)) => {
            asserts(at, line, subject, names.wanted(asked))
        }
    }
}

/// The exception class of a block, or what is told of it.
fn raised(
    alloc: Global,
    names: &Lookups,
    class: &Expr,
) -> Result<Result<ClassId, Construct>, Memory>
    ensures { IfOk result (λ found. found ≡ looked_up (exception_named names.now) (class_in class.now)) }
{
    match class_in(alloc, class)? {
        None => Ok(Err(Construct::Form)),
        Some(class) => match names.exception_named(&class) {
            None => Ok(Err(Construct::UnknownName)),
            Some(class) => Ok(Ok(class)),
        },
    }
}

/// The step of a block, or what is told of it.
fn raising(
    alloc: Global,
    names: &Lookups,
    bound: u32,
    stmt: &Stmt,
) -> Result<Result<Step, Construct>, Memory>
    ensures { IfOk result (λ found. found ≡ looked_up (step_in names.now bound) (alone_in stmt.now)) }
{
    match alone_in(alloc, stmt)? {
        None => Ok(Err(Construct::Form)),
        Some(made) => match names.step_in(bound, made) {
            None => Ok(Err(Construct::UnknownName)),
            Some(step) => Ok(Ok(step)),
        },
    }
}

fn fault_at<T>(line: Line, found: &Result<T, Construct>) -> Option<Fault>
    ensures { result ≡ fault_at line found.now }
{
    match found {
        Ok(_) => None,
        Err(construct) => Some((line, *construct)),
    }
}

fn second_fault(more: Option<Line>) -> Option<Fault>
    ensures { result ≡ option_map form_at more }
{
    match more {
        None => None,
        Some(line) => Some((line, Construct::Form)),
    }
}

fn raises_by(
    fault: Option<Fault>,
    block: Line,
    line: Line,
    class: Result<ClassId, Construct>,
    step: Result<Step, Construct>,
) -> Entry
    ensures { result ≡ raises_by fault block line class step }
{
    if let Some((line, construct)) = fault {
        return Entry::Faulty(line, construct);
    }
    match (class, step) {
        (Ok(class), Ok(step)) => Entry::Raises(block, class, line, step),
        _ => Entry::Faulty(block, Construct::Form),
    }
}

fn raises(
    at: At,
    block: Line,
    line: Line,
    class: Result<ClassId, Construct>,
    step: Result<Step, Construct>,
    more: Option<Line>,
) -> Entry
    ensures { result ≡ raises at block line class step more }
{
    let fault = earlier(form_if(at.closed, block), fault_at(block, &class));
    let fault = earlier(fault, fault_at(line, &step));
    let fault = earlier(fault, second_fault(more));
    raises_by(fault, block, line, class, step)
}

/// What a statement gives, and where the next one stands.
pub fn read_stmt(
    alloc: Global,
    names: &Lookups,
    at: At,
    stmt: &FileStmt,
) -> Result<(Entry, At), Memory>
    ensures { IfOk result (λ r. r ≡ (entry_of names.now at stmt.now, after at stmt.now)) }
{
    match stmt {
        FileStmt::Plain(stmt) => {
            let spelled = spelled_in(alloc, stmt)?;
            let next = after_spelled(at, &spelled)?;
            Ok((plain_entry(names, at, stmt.line, spelled), next))
        }
        FileStmt::Raises(block, class, stmt, more) => {
            let class = raised(alloc, names, class)?;
            let step = raising(alloc, names, at.bound, stmt)?;
            let next = At {
                steps: next(at.steps)?,
                bound: at.bound,
                closed: true,
            };
            Ok((raises(at, *block, stmt.line, class, step, *more), next))
        }
    }
}
