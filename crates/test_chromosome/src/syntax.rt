// The statements that a test is.
ghost use Rattle.std.specs.Prelude.{◌≡◌, neg_ℤ, map, Some, slice_get, IfOk};
ghost use Rattle.py_plain.specs.Names.{function_at};
ghost use Rattle.suite_model.specs.Statements.{variable, expression, variable_read, integer, literal, calls, module_read, class_name, function_name, right_of, statements_of};
ghost use Rattle.test_chromosome.specs.Syntax.{assignment};

use crate::listing::number_of;
use py_syntax::{Args, Expr, ExprKind, Sign, Stmt, StmtKind, Target};
use py_tables::Tables;
use pyn_base::{FuncId, Memory, Name, NodeId, PyInt, Text};
use sqlite_items::{Boxed, Items};
use std::alloc::Global;
use suite_model::{Primitive, Step, Test};

/// An expression that no node of the module is.
fn expression(kind: ExprKind) -> Expr
    ensures { result ≡ expression kind }
{
    Expr {
        node: NodeId(0),
        line: 1,
        kind,
    }
}

/// The name of a variable.
#[tactic(auto, unfolding(std::specs::Prelude::chars))]
fn variable(alloc: Global, k: u32) -> Result<Name, Memory>
    ensures { IfOk result (λ name. name ≡ variable k) }
{
    let mut text = Text::from_str(alloc, "var_")?;
    text.push_number(u64::from(k))?;
    Ok(Name::from_text(text))
}

fn variable_read(alloc: Global, k: u32) -> Result<Expr, Memory>
    ensures { IfOk result (λ e. e ≡ variable_read k) }
{
    Ok(expression(ExprKind::Name(variable(alloc, k)?)))
}

fn variable_reads(alloc: Global, numbers: &[u32]) -> Result<Items<Expr>, Memory>
    ensures { IfOk result (λ reads. reads ≡ map variable_read numbers.now) }
{
    let mut reads = Items::new(alloc);
    for k in numbers {
        reads.push(variable_read(alloc, *k)?)?;
    }
    Ok(reads)
}

/// The integer with the other sign, which is one too.
#[tactic(auto, using(crate::proofs::Integers::by_minus_one))]
fn opposite(n: PyInt) -> PyInt
    ensures { result ≡ neg_ℤ n }
{
    match PyInt::new(-1) {
        Some(minus_one) => n.floor_div(minus_one),
        None => unreachable!(),
    }
}

/// An integer; a negative one is a sign and a literal.
#[tactic(auto, using(crate::proofs::Integers::negative, crate::proofs::Integers::other))]
fn integer(alloc: Global, n: PyInt) -> Result<Expr, Memory>
    ensures { IfOk result (λ e. e ≡ integer n) }
{
    if n.is_less(PyInt::from(0)) {
        let size = expression(ExprKind::IntLit(opposite(n)));
        Ok(expression(ExprKind::Unary(Sign::Minus, Boxed::new(alloc, size)?)))
    } else {
        Ok(expression(ExprKind::IntLit(n)))
    }
}

fn literal(alloc: Global, prim: &Primitive) -> Result<Expr, Memory>
    ensures { IfOk result (λ e. e ≡ literal prim.now) }
{
    match prim {
        Primitive::None => Ok(expression(ExprKind::NoneLit)),
        Primitive::Bool(b) => Ok(expression(ExprKind::BoolLit(*b))),
        Primitive::Int(n) => integer(alloc, *n),
        Primitive::Str(text) => Ok(expression(ExprKind::StrLit(text.to_owned(alloc)?))),
    }
}

#[tactic(auto, unfolding(std::specs::Prelude::chars))]
fn module_read(alloc: Global) -> Result<Expr, Memory>
    ensures { IfOk result (λ e. e ≡ module_read) }
{
    Ok(expression(ExprKind::Name(Name::from_str(alloc, "module_0")?)))
}

/// A call of a method, or of a function or class of the module.
fn calls(alloc: Global, of: Expr, name: Name, args: &[u32]) -> Result<Expr, Memory>
    ensures { IfOk result (λ e. e ≡ calls of name args.now) }
{
    let args = Args {
        plain: variable_reads(alloc, args)?,
        named: Items::new(alloc),
    };
    Ok(expression(ExprKind::Method(Boxed::new(alloc, of)?, name, args)))
}

fn pair_reads(alloc: Global, pairs: &[(u32, u32)]) -> Result<Items<(Expr, Expr)>, Memory>
    ensures { IfOk result (λ reads. reads ≡ map (λ pair. (variable_read pair.0, variable_read pair.1)) pairs.now) }
{
    let mut reads = Items::new(alloc);
    for pair in pairs {
        let key = variable_read(alloc, pair.0)?;
        let value = variable_read(alloc, pair.1)?;
        reads.push((key, value))?;
    }
    Ok(reads)
}

/// What a step makes.
fn right_of(alloc: Global, tables: &Tables, step: &Step) -> Result<Expr, Memory>
    ensures { IfOk result (λ e. e ≡ right_of tables.now step.now) }
{
    match step {
        Step::Prim(prim) => literal(alloc, prim),
        Step::ListOf(parts) => Ok(expression(ExprKind::ListLit(variable_reads(
            alloc,
            parts.as_slice(),
        )?))),
        Step::DictOf(pairs) => Ok(expression(ExprKind::DictLit(pair_reads(
            alloc,
            pairs.as_slice(),
        )?))),
        Step::Construct(class, args) => {
            let name = class_name(alloc, tables, *class)?;
            calls(alloc, module_read(alloc)?, name, args.as_slice())
        }
        Step::Method(receiver, name, args) => {
            let receiver = variable_read(alloc, *receiver)?;
            calls(alloc, receiver, name.to_owned(alloc)?, args.as_slice())
        }
        Step::Function(f, args) => {
            let name = function_name(alloc, tables, *f)?;
            calls(alloc, module_read(alloc)?, name, args.as_slice())
        }
    }
}

fn function_name(alloc: Global, tables: &Tables, f: FuncId) -> Result<Name, Memory>
    ensures { IfOk result (λ name. name ≡ function_name (function_at tables.now (Some f))) }
{
    match tables.function(f) {
        Some(row) => row.tree().name.to_owned(alloc),
        None => Ok(Name::from_text(Text::new(alloc))),
    }
}

fn class_name(alloc: Global, tables: &Tables, class: u32) -> Result<Name, Memory>
    ensures { IfOk result (λ name. name ≡ class_name (slice_get tables.now.classes class)) }
{
    match tables.class(class) {
        Some(row) => row.name().to_owned(alloc),
        None => Ok(Name::from_text(Text::new(alloc))),
    }
}

fn statement_of(alloc: Global, k: u32, right: Expr) -> Result<Stmt, Memory>
    ensures { IfOk result (λ stmt. stmt ≡ assignment k right) }
{
    let mut targets = Items::new(alloc);
    targets.push(Target::Name(variable(alloc, k)?))?;
    Ok(Stmt {
        node: NodeId(0),
        line: 1,
        kind: StmtKind::Assign(targets, false, None, right),
    })
}

/// The statements of a test, in order: step `k` assigns what it makes to `var_k`.
pub fn to_syntax(alloc: Global, tables: &Tables, test: &Test) -> Result<Items<Stmt>, Memory>
    ensures { IfOk result (λ stmts. stmts ≡ statements_of tables.now test.now) }
{
    let mut stmts = Items::new(alloc);
    let mut number = 0u64;
    for step in test.steps.as_slice() {
        let k = number_of(number)?;
        let right = right_of(alloc, tables, step)?;
        stmts.push(statement_of(alloc, k, right)?)?;
        number += 1;
    }
    Ok(stmts)
}
