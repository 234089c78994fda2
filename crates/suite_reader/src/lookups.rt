// What names mean in a module.
ghost use Rattle.std.specs.Prelude.{◌≡◌, IfOk};
ghost use Rattle.suite_file.specs.SuiteOf.{are_bound, are_pairs_bound, is_subject_bound, constructed, called_by, function_named, own_class_named, class_named, exception_named, step_in, wanted, own_functions};

use crate::counts::next;
use py_name_sets::NameMap;
use py_tables::{Tables, built_class_named};
use pyn_base::{ClassId, FuncId, Ids, Memory, Name};
use std::alloc::Global;
use std::marker::Model;
use suite_file::{Asked, Named, Right};
use suite_model::{Step, Subject, Wants};

/// A module's tables, with the functions that are no methods found by their names. A contract sees them as the tables.
#[derive(Drop)]
pub struct Lookups<'t, 'm> {
    tables: &'t Tables<'m>,
    functions: NameMap<'m, FuncId>,
}

impl<'t, 'm> Model for Lookups<'t, 'm> {
    ghost use Rattle.std.specs.Prelude.{◌≡◌};
    ghost use Rattle.std.specs.Coded.{codes};
    ghost use Rattle.py_syntax.specs.contracts.expr.Expr as expr;
    ghost use Rattle.py_syntax.specs.contracts.module.Func as func;
    ghost use Rattle.py_plain.specs.Program.{Program};
    ghost use Rattle.suite_file.specs.SuiteOf.{own_functions};

    ghost Value = { Program };

    ghost coded = { Prim.hlevel (codes, expr.the_row.coded, func.the_row.coded) };

    ghost view = { λ l. l.tables.now };

    ghost invariant = { λ l. l.functions ≡ own_functions 0 l.tables.now.functions };
}

fn own_functions<'m>(alloc: Global, tables: &Tables<'m>) -> Result<NameMap<'m, FuncId>, Memory>
    ensures { IfOk result (λ names. names ≡ own_functions 0 tables.now.functions) }
{
    let mut names = NameMap::new(alloc);
    let mut number = 0;
    for row in tables.functions() {
        if row.owner().is_none() {
            names.insert(&row.tree().name, FuncId(number))?;
        }
        number = next(number)?;
    }
    Ok(names)
}

/// Whether variables are among the first so many.
fn are_bound(bound: u32, variables: &[u32]) -> bool
    ensures { result ≡ are_bound bound variables.now }
{
    for k in variables {
        if *k >= bound {
            return false;
        }
    }
    true
}

fn are_pairs_bound(bound: u32, pairs: &[(u32, u32)]) -> bool
    ensures { result ≡ are_pairs_bound bound pairs.now }
{
    for pair in pairs {
        if pair.0 >= bound || pair.1 >= bound {
            return false;
        }
    }
    true
}

/// Whether what an assertion is about is bound.
pub fn is_subject_bound(bound: u32, subject: &Subject) -> bool
    ensures { result ≡ is_subject_bound bound subject.now }
{
    match subject {
        Subject::Whole(k) => *k < bound,
        Subject::Attr(k, _) => *k < bound,
    }
}

fn constructed(args: Ids, class: Option<ClassId>) -> Option<Step>
    ensures { result ≡ constructed args class }
{
    match class {
        Some(ClassId::Own(class)) => Some(Step::Construct(class, args)),
        _ => None,
    }
}

impl<'t, 'm> Lookups<'t, 'm> {
    /// Those of a module.
    pub fn new(alloc: Global, tables: &'t Tables<'m>) -> Result<Lookups<'t, 'm>, Memory>
        ensures { IfOk result (λ names. names ≡ tables.now) }
    {
        let functions = own_functions(alloc, tables)?;
        Ok(Lookups { tables, functions })
    }

    fn function_named(&self, name: &Name) -> Option<FuncId>
        ensures { result ≡ function_named self.now name.now }
    {
        self.functions.get(name)
    }

    fn class_named(&self, class: &Named) -> Option<ClassId>
        ensures { result ≡ class_named self.now class.now }
    {
        match class {
            Named::Bare(name) => built_class_named(name).map(ClassId::Built),
            Named::OfModule(name) => self.tables.class_named(name),
        }
    }

    /// The exception class that is named.
    pub fn exception_named(&self, class: &Named) -> Option<ClassId>
        ensures { result ≡ exception_named self.now class.now }
    {
        match self.class_named(class) {
            None => None,
            Some(class) => {
                if self.tables.is_exception(class) {
                    Some(class)
                } else {
                    None
                }
            }
        }
    }

    /// A function, or else a class, which is called.
    fn called(&self, name: &Name, args: Ids) -> Option<Step>
        ensures { result ≡ called_by (function_named self.now name.now) (own_class_named self.now name.now) args }
    {
        match self.function_named(name) {
            Some(f) => Some(Step::Function(f, args)),
            None => constructed(args, self.tables.class_named(name)),
        }
    }

    /// The step that makes this, where so many variables are bound and each name is known.
    pub fn step_in(&self, bound: u32, made: Right) -> Option<Step>
        ensures { result ≡ step_in self.now bound made }
    {
        match made {
            Right::Prim(prim) => Some(Step::Prim(prim)),
            Right::ListOf(parts) => {
                if are_bound(bound, parts.as_slice()) {
                    Some(Step::ListOf(parts))
                } else {
                    None
                }
            }
            Right::DictOf(pairs) => {
                if are_pairs_bound(bound, pairs.as_slice()) {
                    Some(Step::DictOf(pairs))
                } else {
                    None
                }
            }
            Right::OfModule(name, args) => {
                if are_bound(bound, args.as_slice()) {
                    self.called(&name, args)
                } else {
                    None
                }
            }
            Right::Method(receiver, name, args) => {
                if receiver < bound && are_bound(bound, args.as_slice()) {
                    Some(Step::Method(receiver, name, args))
                } else {
                    None
                }
            }
        }
    }

    /// What an assertion asks, where its class is known.
    pub fn wanted(&self, asked: Asked) -> Option<Wants>
        ensures { result ≡ wanted self.now asked }
    {
        match asked {
            Asked::Is(prim) => Some(Wants::Is(prim)),
            Asked::Equals(shown) => Some(Wants::Equals(shown)),
            Asked::Kind(class) => self.class_named(&class).map(Wants::Kind),
        }
    }
}
