// Constants of a module, with the depths of their values.
ghost use Rattle.std.specs.Prelude.{◌≡◌, map, OnOk};
ghost use Rattle.std.specs.Option.{option_map, option_copied};
ghost use Rattle.py_meaning.specs.Methods.{named};
ghost use Rattle.py_scopes.specs.Constants.{constant as constant_in, constant_kind, deepest_part, tuple_of, signed, of_depth, integer, is_constant};
ghost use Rattle.py_scopes.specs.Names.{assigned, with_constant, with_assigned};
ghost use Rattle.py_module_rules.specs.Pieces.{with_item, constant_of};

use py_name_sets::NameMap;
use py_syntax::{Annotation, Expr, ExprKind, Item, Sign, Stmt, StmtKind, Target};
use pyn_base::{Memory, Name};
use std::marker::Model;

/// The greatest depth of a constant's value.
const DEEPEST: u32 = 50;

/// The names of a module's constants, with the depths of their values.
pub(crate) type Constants<'m> = NameMap<'m, u32>;

/// What is known of a constant: whether it is an integer as it is written, and how deep its value is.
#[derive(Drop)]
pub(crate) struct KnownConstant {
    is_integer: bool,
    depth: u32,
}

impl Model for KnownConstant {
    ghost use Rattle.py_scopes.specs.Constants.{Constant};

    ghost Value = { Constant };

    ghost view = { λ c. record { is_integer = c.is_integer; depth = c.depth } };
}

impl KnownConstant {
    fn of_depth(depth: u32) -> KnownConstant
        ensures { result ≡ of_depth depth }
    {
        KnownConstant {
            is_integer: false,
            depth,
        }
    }

    fn integer() -> KnownConstant
        ensures { result ≡ integer }
    {
        KnownConstant {
            is_integer: true,
            depth: 0,
        }
    }

    fn is_integer(&self) -> bool
        ensures { result ≡ self.now.is_integer }
    {
        self.is_integer
    }

    fn depth(&self) -> u32
        ensures { result ≡ self.now.depth }
    {
        self.depth
    }
}

/// What is known of an expression, if it is a constant.
#[cycle(constants)]
#[tactic(auto, using(crate::proofs::ConstantLevels::constant_levels))]
fn constant(x: &Expr, names: &Constants) -> Option<KnownConstant>
    ensures { result ≡ constant_in x.now names.now }
{
    of_kind(&x.kind, names)
}

#[cycle(constants)]
#[tactic(auto, using(crate::proofs::ConstantLevels::constant_levels))]
fn of_kind(kind: &ExprKind, names: &Constants) -> Option<KnownConstant>
    ensures { result ≡ constant_kind kind.now names.now }
{
    match kind {
        ExprKind::NoneLit => Some(KnownConstant::of_depth(0)),
        ExprKind::BoolLit(_) => Some(KnownConstant::of_depth(0)),
        ExprKind::IntLit(_) => Some(KnownConstant::integer()),
        ExprKind::StrLit(_) => Some(KnownConstant::of_depth(0)),
        ExprKind::TupleLit(parts) => tuple_of(deepest_part(parts.as_slice(), names)),
        ExprKind::Unary(sign, part) => signed(sign, constant(part.get(), names)),
        ExprKind::Name(name) => of_name(names, name),
        ExprKind::ListLit(_) => None,
        ExprKind::DictLit(_) => None,
        ExprKind::Attr(_, _) => None,
        ExprKind::Index(_, _) => None,
        ExprKind::Slice(_, _, _) => None,
        ExprKind::Call(_, _) => None,
        ExprKind::Method(_, _, _) => None,
        ExprKind::Super(_, _) => None,
        ExprKind::Not(_) => None,
        ExprKind::Binary(_, _, _) => None,
        ExprKind::And(_) => None,
        ExprKind::Or(_) => None,
        ExprKind::Compare(_, _) => None,
        ExprKind::Cond(_, _, _) => None,
    }
}

/// The depth of the deepest part, if all parts are constants.
#[cycle(constants)]
#[tactic(auto, using(crate::proofs::ConstantLevels::constant_levels))]
fn deepest_part(parts: &[Expr], names: &Constants) -> Option<u32>
    ensures { result ≡ deepest_part (map (constant_of names.now) parts.now) }
{
    let mut deepest = 0;
    for part in parts {
        match constant(part, names) {
            None => return None,
            Some(found) => deepest = found.depth().max(deepest),
        }
    }
    Some(deepest)
}

fn tuple_of(depth: Option<u32>) -> Option<KnownConstant>
    ensures { result ≡ tuple_of depth }
{
    match depth {
        None => None,
        Some(depth) => {
            if depth < DEEPEST {
                Some(KnownConstant::of_depth(depth + 1))
            } else {
                None
            }
        }
    }
}

fn signed(sign: &Sign, part: Option<KnownConstant>) -> Option<KnownConstant>
    ensures { result ≡ signed sign.now part }
{
    match sign {
        Sign::Plus => None,
        Sign::Minus => match part {
            None => None,
            Some(part) => {
                if part.is_integer() {
                    Some(KnownConstant::of_depth(0))
                } else {
                    None
                }
            }
        },
    }
}

fn of_name(names: &Constants, name: &Name) -> Option<KnownConstant>
    ensures { result ≡ option_map of_depth (named names.now name.now) }
{
    match names.get(name) {
        None => None,
        Some(depth) => Some(KnownConstant::of_depth(depth)),
    }
}

/// Whether an expression is a constant.
pub(crate) fn is_constant(names: &Constants, x: &Expr) -> bool
    ensures { result ≡ is_constant names.now x.now }
{
    constant(x, names).is_some()
}

/// An assignment to one name.
#[derive(Drop)]
pub struct Assignment<'m> {
    name: &'m Name,
    annotation: Option<&'m Annotation>,
    value: &'m Expr,
}

impl<'m> Model for Assignment<'m> {
    ghost use Rattle.std.specs.Coded.{codes};
    ghost use Rattle.std.specs.Option.{option_copied};
    ghost use Rattle.py_syntax.specs.contracts.expr.Expr as tree;
    ghost use Rattle.py_syntax.specs.contracts.stmt.Annotation as note;
    ghost use Rattle.py_scopes.specs.Names.{Assigned};

    ghost Value = { Assigned };

    ghost coded = { Prim.hlevel (codes, tree.the_row.coded, note.the_row.coded) };

    ghost view = { λ a. record { name = a.name.now; annotation = option_copied a.annotation; value = a.value.now } };
}

impl<'m> Assignment<'m> {
    /// The name.
    pub fn name(&self) -> &'m Name
        ensures { result.now ≡ self.now.name }
    {
        self.name
    }

    /// The annotation.
    pub fn annotation(&self) -> Option<&'m Annotation>
        ensures { option_copied result ≡ self.now.annotation }
    {
        self.annotation
    }

    /// The value.
    pub fn value(&self) -> &'m Expr
        ensures { result.now ≡ self.now.value }
    {
        self.value
    }
}

/// The assignment to one name that a statement is, if it is one.
#[tactic(auto, using(crate::proofs::Variants::statement_kinds))]
pub fn assigned<'m>(stmt: &'m Stmt) -> Option<Assignment<'m>>
    ensures { result ≡ assigned stmt.now }
{
    match &stmt.kind {
        StmtKind::Assign(targets, is_tuple, annotation, value) => {
            if *is_tuple {
                return None;
            }
            match targets.as_slice() {
                [Target::Name(name)] => Some(Assignment {
                    name,
                    annotation: annotation.as_ref(),
                    value,
                }),
                _ => None,
            }
        }
        _ => None,
    }
}

/// Adds the constant that an item assigns, if it assigns one.
pub(crate) fn add_constant<'m>(names: &mut Constants<'m>, item: &'m Item) -> Result<(), Memory>
    ensures { OnOk result (names.new ≡ with_item names.old item.now) }
{
    match item {
        Item::Other(stmt) => add_assigned(names, &assigned(stmt)),
        _ => Ok(()),
    }
}

fn add_assigned<'m>(
    names: &mut Constants<'m>,
    assigned: &Option<Assignment<'m>>,
) -> Result<(), Memory>
    ensures { OnOk result (names.new ≡ with_assigned names.old assigned.now) }
{
    match assigned {
        None => Ok(()),
        Some(a) => {
            let found = constant(a.value(), names);
            add_found(names, a.name(), found)
        }
    }
}

fn add_found<'m>(
    names: &mut Constants<'m>,
    name: &'m Name,
    found: Option<KnownConstant>,
) -> Result<(), Memory>
    ensures { OnOk result (names.new ≡ with_constant names.old name.now found) }
{
    match found {
        None => Ok(()),
        Some(found) => {
            names.insert(name, found.depth())?;
            Ok(())
        }
    }
}
