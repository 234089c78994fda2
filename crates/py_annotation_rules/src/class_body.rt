// What a class body binds isn't seen by what is evaluated in it afterwards (Language Reference 4.2.2).
ghost use Rattle.std.specs.Prelude.{◌≡◌, ◌∷◌, ◌++◌, ◌||◌, IfOk, OnOk};
ghost use Rattle.std.specs.List.{flat_map, list_any};
ghost use Rattle.std.specs.Option.{option_copied};
ghost use Rattle.py_meaning.specs.Methods.{is_among};
ghost use Rattle.py_scopes.specs.ModuleRows.{class_scope as class_scope_lines, evaluated_names, names_some, read_by, reads_in, reads_of, scope_in, scope_in_assigned, scope_in_item, scope_in_param};
ghost use Rattle.py_scopes.specs.Names.{assigned, bound_by_member, names_of, standing};
ghost use Rattle.py_scopes.specs.Refusals.{least};
ghost use Rattle.py_scopes.specs.Uses.{uses_of};
ghost use Rattle.py_annotation_rules.specs.Found.{member_scope, names_unquoted, scope_in_func, with_own};

use py_module_rules::{Assignment, Lines, assigned};
use py_name_sets::NameSet;
use py_syntax::{Annotation, Expr, Func, Item, Line, Member, Module, Param, Stmt};
use py_uses::{Use, Used, Uses, add_expr};
use pyn_base::{Memory, Name};
use std::alloc::Global;

/// The line of the first member of a class that reads a name of its class body where it is evaluated.
pub fn class_scope<'m>(alloc: Global, tree: &'m Module) -> Result<Option<Line>, Memory>
    ensures { IfOk result (λ line. line ≡ least (class_scope_lines tree.now)) }
{
    let mut lines = Lines::new(alloc);
    let items = tree.items.as_slice();
    for item in items {
        add_item(alloc, &mut lines, tree.future, item)?;
    }
    Ok(lines.least())
}

fn add_item<'m>(
    alloc: Global,
    lines: &mut Lines,
    future: bool,
    item: &'m Item,
) -> Result<(), Memory>
    ensures { OnOk result (lines.new ≡ lines.old ++ scope_in_item future item.now) }
{
    match item {
        Item::Func(_) => Ok(()),
        Item::Class(c) => add_members(alloc, lines, future, c.members.as_slice()),
        Item::Import(_, _) => Ok(()),
        Item::Other(_) => Ok(()),
    }
}

fn add_members<'m>(
    alloc: Global,
    lines: &mut Lines,
    future: bool,
    members: &'m [Member],
) -> Result<(), Memory>
    ensures { OnOk result (lines.new ≡ lines.old ++ flat_map (member_scope future) (standing members.now)) }
{
    let mut names = NameSet::new(alloc);
    for member in members {
        add_member(alloc, lines, &names, future, member)?;
        add_names(&mut names, member)?;
    }
    Ok(())
}

/// Adds the names that a member binds.
fn add_names<'m>(names: &mut NameSet<'m>, member: &'m Member) -> Result<(), Memory>
    ensures { OnOk result (names.new ≡ names.old ++ names_of (bound_by_member member.now)) }
{
    match member {
        Member::Func(f) => {
            names.insert(&f.name)?;
            Ok(())
        }
        Member::Other(stmt) => match assigned(stmt) {
            None => Ok(()),
            Some(a) => {
                names.insert(a.name())?;
                Ok(())
            }
        },
    }
}

fn add_member(
    alloc: Global,
    lines: &mut Lines,
    names: &NameSet,
    future: bool,
    member: &Member,
) -> Result<(), Memory>
    ensures { OnOk result (lines.new ≡ lines.old ++ scope_in future names.now member.now) }
{
    match member {
        Member::Func(f) => add_function(alloc, lines, names, future, f),
        Member::Other(stmt) => add_assigned(alloc, lines, names, future, stmt),
    }
}

fn add_function(
    alloc: Global,
    lines: &mut Lines,
    names: &NameSet,
    future: bool,
    f: &Func,
) -> Result<(), Memory>
    ensures { OnOk result (lines.new ≡ lines.old ++ scope_in_func future names.now f.now) }
{
    add_params(alloc, lines, names, future, f.params.as_slice())?;
    let found = evaluates_some(names, None, future, f.returns.as_ref());
    lines.add_if(found, f.line)
}

fn add_params(
    alloc: Global,
    lines: &mut Lines,
    names: &NameSet,
    future: bool,
    params: &[Param],
) -> Result<(), Memory>
    ensures { OnOk result (lines.new ≡ lines.old ++ flat_map (scope_in_param future names.now) params.now) }
{
    for param in params {
        let found = param_reads(alloc, names, future, param)?;
        lines.add_if(found, param.line)?;
    }
    Ok(())
}

/// Whether a parameter's default or evaluated annotation reads one of these names.
#[tactic(auto, using(crate::proofs::ReadNames::some_append))]
fn param_reads(alloc: Global, names: &NameSet, future: bool, param: &Param) -> Result<bool, Memory>
    ensures { IfOk result (λ found. found ≡ names_some names.now (reads_of param.now.default ++ evaluated_names future param.now.annotation)) }
{
    let read = default_reads(alloc, names, &param.default)?;
    Ok(read || evaluates_some(names, None, future, param.annotation.as_ref()))
}

fn default_reads(alloc: Global, names: &NameSet, default: &Option<Expr>) -> Result<bool, Memory>
    ensures { IfOk result (λ found. found ≡ names_some names.now (reads_of default.now)) }
{
    match default {
        None => Ok(false),
        Some(x) => reads_some(alloc, names, x),
    }
}

fn add_assigned(
    alloc: Global,
    lines: &mut Lines,
    names: &NameSet,
    future: bool,
    stmt: &Stmt,
) -> Result<(), Memory>
    ensures { OnOk result (lines.new ≡ lines.old ++ scope_in_assigned future names.now stmt.now.line (assigned stmt.now)) }
{
    match assigned(stmt) {
        None => Ok(()),
        Some(a) => {
            let found = assignment_reads(alloc, names, future, &a)?;
            lines.add_if(found, stmt.line)
        }
    }
}

fn assignment_reads(
    alloc: Global,
    names: &NameSet,
    future: bool,
    a: &Assignment,
) -> Result<bool, Memory>
    ensures { IfOk result (λ found. found ≡ (names_some names.now (reads_in (uses_of a.now.value)) || names_some (a.now.name ∷ names.now) (evaluated_names future a.now.annotation))) }
{
    let read = reads_some(alloc, names, a.value())?;
    Ok(read || evaluates_some(names, Some(a.name()), future, a.annotation()))
}

/// Whether an expression reads one of these names.
#[tactic(auto, using(crate::proofs::ReadNames::reads_are))]
fn reads_some(alloc: Global, names: &NameSet, x: &Expr) -> Result<bool, Memory>
    ensures { IfOk result (λ found. found ≡ names_some names.now (reads_in (uses_of x.now))) }
{
    let mut uses = Uses::new(alloc);
    add_expr(&mut uses, x)?;
    Ok(any_read(names, uses.as_slice()))
}

fn any_read(names: &NameSet, uses: &[Used]) -> bool
    ensures { result ≡ list_any (λ u. names_some names.now (read_by u.use')) uses.now }
{
    for used in uses {
        if is_read(names, used) {
            return true;
        }
    }
    false
}

/// Whether a use reads one of these names.
fn is_read(names: &NameSet, used: &Used) -> bool
    ensures { result ≡ names_some names.now (read_by used.now.use') }
{
    match used.use_() {
        Use::Reads(name) => names.has(name),
        Use::Annotated(_) => false,
        Use::Binds(_) => false,
        Use::Attribute(_) => false,
        Use::Super(_) => false,
        Use::Argument(_) => false,
        Use::Catches(_) => false,
        Use::Defines(_) => false,
        Use::Based(_) => false,
        Use::Imported(_) => false,
        Use::MixedArguments => false,
        Use::NoLoop => false,
        Use::NoClause => false,
    }
}

/// Whether an annotation that is evaluated names one of these names, or a name of its own.
fn evaluates_some(
    names: &NameSet,
    own: Option<&Name>,
    future: bool,
    annotation: Option<&Annotation>,
) -> bool
    ensures { result ≡ names_some (with_own (option_copied own.entry) names.now) (evaluated_names future (option_copied annotation.entry)) }
{
    if future {
        return false;
    }
    match annotation {
        None => false,
        Some(annotation) => names_unquoted(annotation, names, own),
    }
}

fn is_there(names: &NameSet, own: Option<&Name>, name: &Name) -> bool
    ensures { result ≡ is_among (with_own (option_copied own.entry) names.now) name.now }
{
    match own {
        None => names.has(name),
        Some(own) => name.is_same(own) || names.has(name),
    }
}

/// Whether an annotation names one of these names outside of quotes.
#[cycle(unquoted)]
#[tactic(auto, using(crate::proofs::ReadNames::unquoted_levels))]
fn names_unquoted(annotation: &Annotation, names: &NameSet, own: Option<&Name>) -> bool
    ensures { result ≡ names_unquoted (with_own (option_copied own.entry) names.now) annotation.now }
{
    match annotation {
        Annotation::Named(name, parts) => {
            is_there(names, own, name) || any_unquoted(parts.as_slice(), names, own)
        }
        Annotation::NoneType => false,
        Annotation::OrNone(part) => names_unquoted(part.get(), names, own),
        Annotation::Quoted(_) => false,
    }
}

#[cycle(unquoted)]
#[tactic(auto, using(crate::proofs::ReadNames::unquoted_levels))]
fn any_unquoted(parts: &[Annotation], names: &NameSet, own: Option<&Name>) -> bool
    ensures { result ≡ list_any (names_unquoted (with_own (option_copied own.entry) names.now)) parts.now }
{
    for part in parts {
        if names_unquoted(part, names, own) {
            return true;
        }
    }
    false
}
