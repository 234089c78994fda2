// The annotations of a module.
ghost use Rattle.std.specs.Prelude.{◌≡◌, true, false, [], ◌++◌, ◌&&◌, not, IfOk, OnOk};
ghost use Rattle.std.specs.List.{flat_map};
ghost use Rattle.std.specs.Option.{option_copied};
ghost use Rattle.py_scopes.specs.Annotations.{is_faulty as is_faulty_annotation};
ghost use Rattle.py_scopes.specs.ModuleRows.{annotations as annotation_lines, in_function, in_item, in_member};
ghost use Rattle.py_scopes.specs.Names.{classes_in, imports_in};
ghost use Rattle.py_scopes.specs.Refusals.{least};
ghost use Rattle.py_scopes.specs.Uses.{uses_of_body, uses_in, nothing};
ghost use Rattle.py_annotation_rules.specs.Found.{annotation_in, found_uses, maybe_faulty, param_faulty};

use crate::annotation::is_faulty;
use crate::scope::{Known, Scope};
use py_module_rules::Lines;
use py_syntax::{Annotation, Func, Item, Line, Member, Module, Param, Stmt};
use py_uses::{Around, Use, Used, Uses, add_body, add_stmt};
use pyn_base::Memory;
use std::alloc::Global;

/// The line of the first annotation that has a fault.
pub fn annotations<'m>(alloc: Global, tree: &'m Module) -> Result<Option<Line>, Memory>
    ensures { IfOk result (λ line. line ≡ least (annotation_lines tree.now)) }
{
    let items = tree.items.as_slice();
    let all = Known::of_items(alloc, items)?;
    let mut lines = Lines::new(alloc);
    let mut earlier = Known::new(alloc);
    for (i, item) in items.iter().enumerate() {
        let (before, _) = items.split_at(i);
        add_item_at(alloc, &mut lines, tree, before, &all, &earlier, item)?;
        earlier.add_item(item)?;
    }
    Ok(lines.least())
}

fn add_item_at<'m>(
    alloc: Global,
    lines: &mut Lines,
    tree: &'m Module,
    before: &[Item],
    all: &Known<'m>,
    earlier: &Known<'m>,
    item: &'m Item,
) -> Result<(), Memory>
    requires all_classes { all.now.classes ≡ classes_in tree.now.items }
    requires all_imports { all.now.imports ≡ imports_in tree.now.items }
    requires earlier_classes { earlier.now.classes ≡ classes_in before.now }
    requires earlier_imports { earlier.now.imports ≡ imports_in before.now }
    ensures { OnOk result (lines.new ≡ lines.old ++ in_item tree.now before.now item.now) }
{
    let scope = Scope {
        tree,
        before,
        classes: &all.classes,
        imports: &all.imports,
        classes_before: &earlier.classes,
        imports_before: &earlier.imports,
    };
    add_item(alloc, lines, &scope, item)
}

#[tactic(auto, using(crate::proofs::UsesFound::statement_is))]
fn add_item(alloc: Global, lines: &mut Lines, scope: &Scope, item: &Item) -> Result<(), Memory>
    ensures { OnOk result (lines.new ≡ lines.old ++ in_item scope.now.whole scope.now.front item.now) }
{
    match item {
        Item::Func(f) => add_function(alloc, lines, scope, f),
        Item::Class(c) => add_members(alloc, lines, scope, c.members.as_slice()),
        Item::Import(_, _) => Ok(()),
        Item::Other(stmt) => add_statement(alloc, lines, scope, stmt),
    }
}

fn add_members(
    alloc: Global,
    lines: &mut Lines,
    scope: &Scope,
    members: &[Member],
) -> Result<(), Memory>
    ensures { OnOk result (lines.new ≡ lines.old ++ flat_map (in_member scope.now.whole scope.now.front) members.now) }
{
    for member in members {
        add_member(alloc, lines, scope, member)?;
    }
    Ok(())
}

#[tactic(auto, using(crate::proofs::UsesFound::statement_is))]
fn add_member(
    alloc: Global,
    lines: &mut Lines,
    scope: &Scope,
    member: &Member,
) -> Result<(), Memory>
    ensures { OnOk result (lines.new ≡ lines.old ++ in_member scope.now.whole scope.now.front member.now) }
{
    match member {
        Member::Func(f) => add_function(alloc, lines, scope, f),
        Member::Other(stmt) => add_statement(alloc, lines, scope, stmt),
    }
}

fn add_function(alloc: Global, lines: &mut Lines, scope: &Scope, f: &Func) -> Result<(), Memory>
    ensures { OnOk result (lines.new ≡ lines.old ++ in_function scope.now.whole scope.now.front f.now) }
{
    add_params(lines, scope, f.params.as_slice())?;
    add_maybe(lines, scope, true, f.returns.as_ref(), f.line)?;
    add_body_faults(alloc, lines, scope, f.body.as_slice())
}

fn add_params(lines: &mut Lines, scope: &Scope, params: &[Param]) -> Result<(), Memory>
    ensures { OnOk result (lines.new ≡ lines.old ++ flat_map (param_faulty scope.now) params.now) }
{
    for param in params {
        add_maybe(lines, scope, true, param.annotation.as_ref(), param.line)?;
    }
    Ok(())
}

/// Adds the line of an annotation, if it has a fault.
fn add_maybe(
    lines: &mut Lines,
    scope: &Scope,
    evaluated: bool,
    annotation: Option<&Annotation>,
    line: Line,
) -> Result<(), Memory>
    ensures { OnOk result (lines.new ≡ lines.old ++ maybe_faulty scope.now evaluated line (option_copied annotation.entry)) }
{
    match annotation {
        None => Ok(()),
        Some(annotation) => lines.add_if(is_wrong(scope, evaluated, annotation), line),
    }
}

fn is_wrong(scope: &Scope, evaluated: bool, annotation: &Annotation) -> bool
    ensures { result ≡ is_faulty_annotation scope.now.whole.items scope.now.front (evaluated && not scope.now.whole.future) annotation.now }
{
    is_faulty(scope, evaluated && !scope.future(), annotation)
}

fn add_body_faults(
    alloc: Global,
    lines: &mut Lines,
    scope: &Scope,
    body: &[Stmt],
) -> Result<(), Memory>
    ensures { OnOk result (lines.new ≡ lines.old ++ found_uses scope.now false (uses_of_body body.now)) }
{
    let mut uses = Uses::new(alloc);
    add_body(&mut uses, body)?;
    add_uses(lines, scope, false, uses.as_slice())
}

fn add_statement(alloc: Global, lines: &mut Lines, scope: &Scope, stmt: &Stmt) -> Result<(), Memory>
    ensures { OnOk result (lines.new ≡ lines.old ++ found_uses scope.now true (uses_in stmt.now nothing)) }
{
    let mut uses = Uses::new(alloc);
    add_stmt(&mut uses, stmt, Around::nothing())?;
    add_uses(lines, scope, true, uses.as_slice())
}

fn add_uses(lines: &mut Lines, scope: &Scope, evaluated: bool, uses: &[Used]) -> Result<(), Memory>
    ensures { OnOk result (lines.new ≡ lines.old ++ found_uses scope.now evaluated uses.now) }
{
    for used in uses {
        add_maybe(lines, scope, evaluated, annotation_in(used), used.line())?;
    }
    Ok(())
}

fn annotation_in<'a, 'm>(used: &'a Used<'m>) -> Option<&'m Annotation>
    ensures { option_copied result ≡ annotation_in used.now.use' }
{
    match used.use_() {
        Use::Annotated(annotation) => Some(annotation),
        Use::Reads(_) => None,
        Use::Binds(_) => None,
        Use::Attribute(_) => None,
        Use::Super(_) => None,
        Use::Argument(_) => None,
        Use::Catches(_) => None,
        Use::Defines(_) => None,
        Use::Based(_) => None,
        Use::Imported(_) => None,
        Use::MixedArguments => None,
        Use::NoLoop => None,
        Use::NoClause => None,
    }
}
