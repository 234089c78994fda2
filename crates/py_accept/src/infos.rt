// What is known of functions and classes, from the module's tables.
ghost use Rattle.std.specs.Prelude.{◌≡◌, [], map, IfOk};
ghost use Rattle.py_accept.specs.Accepted.{first_of_each, func_info, class_info};

use py_copies::copy_expr;
use py_name_sets::NameSet;
use py_syntax::Expr;
use py_tables::{ClassRow, FunctionRow};
use pyn_base::{ClassId, FuncId, Memory, Name, NodeId};
use sqlite_items::Items;
use std::alloc::Global;

/// A function of an accepted module.
#[derive(Drop)]
pub struct FuncInfo {
    pub name: Name,
    /// The number of the class in which it is written.
    pub class: Option<u32>,
    pub node: NodeId,
    /// Every name that it binds, once each: its parameters, then the others in the order in which they are bound first.
    pub locals: Items<Name>,
}

/// A class of an accepted module.
#[derive(Drop)]
pub struct ClassInfo {
    pub name: Name,
    /// An earlier class of the module or a built-in one; `object` where none is named.
    pub base: ClassId,
    /// The numbers of its methods, in order.
    pub methods: Items<FuncId>,
    /// Its constants with the expressions of their values, in order.
    pub constants: Items<(Name, Expr)>,
}

/// Each of the names once, in the order in which they come first.
fn names_of(alloc: Global, names: &[&Name]) -> Result<Items<Name>, Memory>
    ensures { IfOk result (λ all. all ≡ first_of_each [] (map (λ name. name.now) names.now)) }
{
    let mut seen = NameSet::new(alloc);
    let mut all = Items::new(alloc);
    for name in names {
        if !seen.insert(*name)? {
            all.push(Name::to_owned(*name, alloc)?)?;
        }
    }
    Ok(all)
}

fn func_info(alloc: Global, row: &FunctionRow) -> Result<FuncInfo, Memory>
    ensures { IfOk result (λ info. info ≡ func_info row.now) }
{
    let tree = row.tree();
    Ok(FuncInfo {
        name: tree.name.to_owned(alloc)?,
        class: row.owner(),
        node: tree.node,
        locals: names_of(alloc, row.locals().names())?,
    })
}

/// What is known of functions, in their order.
pub(crate) fn func_infos(alloc: Global, rows: &[FunctionRow]) -> Result<Items<FuncInfo>, Memory>
    ensures { IfOk result (λ infos. infos ≡ map func_info rows.now) }
{
    let mut infos = Items::new(alloc);
    for row in rows {
        infos.push(func_info(alloc, row)?)?;
    }
    Ok(infos)
}

fn method_ids(alloc: Global, rows: &[(&Name, FuncId)]) -> Result<Items<FuncId>, Memory>
    ensures { IfOk result (λ ids. ids ≡ map (λ row. row.1) rows.now) }
{
    let mut ids = Items::new(alloc);
    for row in rows {
        ids.push(row.1)?;
    }
    Ok(ids)
}

fn constants_of(alloc: Global, rows: &[(&Name, &Expr)]) -> Result<Items<(Name, Expr)>, Memory>
    ensures { IfOk result (λ all. all ≡ map (λ row. (row.0.now, row.1.now)) rows.now) }
{
    let mut all = Items::new(alloc);
    for row in rows {
        let value = copy_expr(alloc, row.1)?;
        all.push((row.0.to_owned(alloc)?, value))?;
    }
    Ok(all)
}

fn class_info(alloc: Global, row: &ClassRow) -> Result<ClassInfo, Memory>
    ensures { IfOk result (λ info. info ≡ class_info row.now) }
{
    Ok(ClassInfo {
        name: row.name().to_owned(alloc)?,
        base: row.base(),
        methods: method_ids(alloc, row.methods())?,
        constants: constants_of(alloc, row.constants())?,
    })
}

/// What is known of classes, in their order.
pub(crate) fn class_infos(alloc: Global, rows: &[ClassRow]) -> Result<Items<ClassInfo>, Memory>
    ensures { IfOk result (λ infos. infos ≡ map class_info rows.now) }
{
    let mut infos = Items::new(alloc);
    for row in rows {
        infos.push(class_info(alloc, row)?)?;
    }
    Ok(infos)
}
