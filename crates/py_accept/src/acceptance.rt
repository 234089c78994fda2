// Acceptance of a module.
ghost use Rattle.std.specs.Prelude.{◌≡◌};
ghost use Rattle.py_syntax.specs.Gives.{Gives};
ghost use Rattle.py_accept.specs.Accepted.{accepted};

use crate::faults::fault_by;
use crate::infos::{ClassInfo, FuncInfo, class_infos, func_infos};
use py_syntax::{Module, Refusal};
use py_tables::Tables;
use sqlite_items::Items;
use std::alloc::Global;

/// A module that is accepted, with its functions and classes, each in the order of their lines.
#[derive(Drop)]
pub struct Accepted {
    tree: Module,
    funcs: Items<FuncInfo>,
    classes: Items<ClassInfo>,
}

impl Accepted {
    /// The module, as it was read.
    pub fn module(&self) -> &Module
        ensures { result.now ≡ self.now.tree }
    {
        &self.tree
    }

    /// Its functions and methods. A `FuncId` is a place among them.
    pub fn funcs(&self) -> &[FuncInfo]
        ensures { result.now ≡ self.now.funcs }
    {
        self.funcs.as_slice()
    }

    /// Its classes. The number of a class is its place among them.
    pub fn classes(&self) -> &[ClassInfo]
        ensures { result.now ≡ self.now.classes }
    {
        self.classes.as_slice()
    }
}

/// Accepts a module that was read, or refuses it for the line and the construct of its earliest fault. `Memory` where there is no room.
pub fn accept(alloc: Global, tree: Module) -> Result<Accepted, Refusal>
    ensures { Gives result (accepted tree) }
{
    let (funcs, classes) = {
        let tables = Tables::new(alloc, &tree)?;
        if let Some((line, construct)) = fault_by(alloc, &tree, &tables)? {
            return Err(Refusal::Refused { line, construct });
        }
        (
            func_infos(alloc, tables.functions())?,
            class_infos(alloc, tables.classes())?,
        )
    };
    Ok(Accepted {
        tree,
        funcs,
        classes,
    })
}
