// The first line that breaks each rule.
ghost use Rattle.std.specs.Prelude.{◌≡◌, IfOk};
ghost use Rattle.py_plain.specs.Program.{program_of};
ghost use Rattle.py_scopes.specs.ModuleRows as rule;
ghost use Rattle.py_scopes.specs.Refusals.{least};

use crate::classes::{base_chain, unknown_base};
use crate::duplicates::duplicate_name;
use crate::functions::{Functions, too_many_functions};
use crate::future_line::import_order;
use crate::parameters::{defaults, mutable_default, parameters};
use crate::statements::{class_statement, module_state, module_statement};
use py_syntax::{Line, Module};
use py_tables::Tables;
use pyn_base::Memory;
use std::alloc::Global;

/// For each rule the least line of a module that breaks it.
#[derive(Drop)]
pub struct ModuleFaults {
    /// A function after the 2,000th.
    pub too_many_functions: Option<Line>,
    /// The future line after anything but a docstring or another such line.
    pub import_order: Option<Line>,
    /// An assignment at the module's level or in a class whose value has a display.
    pub module_state: Option<Line>,
    /// A statement at the module's level other than `pass`, a string, or one name assigned a constant.
    pub module_statement: Option<Line>,
    /// The same in a class.
    pub class_statement: Option<Line>,
    /// A name bound twice at the module's level or in one class, or a built-in's at the module's level.
    pub duplicate_name: Option<Line>,
    /// A base that is no earlier class, `object` or built-in exception.
    pub unknown_base: Option<Line>,
    /// A class with more than 20 classes of the module above it.
    pub base_chain: Option<Line>,
    /// A parameter's name that comes twice, or one without a default after one with a default.
    pub parameters: Option<Line>,
    /// A default with a display.
    pub mutable_default: Option<Line>,
    /// A default that is no constant.
    pub defaults: Option<Line>,
}

/// The first line that breaks each rule, where `tables` are the module's.
pub fn module_faults<'m>(
    alloc: Global,
    tree: &'m Module,
    tables: &Tables<'m>,
) -> Result<ModuleFaults, Memory>
    requires { tables.now ≡ program_of tree.now }
    ensures too_many_functions { IfOk result (λ faults. faults.too_many_functions ≡ least (rule.too_many_functions tree.now)) }
    ensures import_order { IfOk result (λ faults. faults.import_order ≡ least (rule.import_order tree.now)) }
    ensures module_state { IfOk result (λ faults. faults.module_state ≡ least (rule.module_state tree.now)) }
    ensures module_statement { IfOk result (λ faults. faults.module_statement ≡ least (rule.module_statement tree.now)) }
    ensures class_statement { IfOk result (λ faults. faults.class_statement ≡ least (rule.class_statement tree.now)) }
    ensures duplicate_name { IfOk result (λ faults. faults.duplicate_name ≡ least (rule.duplicate_name tree.now)) }
    ensures unknown_base { IfOk result (λ faults. faults.unknown_base ≡ least (rule.unknown_base tree.now)) }
    ensures base_chain { IfOk result (λ faults. faults.base_chain ≡ least (rule.base_chain tree.now)) }
    ensures parameters { IfOk result (λ faults. faults.parameters ≡ least (rule.parameters tree.now)) }
    ensures mutable_default { IfOk result (λ faults. faults.mutable_default ≡ least (rule.mutable_default tree.now)) }
    ensures defaults { IfOk result (λ faults. faults.defaults ≡ least (rule.defaults tree.now)) }
{
    let items = tree.items.as_slice();
    let functions = Functions::of_items(alloc, items)?;
    Ok(ModuleFaults {
        too_many_functions: too_many_functions(alloc, &functions)?,
        import_order: import_order(alloc, items)?,
        module_state: module_state(alloc, items)?,
        module_statement: module_statement(alloc, items)?,
        class_statement: class_statement(alloc, items)?,
        duplicate_name: duplicate_name(alloc, items)?,
        unknown_base: unknown_base(alloc, items)?,
        base_chain: base_chain(alloc, tables, items)?,
        parameters: parameters(alloc, &functions)?,
        mutable_default: mutable_default(alloc, items)?,
        defaults: defaults(alloc, items)?,
    })
}
