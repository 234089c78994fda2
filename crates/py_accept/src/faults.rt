// The fault for which a module is refused.
ghost use Rattle.std.specs.Prelude.{◌≡◌, IfOk};
ghost use Rattle.py_plain.specs.Program.{program_of};
ghost use Rattle.py_scopes.specs.Refusals.{refusal};

use crate::earliest::earliest_of;
use py_annotation_rules::{annotations, class_scope};
use py_module_rules::module_faults;
use py_name_rules::name_faults;
use py_syntax::{Line, Module};
use py_tables::Tables;
use pyn_base::{Construct, Memory};
use std::alloc::Global;

/// The line and the construct for which a module is refused, or none where it is accepted. `Memory` where there is no room to judge it.
pub fn module_fault(alloc: Global, tree: &Module) -> Result<Option<(Line, Construct)>, Memory>
    ensures { IfOk result (λ fault. fault ≡ refusal tree.now) }
{
    let tables = Tables::new(alloc, tree)?;
    fault_by(alloc, tree, &tables)
}

/// The same, by the module's tables.
pub(crate) fn fault_by<'m>(
    alloc: Global,
    tree: &'m Module,
    tables: &Tables<'m>,
) -> Result<Option<(Line, Construct)>, Memory>
    requires { tables.now ≡ program_of tree.now }
    ensures { IfOk result (λ fault. fault ≡ refusal tree.now) }
{
    let of_module = module_faults(alloc, tree, tables)?;
    let of_names = name_faults(alloc, tree, tables)?;
    let annotation = annotations(alloc, tree)?;
    let scope = class_scope(alloc, tree)?;
    Ok(earliest_of(&[
        (Construct::TooManyFunctions, of_module.too_many_functions),
        (Construct::Import, of_module.import_order),
        (Construct::ModuleState, of_module.module_state),
        (Construct::ModuleStatement, of_module.module_statement),
        (Construct::ClassStatement, of_module.class_statement),
        (Construct::DuplicateName, of_module.duplicate_name),
        (Construct::SpecialMethod, of_names.special_method),
        (Construct::SpecialName, of_names.special_name),
        (Construct::PrivateName, of_names.private_name),
        (Construct::UnknownBase, of_module.unknown_base),
        (Construct::BaseChain, of_module.base_chain),
        (Construct::Parameters, of_module.parameters),
        (Construct::MutableDefault, of_module.mutable_default),
        (Construct::Default, of_module.defaults),
        (Construct::Annotation, annotation),
        (Construct::ClassScope, scope),
        (Construct::TypingName, of_names.typing_name),
        (Construct::BreakOutsideLoop, of_names.break_outside_loop),
        (Construct::BareRaise, of_names.bare_raise),
        (Construct::ExceptionName, of_names.exception_name),
        (Construct::Super, of_names.super_),
        (Construct::Arguments, of_names.arguments),
        (Construct::UnknownName, of_names.unknown_name),
    ]))
}
