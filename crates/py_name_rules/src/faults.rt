// The least line of each rule of names.
ghost use Rattle.std.specs.Prelude.{◌≡◌, IfOk};
ghost use Rattle.py_plain.specs.Program.{program_of};
ghost use Rattle.py_scopes.specs.NameRows.{special_method, special_name, private_name, typing_name, break_outside_loop, bare_raise, exception_name, super, arguments, unknown_name};
ghost use Rattle.py_scopes.specs.Refusals.{least};

use crate::earliest::least_line;
use crate::known::{imports_in, module_names};
use crate::rules::{
    Arguments, BareRaise, BreakOutsideLoop, ExceptionName, PrivateName, SpecialMethod, SpecialName,
    Super, TypingName, UnknownName,
};
use crate::site::sites_of;
use py_syntax::{Line, Module};
use py_tables::Tables;
use py_uses::pieces_of;
use pyn_base::Memory;
use std::alloc::Global;

/// For each rule of names the least line that breaks it, if there is one.
#[derive(Clone, Copy, Debug, PartialEq, Eq)]
pub struct NameFaults {
    /// A `def` with two underscores at both ends of its name, but `__init__` in a class.
    pub special_method: Option<Line>,
    /// Any other name with two underscores at both ends.
    pub special_name: Option<Line>,
    /// In a class, a name that begins with two underscores.
    pub private_name: Option<Line>,
    /// A name of typing that isn't there, or that is used outside of annotations.
    pub typing_name: Option<Line>,
    /// `break` or `continue` outside of a loop.
    pub break_outside_loop: Option<Line>,
    /// `raise` alone outside of an `except` clause.
    pub bare_raise: Option<Line>,
    /// A clause's name that is no exception class.
    pub exception_name: Option<Line>,
    /// `super` otherwise used than called in a method.
    pub super_: Option<Line>,
    /// A plain argument after a named one, or a name twice.
    pub arguments: Option<Line>,
    /// A name that nothing binds.
    pub unknown_name: Option<Line>,
}

/// The faults of a module by the rules of names, where `tables` are the module's.
pub fn name_faults<'m>(
    alloc: Global,
    tree: &'m Module,
    tables: &Tables<'m>,
) -> Result<NameFaults, Memory>
    requires { tables.now ≡ program_of tree.now }
    ensures special_method { IfOk result (λ faults. faults.special_method ≡ least (special_method tree.now)) }
    ensures special_name { IfOk result (λ faults. faults.special_name ≡ least (special_name tree.now)) }
    ensures private_name { IfOk result (λ faults. faults.private_name ≡ least (private_name tree.now)) }
    ensures typing_name { IfOk result (λ faults. faults.typing_name ≡ least (typing_name tree.now)) }
    ensures break_outside_loop { IfOk result (λ faults. faults.break_outside_loop ≡ least (break_outside_loop tree.now)) }
    ensures bare_raise { IfOk result (λ faults. faults.bare_raise ≡ least (bare_raise tree.now)) }
    ensures exception_name { IfOk result (λ faults. faults.exception_name ≡ least (exception_name tree.now)) }
    ensures misused_super { IfOk result (λ faults. faults.super_ ≡ least (super tree.now)) }
    ensures arguments { IfOk result (λ faults. faults.arguments ≡ least (arguments tree.now)) }
    ensures unknown_name { IfOk result (λ faults. faults.unknown_name ≡ least (unknown_name tree.now)) }
{
    let names = module_names(alloc, tree.items.as_slice())?;
    let imported = imports_in(alloc, tree.items.as_slice())?;
    let pieces = pieces_of(alloc, tree)?;
    let sites = sites_of(alloc, pieces.as_slice())?;
    let all = sites.as_slice();
    Ok(NameFaults {
        special_method: least_line(&SpecialMethod, all),
        special_name: least_line(&SpecialName, all),
        private_name: least_line(&PrivateName, all),
        typing_name: least_line(
            &TypingName {
                imported: &imported,
            },
            all,
        ),
        break_outside_loop: least_line(&BreakOutsideLoop, all),
        bare_raise: least_line(&BareRaise, all),
        exception_name: least_line(&ExceptionName { tables }, all),
        super_: least_line(&Super, all),
        arguments: least_line(&Arguments, all),
        unknown_name: least_line(&UnknownName { names: &names }, all),
    })
}
