// The rules, each with the test that defines it.
ghost use Rattle.std.specs.Prelude.{◌≡◌};
ghost use Rattle.py_scopes.specs.NameRows.{special_def, typing_use, no_loop, no_clause, no_exception, wrong_super, mixed, is_unknown};
ghost use Rattle.py_uses.specs.Seen.{seen};

use crate::earliest::Rule;
use crate::exceptions::is_exception_name;
use crate::known::{is_built_name, is_typing_name};
use crate::scope::Scope;
use crate::underscores::{Spelling, is_spelled, mentions, names};
use py_name_sets::NameSet;
use py_tables::Tables;
use py_uses::Use;

/// A `def` with two underscores at both ends of its name, but `__init__` in a class.
pub(crate) struct SpecialMethod;

impl Rule for SpecialMethod {
    ghost use Rattle.py_scopes.specs.NameRows.{special_def};

    ghost breaks = { λ rule. special_def };

    #[tactic(auto, unfolding(std::specs::Prelude::chars))]
    fn is_broken<'m>(&self, scope: &Scope<'m>, use_: Use<'m>) -> bool {
        match use_ {
            Use::Defines(name) => {
                is_spelled(Spelling::Special, name) && !(scope.is_in_class() && name.is("__init__"))
            }
            _ => false,
        }
    }
}

/// Any other name with two underscores at both ends, but `__init__` after `super().`.
pub(crate) struct SpecialName;

impl Rule for SpecialName {
    ghost use Rattle.std.specs.List.{list_any};
    ghost use Rattle.py_scopes.specs.NameRows.{is_special, mentioned};

    ghost breaks = { λ rule place u. list_any is_special (mentioned u) };

    fn is_broken<'m>(&self, _scope: &Scope<'m>, use_: Use<'m>) -> bool {
        mentions(Spelling::Special, use_)
    }
}

/// In a class, a name that begins with two underscores and doesn't end with them.
pub(crate) struct PrivateName;

impl Rule for PrivateName {
    ghost use Rattle.std.specs.Prelude.{◌&&◌};
    ghost use Rattle.std.specs.List.{list_any};
    ghost use Rattle.py_scopes.specs.NameRows.{in_a_class, is_private, named_in};

    ghost breaks = { λ rule place u. in_a_class place && list_any is_private (named_in u) };

    fn is_broken<'m>(&self, scope: &Scope<'m>, use_: Use<'m>) -> bool {
        scope.in_a_class() && names(Spelling::Private, use_)
    }
}

/// An import from typing of a name that isn't there, or a name imported from typing outside of annotations.
#[derive(Drop)]
pub(crate) struct TypingName<'s, 'm> {
    pub(crate) imported: &'s NameSet<'m>,
}

impl<'s, 'm> Rule for TypingName<'s, 'm> {
    ghost use Rattle.py_scopes.specs.NameRows.{typing_use};

    ghost breaks = { λ rule. typing_use rule.imported.now };

    fn is_broken<'u>(&self, scope: &Scope<'u>, use_: Use<'u>) -> bool {
        match use_ {
            Use::Imported(name) => !is_typing_name(name),
            Use::Reads(name) => self.imported.has(name) && !scope.has_local(name),
            Use::Catches(name) => self.imported.has(name) && !scope.has_local(name),
            _ => false,
        }
    }
}

/// `break` or `continue` outside of a loop of its function.
pub(crate) struct BreakOutsideLoop;

impl Rule for BreakOutsideLoop {
    ghost use Rattle.py_scopes.specs.NameRows.{no_loop};

    ghost breaks = { λ rule. no_loop };

    fn is_broken<'m>(&self, _scope: &Scope<'m>, use_: Use<'m>) -> bool {
        match use_ {
            Use::NoLoop => true,
            _ => false,
        }
    }
}

/// `raise` alone outside of an `except` clause, or with a `finally` block between.
pub(crate) struct BareRaise;

impl Rule for BareRaise {
    ghost use Rattle.py_scopes.specs.NameRows.{no_clause};

    ghost breaks = { λ rule. no_clause };

    fn is_broken<'m>(&self, _scope: &Scope<'m>, use_: Use<'m>) -> bool {
        match use_ {
            Use::NoClause => true,
            _ => false,
        }
    }
}

/// A clause's name that is no exception class, or is a local.
#[derive(Drop)]
pub(crate) struct ExceptionName<'s, 'm> {
    pub(crate) tables: &'s Tables<'m>,
}

impl<'s, 'm> Rule for ExceptionName<'s, 'm> {
    ghost use Rattle.py_scopes.specs.NameRows.{no_exception};

    ghost breaks = { λ rule. no_exception rule.tables.now };

    fn is_broken<'u>(&self, scope: &Scope<'u>, use_: Use<'u>) -> bool {
        match use_ {
            Use::Catches(name) => scope.has_local(name) || !is_exception_name(self.tables, name),
            _ => false,
        }
    }
}

/// `super` otherwise used than called in a method with a parameter, which nothing binds again.
pub(crate) struct Super;

impl Rule for Super {
    ghost use Rattle.py_scopes.specs.NameRows.{wrong_super};

    ghost breaks = { λ rule. wrong_super };

    #[tactic(auto, unfolding(std::specs::Prelude::chars))]
    fn is_broken<'m>(&self, scope: &Scope<'m>, use_: Use<'m>) -> bool {
        match use_ {
            Use::Super(_) => !scope.may_call_super(),
            Use::Reads(name) => name.is("super"),
            Use::Binds(name) => name.is("super") && !scope.is_in_class(),
            Use::Defines(name) => name.is("super") && !scope.is_in_class(),
            Use::Imported(name) => name.is("super"),
            _ => false,
        }
    }
}

/// A plain argument after a named one, or a name twice.
pub(crate) struct Arguments;

impl Rule for Arguments {
    ghost use Rattle.py_scopes.specs.NameRows.{mixed};

    ghost breaks = { λ rule. mixed };

    fn is_broken<'m>(&self, _scope: &Scope<'m>, use_: Use<'m>) -> bool {
        match use_ {
            Use::MixedArguments => true,
            _ => false,
        }
    }
}

/// A name read that is no local, no name of the module and none of those that are always there.
#[derive(Drop)]
pub(crate) struct UnknownName<'s, 'm> {
    pub(crate) names: &'s NameSet<'m>,
}

impl<'s, 'm> Rule for UnknownName<'s, 'm> {
    ghost use Rattle.py_scopes.specs.NameRows.{is_unknown};

    ghost breaks = { λ rule. is_unknown rule.names.now };

    fn is_broken<'u>(&self, scope: &Scope<'u>, use_: Use<'u>) -> bool {
        match use_ {
            Use::Reads(name) => {
                !scope.has_local(name) && !self.names.has(name) && !is_built_name(name)
            }
            _ => false,
        }
    }
}
