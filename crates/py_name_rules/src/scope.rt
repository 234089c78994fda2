// A place with the names that are local there.
ghost use Rattle.std.specs.Prelude.{◌≡◌, IfOk};
ghost use Rattle.py_scopes.specs.NameRows.{is_local, is_in_class, in_a_class, may_call_super};
ghost use Rattle.py_uses.specs.Seen.{place_seen};
ghost use Rattle.py_name_rules.specs.Places.{params_in, bound_in};

use crate::bound::{names_of_body, names_of_params};
use py_name_sets::NameSet;
use py_uses::Place;
use pyn_base::{Memory, Name};
use std::alloc::Global;
use std::marker::Model;

/// A place, with the names that are local there. A contract sees the place alone.
#[derive(Drop)]
pub(crate) struct Scope<'m> {
    place: Place<'m>,
    params: NameSet<'m>,
    bound: NameSet<'m>,
}

impl<'m> Model for Scope<'m> {
    ghost use Rattle.std.specs.Coded.{codes};
    ghost use Rattle.py_syntax.specs.contracts.module.Class as class;
    ghost use Rattle.py_syntax.specs.contracts.module.Func as func;
    ghost use Rattle.py_scopes.specs.Pieces.{Place as OnePlace};

    ghost Value = { OnePlace };

    ghost coded = { Prim.hlevel (codes, class.the_row.coded, func.the_row.coded) };

    ghost use Rattle.py_uses.specs.Seen.{place_seen};
    ghost use Rattle.py_name_rules.specs.Places.{HasLocals};

    ghost view = { λ s. place_seen s.place };

    ghost invariant = { λ s. HasLocals (place_seen s.place) s.params s.bound };
}

impl<'m> Scope<'m> {
    pub(crate) fn new(alloc: Global, place: Place<'m>) -> Result<Scope<'m>, Memory>
        ensures { IfOk result (λ scope. scope ≡ place_seen place.entry) }
    {
        Ok(Scope {
            place,
            params: params_in(alloc, place)?,
            bound: bound_in(alloc, place)?,
        })
    }

    /// Whether a name is local here.
    #[tactic(auto, using(crate::proofs::Locals::local_is))]
    pub(crate) fn has_local(&self, name: &Name) -> bool
        ensures { result ≡ is_local self.now name.now }
    {
        self.params.has(name) || self.bound.has(name)
    }

    /// Whether this is a class's own level.
    pub(crate) fn is_in_class(&self) -> bool
        ensures { result ≡ is_in_class self.now }
    {
        match self.place {
            Place::AtModule => false,
            Place::InClass(_) => true,
            Place::InBody(_, _) => false,
        }
    }

    /// Whether this is in a class, at its level or in one of its functions.
    pub(crate) fn in_a_class(&self) -> bool
        ensures { result ≡ in_a_class self.now }
    {
        match self.place {
            Place::AtModule => false,
            Place::InClass(_) => true,
            Place::InBody(owner, _) => owner.is_some(),
        }
    }

    /// Whether `super` may be called here: in a method, whose first parameter nothing binds again.
    pub(crate) fn may_call_super(&self) -> bool
        ensures { result ≡ may_call_super self.now }
    {
        match self.place {
            Place::AtModule => false,
            Place::InClass(_) => false,
            Place::InBody(owner, f) => match owner {
                None => false,
                Some(_) => match f.params.get(0) {
                    None => false,
                    Some(first) => !self.bound.has(&first.name),
                },
            },
        }
    }
}

fn params_in<'m>(alloc: Global, place: Place<'m>) -> Result<NameSet<'m>, Memory>
    ensures { IfOk result (λ names. names ≡ params_in (place_seen place.entry)) }
{
    match place {
        Place::AtModule => Ok(NameSet::new(alloc)),
        Place::InClass(_) => Ok(NameSet::new(alloc)),
        Place::InBody(_, f) => names_of_params(alloc, f),
    }
}

fn bound_in<'m>(alloc: Global, place: Place<'m>) -> Result<NameSet<'m>, Memory>
    ensures { IfOk result (λ names. names ≡ bound_in (place_seen place.entry)) }
{
    match place {
        Place::AtModule => Ok(NameSet::new(alloc)),
        Place::InClass(_) => Ok(NameSet::new(alloc)),
        Place::InBody(_, f) => names_of_body(alloc, f),
    }
}
