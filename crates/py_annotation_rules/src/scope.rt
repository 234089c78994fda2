// What an annotation may name where it stands.
ghost use Rattle.std.specs.Prelude.{◌≡◌, [], ◌++◌, IfOk, OnOk};
ghost use Rattle.py_meaning.specs.Methods.{is_among};
ghost use Rattle.py_scopes.specs.Names.{classes_in, imports_in, imported_in};
ghost use Rattle.py_module_rules.specs.Pieces.{with_class};

use py_name_sets::NameSet;
use py_syntax::{Item, Module};
use pyn_base::{Memory, Name};
use std::alloc::Global;
use std::marker::Model;

/// The classes and the imported names of a module, and those before an item of it. A contract sees the module and the items before.
#[derive(Drop)]
pub(crate) struct Scope<'s, 'm> {
    pub(crate) tree: &'m Module,
    pub(crate) before: &'s [Item],
    pub(crate) classes: &'s NameSet<'m>,
    pub(crate) imports: &'s NameSet<'m>,
    pub(crate) classes_before: &'s NameSet<'m>,
    pub(crate) imports_before: &'s NameSet<'m>,
}

impl<'s, 'm> Model for Scope<'s, 'm> {
    ghost use Rattle.std.specs.Coded.{codes};
    ghost use Rattle.py_syntax.specs.contracts.module.Item as one;
    ghost use Rattle.py_syntax.specs.contracts.module.Module as whole;
    ghost use Rattle.py_annotation_rules.specs.Before.{Before, IsScope};

    ghost Value = { Before };

    ghost coded = { Prim.hlevel (codes, one.the_row.coded, whole.the_row.coded) };

    ghost view = { λ s. record { whole = s.tree.now; front = s.before.now } };

    ghost invariant = { λ s. IsScope s.tree.now.items s.before.now s.classes.now s.imports.now s.classes_before.now s.imports_before.now };
}

impl<'s, 'm> Scope<'s, 'm> {
    /// Whether the module has the future line.
    pub(crate) fn future(&self) -> bool
        ensures { result ≡ self.now.whole.future }
    {
        self.tree.future
    }

    /// Whether a class of the module has a name.
    pub(crate) fn is_class(&self, name: &Name) -> bool
        ensures { result ≡ is_among (classes_in self.now.whole.items) name.now }
    {
        self.classes.has(name)
    }

    pub(crate) fn is_import(&self, name: &Name) -> bool
        ensures { result ≡ is_among (imports_in self.now.whole.items) name.now }
    {
        self.imports.has(name)
    }

    pub(crate) fn is_earlier_class(&self, name: &Name) -> bool
        ensures { result ≡ is_among (classes_in self.now.front) name.now }
    {
        self.classes_before.has(name)
    }

    pub(crate) fn is_earlier_import(&self, name: &Name) -> bool
        ensures { result ≡ is_among (imports_in self.now.front) name.now }
    {
        self.imports_before.has(name)
    }
}

/// The names of classes and imports of items.
#[derive(Drop)]
pub(crate) struct Known<'m> {
    pub(crate) classes: NameSet<'m>,
    pub(crate) imports: NameSet<'m>,
}

impl<'m> Known<'m> {
    pub(crate) fn new(alloc: Global) -> Known<'m>
        ensures classes { result.classes ≡ [] }
        ensures imports { result.imports ≡ [] }
    {
        Known {
            classes: NameSet::new(alloc),
            imports: NameSet::new(alloc),
        }
    }

    pub(crate) fn of_items(alloc: Global, items: &'m [Item]) -> Result<Known<'m>, Memory>
        ensures classes { IfOk result (λ known. known.classes ≡ classes_in items.now) }
        ensures imports { IfOk result (λ known. known.imports ≡ imports_in items.now) }
    {
        let mut known = Known::new(alloc);
        for item in items {
            known.add_item(item)?;
        }
        Ok(known)
    }

    /// Adds the names of an item.
    pub(crate) fn add_item(&mut self, item: &'m Item) -> Result<(), Memory>
        ensures classes { OnOk result (self.new.classes ≡ with_class self.old.classes item.now) }
        ensures imports { OnOk result (self.new.imports ≡ self.old.imports ++ imported_in item.now) }
    {
        match item {
            Item::Func(_) => Ok(()),
            Item::Class(c) => {
                self.classes.insert(&c.name)?;
                Ok(())
            }
            Item::Import(_, names) => self.add_imports(names.as_slice()),
            Item::Other(_) => Ok(()),
        }
    }

    fn add_imports(&mut self, names: &'m [Name]) -> Result<(), Memory>
        ensures classes { OnOk result (self.new.classes ≡ self.old.classes) }
        ensures imports { OnOk result (self.new.imports ≡ self.old.imports ++ names.now) }
    {
        for name in names {
            self.imports.insert(name)?;
        }
        Ok(())
    }
}
