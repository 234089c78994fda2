// Classes and their bases (Language Reference 3.2, "Custom classes").
ghost use Rattle.std.specs.Prelude.{◌≡◌, ◌∷◌, map};
ghost use Rattle.std.specs.List.{list_any};
ghost use Rattle.py_meaning.specs.Values.{place_of_class, same_class};
ghost use Rattle.py_plain.specs.Classes.{base_of_class, derives, is_exception, method_of, method_named};
ghost use Rattle.py_plain.specs.BuiltNames.{built_bases as bases_of};

use crate::built::built_bases;
use crate::tables::Tables;
use pyn_base::{BuiltClass, ClassId, FuncId, Name};

fn place_of_class(class: BuiltClass) -> u32
    ensures { result ≡ place_of_class class }
{
    class as u32
}

/// Whether two classes are one.
fn is_same_class(a: ClassId, b: ClassId) -> bool
    ensures { result ≡ same_class a b }
{
    match (a, b) {
        (ClassId::Built(a), ClassId::Built(b)) => place_of_class(a) == place_of_class(b),
        (ClassId::Own(a), ClassId::Own(b)) => a == b,
        _ => false,
    }
}

fn is_among_built(classes: &[BuiltClass], above: ClassId) -> bool
    ensures { result ≡ list_any (same_class above) (map ClassId.Built classes.now) }
{
    for class in classes {
        if is_same_class(above, ClassId::Built(*class)) {
            return true;
        }
    }
    false
}

/// Whether a built-in class is another or derived from it.
fn built_derives(class: BuiltClass, above: ClassId) -> bool
    ensures { result ≡ list_any (same_class above) (map ClassId.Built (class ∷ bases_of class)) }
{
    if is_same_class(above, ClassId::Built(class)) {
        return true;
    }
    is_among_built(built_bases(class), above)
}

impl<'m> Tables<'m> {
    /// The base of a class; that of a built-in one counts as `object`.
    pub fn base(&self, class: ClassId) -> ClassId
        ensures { result ≡ base_of_class self.now class }
    {
        match class {
            ClassId::Built(_) => ClassId::Built(BuiltClass::Object),
            ClassId::Own(number) => match self.class(number) {
                Some(row) => row.base(),
                None => ClassId::Built(BuiltClass::Object),
            },
        }
    }

    /// Whether a class is another or derived from it.
    pub fn derives(&self, class: ClassId, above: ClassId) -> bool
        ensures { result ≡ derives self.now class above }
    {
        let mut class = class;
        let mut left = self.classes().len();
        loop {
            match class {
                ClassId::Built(built) => return built_derives(built, above),
                ClassId::Own(_) => {
                    if left == 0 {
                        return false;
                    }
                    if is_same_class(above, class) {
                        return true;
                    }
                    left -= 1;
                    class = self.base(class);
                }
            }
        }
    }

    /// Whether the instances of a class are exceptions.
    pub fn is_exception(&self, class: ClassId) -> bool
        ensures { result ≡ is_exception self.now class }
    {
        self.derives(class, ClassId::Built(BuiltClass::Exception))
    }

    /// The method of a name that is written in this very class.
    pub fn method_of(&self, class: ClassId, name: &Name) -> Option<FuncId>
        ensures { result ≡ method_of self.now class name.now }
    {
        match class {
            ClassId::Built(_) => None,
            ClassId::Own(number) => match self.class(number) {
                Some(row) => row.method(name),
                None => None,
            },
        }
    }

    /// The method of a name in a class or in the nearest above it.
    pub fn method_named(&self, class: ClassId, name: &Name) -> Option<FuncId>
        ensures { result ≡ method_named self.now class name.now }
    {
        let mut class = class;
        let mut left = self.classes().len();
        loop {
            match class {
                ClassId::Built(_) => return None,
                ClassId::Own(_) => {
                    if left == 0 {
                        return None;
                    }
                    if let Some(method) = self.method_of(class, name) {
                        return Some(method);
                    }
                    left -= 1;
                    class = self.base(class);
                }
            }
        }
    }
}
