// Classes: the built-in ones, and those of the module.

/// A class of the language itself: the types of the supported subset and its exceptions, as the manual
/// lists them in "Built-in Types" and "Exception hierarchy".
#[derive(Clone, Copy, Debug, PartialEq, Eq)]
pub enum BuiltClass {
    Object,
    Int,
    Bool,
    Str,
    List,
    Dict,
    Tuple,
    Exception,
    ArithmeticError,
    ZeroDivisionError,
    LookupError,
    IndexError,
    KeyError,
    ValueError,
    TypeError,
    AttributeError,
    NameError,
    UnboundLocalError,
    AssertionError,
    RuntimeError,
    NotImplementedError,
}

/// A class, either built in or one of the module, by its place in the order of their lines.
#[derive(Clone, Copy, Debug, PartialEq, Eq)]
pub enum ClassId {
    Built(BuiltClass),
    Own(u32),
}
