// The built-in functions and methods of the subset (the manual, "Built-in Functions" and "Built-in Types").

/// A built-in function or type that is called by its name.
#[derive(Clone, Copy, Debug, PartialEq, Eq)]
pub enum Builtin {
    Len,
    Abs,
    Min,
    Max,
    Sum,
    Str,
    Int,
    Bool,
    List,
    Tuple,
    Dict,
    Range,
    Isinstance,
    Print,
    Object,
}

/// A method of lists.
#[derive(Clone, Copy, Debug, PartialEq, Eq)]
pub enum ListMethod {
    Append,
    Pop,
    Insert,
    Extend,
    Remove,
    Index,
    Count,
    Clear,
    Copy,
    Reverse,
}

/// A method of dicts.
#[derive(Clone, Copy, Debug, PartialEq, Eq)]
pub enum DictMethod {
    Get,
    SetDefault,
    Pop,
    Keys,
    Values,
    Items,
    Clear,
    Copy,
}

/// A method of strings.
#[derive(Clone, Copy, Debug, PartialEq, Eq)]
pub enum TextMethod {
    Upper,
    Lower,
    IsDigit,
    Strip,
    Split,
    Join,
    StartsWith,
    EndsWith,
    Replace,
    Find,
}
