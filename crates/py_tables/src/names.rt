// The names of the methods of built-in types, and Python's own that the subset hasn't (the manual, "Built-in Types").
ghost use Rattle.std.specs.Prelude.{◌≡◌, bytes_eq, chars};
ghost use Rattle.std.specs.List.{list_any};
ghost use Rattle.py_meaning.specs.Methods.{named, is_among, list_methods, dict_methods, text_methods, left_of_list, left_of_dict, left_of_tuple, left_of_integer, left_of_text};
ghost use Rattle.py_plain.specs.Names.{is_some};

use crate::built::row_named;
use py_meaning::{DictMethod, ListMethod, TextMethod};
use pyn_base::Name;

/// Whether a name is one of these.
fn is_among(names: &[&str], name: &Name) -> bool
    ensures { result ≡ list_any (λ other. bytes_eq name.now (chars other.now)) names.now }
{
    names.iter().any(|other| name.is(*other))
}

/// Whether a name is a method of lists.
#[tactic(auto, unfolding(std::specs::Prelude::chars))]
pub fn is_list_method(name: &Name) -> bool
    ensures { result ≡ is_some (named list_methods name.now) }
{
    row_named(
        &[
            ("append", ListMethod::Append),
            ("pop", ListMethod::Pop),
            ("insert", ListMethod::Insert),
            ("extend", ListMethod::Extend),
            ("remove", ListMethod::Remove),
            ("index", ListMethod::Index),
            ("count", ListMethod::Count),
            ("clear", ListMethod::Clear),
            ("copy", ListMethod::Copy),
            ("reverse", ListMethod::Reverse),
        ],
        name,
    )
    .is_some()
}

/// Whether a name is a method of dicts.
#[tactic(auto, unfolding(std::specs::Prelude::chars))]
pub fn is_dict_method(name: &Name) -> bool
    ensures { result ≡ is_some (named dict_methods name.now) }
{
    row_named(
        &[
            ("get", DictMethod::Get),
            ("setdefault", DictMethod::SetDefault),
            ("pop", DictMethod::Pop),
            ("keys", DictMethod::Keys),
            ("values", DictMethod::Values),
            ("items", DictMethod::Items),
            ("clear", DictMethod::Clear),
            ("copy", DictMethod::Copy),
        ],
        name,
    )
    .is_some()
}

/// Whether a name is a method of strings.
#[tactic(auto, unfolding(std::specs::Prelude::chars))]
pub fn is_text_method(name: &Name) -> bool
    ensures { result ≡ is_some (named text_methods name.now) }
{
    row_named(
        &[
            ("upper", TextMethod::Upper),
            ("lower", TextMethod::Lower),
            ("isdigit", TextMethod::IsDigit),
            ("strip", TextMethod::Strip),
            ("split", TextMethod::Split),
            ("join", TextMethod::Join),
            ("startswith", TextMethod::StartsWith),
            ("endswith", TextMethod::EndsWith),
            ("replace", TextMethod::Replace),
            ("find", TextMethod::Find),
        ],
        name,
    )
    .is_some()
}

/// Whether a name is a method of Python's lists that the subset hasn't.
#[tactic(auto, unfolding(std::specs::Prelude::chars))]
pub fn is_left_of_list(name: &Name) -> bool
    ensures { result ≡ is_among left_of_list name.now }
{
    is_among(&["sort"], name)
}

/// Whether a name is a method of Python's dicts that the subset hasn't.
#[tactic(auto, unfolding(std::specs::Prelude::chars))]
pub fn is_left_of_dict(name: &Name) -> bool
    ensures { result ≡ is_among left_of_dict name.now }
{
    is_among(&["fromkeys", "popitem", "update"], name)
}

/// Whether a name is a method of Python's tuples that the subset hasn't.
#[tactic(auto, unfolding(std::specs::Prelude::chars))]
pub fn is_left_of_tuple(name: &Name) -> bool
    ensures { result ≡ is_among left_of_tuple name.now }
{
    is_among(&["count", "index"], name)
}

/// Whether a name is a method of Python's integers and truth values that the subset hasn't.
#[tactic(auto, unfolding(std::specs::Prelude::chars))]
pub fn is_left_of_integer(name: &Name) -> bool
    ensures { result ≡ is_among left_of_integer name.now }
{
    is_among(
        &[
            "as_integer_ratio",
            "bit_count",
            "bit_length",
            "conjugate",
            "denominator",
            "from_bytes",
            "imag",
            "numerator",
            "real",
            "to_bytes",
        ],
        name,
    )
}

/// Whether a name is a method of Python's strings that the subset hasn't.
#[tactic(auto, unfolding(std::specs::Prelude::chars))]
pub fn is_left_of_text(name: &Name) -> bool
    ensures { result ≡ is_among left_of_text name.now }
{
    is_among(
        &[
            "capitalize",
            "casefold",
            "center",
            "count",
            "encode",
            "expandtabs",
            "format",
            "format_map",
            "index",
            "isalnum",
            "isalpha",
            "isascii",
            "isdecimal",
            "isidentifier",
            "islower",
            "isnumeric",
            "isprintable",
            "isspace",
            "istitle",
            "isupper",
            "ljust",
            "lstrip",
            "maketrans",
            "partition",
            "removeprefix",
            "removesuffix",
            "rfind",
            "rindex",
            "rjust",
            "rpartition",
            "rsplit",
            "rstrip",
            "splitlines",
            "swapcase",
            "title",
            "translate",
            "zfill",
        ],
        name,
    )
}
