// The names of the methods (the manual, "Built-in Types").
ghost use Rattle.std.specs.Prelude.{◌≡◌, bytes_eq, chars, map};
ghost use Rattle.std.specs.List.{list_any};
ghost use Rattle.py_meaning.specs.Methods.{named, is_among, list_methods, dict_methods, text_methods, left_of_list, left_of_dict, left_of_tuple, left_of_integer, left_of_text};

use py_meaning::{DictMethod, ListMethod, TextMethod};
use pyn_base::Name;

/// The method that a table has under a name.
fn method_named<M: Copy>(rows: &[(&str, M)], name: &Name) -> Option<M>
    ensures { result ≡ named (map (λ row. (chars row.0.now, row.1)) rows.now) name.now }
{
    for row in rows {
        if name.is(row.0) {
            return Some(row.1);
        }
    }
    None
}

/// Whether a name is one of these.
fn is_among(names: &[&str], name: &Name) -> bool
    ensures { result ≡ list_any (λ other. bytes_eq name.now (chars other.now)) names.now }
{
    names.iter().any(|other| name.is(*other))
}

/// The method of lists that a name is.
#[tactic(auto, unfolding(std::specs::Prelude::chars))]
pub(crate) fn list_method_named(name: &Name) -> Option<ListMethod>
    ensures { result ≡ named list_methods name.now }
{
    method_named(
        &[
            ("append", ListMethod::Append),
            ("pop", ListMethod::Pop),
            ("insert", ListMethod::Insert),
            ("extend", ListMethod::Extend),
            ("remove", ListMethod::Remove),
            ("index", ListMethod::Index),
            ("count", ListMethod::Count),
            ("clear", ListMethod::Clear),
            ("copy", ListMethod::Copy),
            ("reverse", ListMethod::Reverse),
        ],
        name,
    )
}

/// The method of dicts that a name is.
#[tactic(auto, unfolding(std::specs::Prelude::chars))]
pub(crate) fn dict_method_named(name: &Name) -> Option<DictMethod>
    ensures { result ≡ named dict_methods name.now }
{
    method_named(
        &[
            ("get", DictMethod::Get),
            ("setdefault", DictMethod::SetDefault),
            ("pop", DictMethod::Pop),
            ("keys", DictMethod::Keys),
            ("values", DictMethod::Values),
            ("items", DictMethod::Items),
            ("clear", DictMethod::Clear),
            ("copy", DictMethod::Copy),
        ],
        name,
    )
}

/// The method of strings that a name is.
#[tactic(auto, unfolding(std::specs::Prelude::chars))]
pub(crate) fn text_method_named(name: &Name) -> Option<TextMethod>
    ensures { result ≡ named text_methods name.now }
{
    method_named(
        &[
            ("upper", TextMethod::Upper),
            ("lower", TextMethod::Lower),
            ("isdigit", TextMethod::IsDigit),
            ("strip", TextMethod::Strip),
            ("split", TextMethod::Split),
            ("join", TextMethod::Join),
            ("startswith", TextMethod::StartsWith),
            ("endswith", TextMethod::EndsWith),
            ("replace", TextMethod::Replace),
            ("find", TextMethod::Find),
        ],
        name,
    )
}

// Python's methods that the subset hasn't.

#[tactic(auto, unfolding(std::specs::Prelude::chars))]
pub(crate) fn is_unsupported_list_method(name: &Name) -> bool
    ensures { result ≡ is_among left_of_list name.now }
{
    is_among(&["sort"], name)
}

#[tactic(auto, unfolding(std::specs::Prelude::chars))]
pub(crate) fn is_unsupported_dict_method(name: &Name) -> bool
    ensures { result ≡ is_among left_of_dict name.now }
{
    is_among(&["fromkeys", "popitem", "update"], name)
}

#[tactic(auto, unfolding(std::specs::Prelude::chars))]
pub(crate) fn is_unsupported_tuple_method(name: &Name) -> bool
    ensures { result ≡ is_among left_of_tuple name.now }
{
    is_among(&["count", "index"], name)
}

/// Of integers and truth values.
#[tactic(auto, unfolding(std::specs::Prelude::chars))]
pub(crate) fn is_unsupported_integer_method(name: &Name) -> bool
    ensures { result ≡ is_among left_of_integer name.now }
{
    is_among(
        &[
            "as_integer_ratio",
            "bit_count",
            "bit_length",
            "conjugate",
            "denominator",
            "from_bytes",
            "imag",
            "numerator",
            "real",
            "to_bytes",
        ],
        name,
    )
}

#[tactic(auto, unfolding(std::specs::Prelude::chars))]
pub(crate) fn is_unsupported_text_method(name: &Name) -> bool
    ensures { result ≡ is_among left_of_text name.now }
{
    is_among(
        &[
            "capitalize",
            "casefold",
            "center",
            "count",
            "encode",
            "expandtabs",
            "format",
            "format_map",
            "index",
            "isalnum",
            "isalpha",
            "isascii",
            "isdecimal",
            "isidentifier",
            "islower",
            "isnumeric",
            "isprintable",
            "isspace",
            "istitle",
            "isupper",
            "ljust",
            "lstrip",
            "maketrans",
            "partition",
            "removeprefix",
            "removesuffix",
            "rfind",
            "rindex",
            "rjust",
            "rpartition",
            "rsplit",
            "rstrip",
            "splitlines",
            "swapcase",
            "title",
            "translate",
            "zfill",
        ],
        name,
    )
}
