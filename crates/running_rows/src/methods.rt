// Rows of the tables of methods, with their costs.
use crate::acts::Act::{Call, Dict, Method, OfList, Value};
use crate::acts::{Act, Row, first_wrong};
use crate::values::Answer::{Is, Leaves, Made, OutOfSteps, Raises};
use crate::values::Plain::{At, Int, List, Nothing, Range, Text, Texts, Truth, Tuple};
use py_builtins::Builtin::Len;
use py_ops::BinOp::Mul;
use pyn_base::BuiltClass::{AttributeError, IndexError, KeyError, TypeError, ValueError};
use pyn_base::Construct;
use pyn_base::Construct::{Argument, MachineSize, NonAsciiText, UnhashableKey};
use std::test::Fail;

const BARE: &[Row] = &[
    (Method(Text("aB1"), "upper", &[]), Is(Text("AB1")), 3),
    (Method(Text("aB1"), "lower", &[]), Is(Text("ab1")), 3),
    (Method(Text("é"), "upper", &[]), Leaves(NonAsciiText), 1),
    (Method(Text("12"), "isdigit", &[]), Is(Truth(true)), 2),
    (Method(Text(""), "isdigit", &[]), Is(Truth(false)), 0),
    (Method(Text(" a b\t"), "strip", &[]), Is(Text("a b")), 5),
    (
        Method(Text(" a b\u{1f} c\n"), "split", &[]),
        Is(Texts("a|b|c")),
        8,
    ),
    (Method(Text("ab"), "find", &[]), Raises(TypeError), 0),
    (
        Method(Text("ab"), "title", &[]),
        Leaves(Construct::Method),
        0,
    ),
    (Method(Text("ab"), "append", &[]), Raises(AttributeError), 0),
];

const OF_ONE: &[Row] = &[
    (
        Method(Text("1<>2<>"), "split", &[Text("<>")]),
        Is(Texts("1|2|")),
        6,
    ),
    (
        Method(Text("aaaaa"), "split", &[Text("aa")]),
        Is(Texts("||a")),
        5,
    ),
    (Method(Text(""), "split", &[Text(",")]), Is(Texts("")), 0),
    (
        Method(Text("ab"), "split", &[Text("")]),
        Raises(ValueError),
        2,
    ),
    (Method(Text("a "), "split", &[Nothing]), Is(Texts("a")), 2),
    (
        Method(Text("xaxx"), "strip", &[Text("yx")]),
        Is(Text("a")),
        4,
    ),
    (Method(Text(""), "strip", &[Text("x")]), Is(Text("")), 0),
    (Method(Text("a "), "strip", &[Nothing]), Is(Text("a")), 2),
    (Method(Text("a "), "strip", &[Int(1)]), Raises(TypeError), 2),
    (
        Method(Text(", "), "join", &[Texts("a|b|c")]),
        Is(Text("a, b, c")),
        10,
    ),
    (
        Method(Text(","), "join", &[List(&[1])]),
        Raises(TypeError),
        1,
    ),
    (
        Method(Text("ab"), "startswith", &[Text("a")]),
        Is(Truth(true)),
        1,
    ),
    (
        Method(Text("ab"), "startswith", &[Tuple(&[])]),
        Leaves(Argument),
        0,
    ),
    (
        Method(Text("ab"), "endswith", &[Text("a")]),
        Is(Truth(false)),
        1,
    ),
    (
        Method(Text("abacabacabadabacabad"), "find", &[Text("abacabad")]),
        Is(Int(4)),
        28,
    ),
    (
        Method(Text("ababab"), "find", &[Text("abb")]),
        Is(Int(-1)),
        9,
    ),
    (
        Method(Text("abc"), "upper", &[Text("d")]),
        Raises(TypeError),
        0,
    ),
];

const OF_TWO: &[Row] = &[
    (
        Method(Text("ab"), "replace", &[Text(""), Text("-")]),
        Is(Text("-a-b-")),
        7,
    ),
    (
        Method(Text("aaa"), "replace", &[Text("a"), Text("bb")]),
        Is(Text("bbbbbb")),
        9,
    ),
    (
        Method(Text("aaa"), "replace", &[Text("aa"), Text("")]),
        Is(Text("a")),
        4,
    ),
    (
        Method(Text("ab"), "find", &[Text("a"), Int(1)]),
        Leaves(Argument),
        0,
    ),
    (
        Method(Text("ab"), "join", &[Text("a"), Text("b")]),
        Raises(TypeError),
        0,
    ),
];

const OTHERS: &[Row] = &[
    (
        Method(Int(1), "bit_length", &[]),
        Leaves(Construct::Method),
        0,
    ),
    (Method(Int(1), "upper", &[]), Raises(AttributeError), 0),
    (
        Method(Truth(true), "real", &[]),
        Leaves(Construct::Method),
        0,
    ),
    (
        Method(Tuple(&[]), "count", &[]),
        Leaves(Construct::Method),
        0,
    ),
    (
        Method(Range(0, 1, 1), "nothing", &[]),
        Leaves(Construct::Method),
        0,
    ),
    (Method(Nothing, "append", &[]), Raises(AttributeError), 0),
];

const CHANGES: &[Row] = &[
    (OfList("pop", &[], &[5]), Is(Int(6)), 1),
    (OfList("clear", &[], &[]), Is(Nothing), 2),
    (OfList("reverse", &[], &[6, 5]), Is(Nothing), 2),
    (OfList("append", &[Int(7)], &[5, 6, 7]), Is(Nothing), 1),
    (OfList("pop", &[Int(0)], &[6]), Is(Int(5)), 2),
    (OfList("remove", &[Int(6)], &[5]), Is(Nothing), 4),
    (
        OfList("extend", &[Range(7, 9, 1)], &[5, 6, 7, 8]),
        Is(Nothing),
        2,
    ),
    (
        OfList("insert", &[Int(-9), Int(7)], &[7, 5, 6]),
        Is(Nothing),
        3,
    ),
    (
        OfList("insert", &[Int(-1), Int(7)], &[5, 7, 6]),
        Is(Nothing),
        3,
    ),
    (
        OfList("insert", &[Int(9), Int(7)], &[5, 6, 7]),
        Is(Nothing),
        3,
    ),
];

const QUESTIONS: &[Row] = &[
    (OfList("index", &[Int(5)], &[5, 6]), Is(Int(0)), 1),
    (OfList("index", &[Int(7)], &[5, 6]), Raises(ValueError), 2),
    (
        OfList("index", &[Int(5), Int(0)], &[5, 6]),
        Leaves(Argument),
        0,
    ),
    (OfList("count", &[Int(6)], &[5, 6]), Is(Int(1)), 2),
    (OfList("copy", &[], &[5, 6]), Is(List(&[5, 6])), 2),
    (OfList("pop", &[Int(2)], &[5, 6]), Raises(IndexError), 2),
    (
        OfList("pop", &[Int(1 << 62)], &[5, 6]),
        Leaves(MachineSize),
        2,
    ),
    (OfList("remove", &[Int(7)], &[5, 6]), Raises(ValueError), 4),
    (OfList("extend", &[Int(6)], &[5, 6]), Raises(TypeError), 0),
    (OfList("sort", &[], &[5, 6]), Leaves(Construct::Method), 0),
    (OfList("upper", &[], &[5, 6]), Raises(AttributeError), 0),
];

/// A list grows by itself, and one of 120 is too long to be copied.
const GROWTH: &[Row] = &[
    (Value(List(&[5, 6])), Made, 0),
    (Method(At(0), "extend", &[At(0)]), Is(Nothing), 2),
    (Value(At(0)), Is(List(&[5, 6, 5, 6])), 0),
    (Act::Binary(Mul, List(&[7]), Int(60)), Made, 60),
    (Method(At(3), "extend", &[At(3)]), Is(Nothing), 60),
    (Call(Len, &[At(3)]), Is(Int(120)), 0),
    (Method(At(3), "copy", &[]), OutOfSteps, 0),
];

const OF_AN_EMPTY_DICT: &[Row] = &[
    (Dict(&[]), Made, 0),
    (Method(At(0), "get", &[Int(1)]), Is(Nothing), 1),
    (Method(At(0), "get", &[List(&[])]), Raises(TypeError), 1),
    (Method(At(0), "pop", &[Int(1)]), Raises(KeyError), 1),
    (Method(At(0), "pop", &[List(&[])]), Leaves(UnhashableKey), 1),
    (
        Method(At(0), "update", &[Int(1)]),
        Leaves(Construct::Method),
        0,
    ),
    (Method(At(0), "keys", &[Int(1)]), Raises(TypeError), 0),
];

/// A default is put for the key alone.
const DEFAULTS: &[Row] = &[
    (Dict(&[]), Made, 0),
    (Method(At(0), "get", &[Int(1), Int(7)]), Is(Int(7)), 1),
    (Call(Len, &[At(0)]), Is(Int(0)), 0),
    (
        Method(At(0), "setdefault", &[Int(1), Int(7)]),
        Is(Int(7)),
        1,
    ),
    (
        Method(At(0), "setdefault", &[Int(1), Int(8)]),
        Is(Int(7)),
        1,
    ),
    (Method(At(0), "get", &[Int(1), Int(8)]), Is(Int(7)), 1),
    (Call(Len, &[At(0)]), Is(Int(1)), 0),
    (Method(At(0), "pop", &[Int(1), Int(8)]), Is(Int(7)), 2),
    (Method(At(0), "pop", &[Int(1), Int(8)]), Is(Int(8)), 1),
    (Call(Len, &[At(0)]), Is(Int(0)), 0),
];

const TABLES: [(&str, &[Row]); 9] = [
    ("bare", BARE),
    ("of one", OF_ONE),
    ("of two", OF_TWO),
    ("others", OTHERS),
    ("changes", CHANGES),
    ("questions", QUESTIONS),
    ("growth", GROWTH),
    ("of an empty dict", OF_AN_EMPTY_DICT),
    ("defaults", DEFAULTS),
];

#[test]
fn each_method_has_its_row(rt: HostRuntime) -> Result<(), Fail> {
    assert_eq!(rt; first_wrong(rt.alloc(), &TABLES)?, None);
    Ok(())
}
