// Rows of the built-in functions, with their costs.
use crate::acts::Act::{Binary, Call, Count, Dict, Exception, ListOf};
use crate::acts::{Row, UNASKED, first_wrong};
use crate::values::Answer::{Is, Leaves, Made, OutOfSteps, Raises};
use crate::values::Plain::{At, Int, List, Nothing, Range, Text, Texts, Truth, Tuple};
use py_builtins::Builtin;
use py_builtins::Builtin::{Abs, Bool, Len, Max, Min, Str, Sum};
use py_ops::BinOp::Mul;
use pyn_base::BuiltClass::{KeyError, TypeError, ValueError};
use pyn_base::Construct::{
    Argument, ExceptionText, IntegerRange, MachineSize, NonAsciiText, StrOf,
};
use std::test::Fail;

/// The greatest integer, and one below the least.
const MOST: &str = "170141183460469231731687303715884105727";

const PAST: &str = "-170141183460469231731687303715884105728";

/// The greatest position of a machine.
const MACHINE: i128 = 1 << 61;

const NUMBERS: &[Row] = &[
    (Call(Len, &[Text("ab")]), Is(Int(2)), 0),
    (Call(Len, &[Range(0, 5, 2)]), Is(Int(3)), 0),
    (Call(Len, &[Int(7)]), Raises(TypeError), 0),
    (Call(Abs, &[Int(-7)]), Is(Int(7)), 0),
    (Call(Abs, &[Truth(true)]), Is(Int(1)), 0),
    (Call(Abs, &[Text("a")]), Raises(TypeError), 0),
    (Call(Bool, &[]), Is(Truth(false)), 0),
    (Call(Bool, &[Text("")]), Is(Truth(false)), 0),
    (Call(Bool, &[Range(0, 5, 1)]), Is(Truth(true)), 0),
    (Call(Builtin::Print, &[Int(1), Int(2)]), Is(Nothing), 0),
    (Call(Builtin::Isinstance, &[Int(1)]), Leaves(Argument), 0),
    (Call(Builtin::Object, &[]), Leaves(Argument), 0),
];

const TEXTS: &[Row] = &[
    (Call(Str, &[]), Is(Text("")), 0),
    (Call(Str, &[Nothing]), Is(Text("None")), 4),
    (Call(Str, &[Truth(true)]), Is(Text("True")), 4),
    (Call(Str, &[Int(-12)]), Is(Text("-12")), 3),
    (Call(Str, &[Text("ab")]), Is(Text("ab")), 2),
    (Call(Str, &[Range(0, 5, 1)]), Leaves(StrOf), 0),
    (Call(Str, &[Text("a"), Text("b")]), Leaves(Argument), 0),
    (
        Call(Str, &[Nothing, Nothing, Nothing, Nothing]),
        Raises(TypeError),
        0,
    ),
];

const INTEGERS: &[Row] = &[
    (Call(Builtin::Int, &[]), Is(Int(0)), 0),
    (Call(Builtin::Int, &[Text(" -1_000\n")]), Is(Int(-1000)), 8),
    (Call(Builtin::Int, &[Text("+007")]), Is(Int(7)), 4),
    (Call(Builtin::Int, &[Text("1__0")]), Raises(ValueError), 4),
    (Call(Builtin::Int, &[Text("1_")]), Raises(ValueError), 2),
    (Call(Builtin::Int, &[Text("- 1")]), Raises(ValueError), 3),
    (
        Call(Builtin::Int, &[Text("\u{1c}1")]),
        Raises(ValueError),
        2,
    ),
    (Call(Builtin::Int, &[Text("é")]), Leaves(NonAsciiText), 1),
    (Call(Builtin::Int, &[Text(MOST)]), Is(Int(i128::MAX)), 39),
    (Call(Builtin::Int, &[Text(PAST)]), Leaves(IntegerRange), 40),
    (Call(Builtin::Int, &[Truth(true)]), Is(Int(1)), 0),
    (Call(Builtin::Int, &[Nothing]), Raises(TypeError), 0),
    (
        Call(Builtin::Int, &[Text("7"), Int(10)]),
        Leaves(Argument),
        0,
    ),
];

const BEST: &[Row] = &[
    (Call(Min, &[Int(3), Int(1), Int(1)]), Is(Int(1)), 3),
    (Call(Min, &[Truth(true), Int(1)]), Is(Truth(true)), 2),
    (Call(Min, &[Range(5, 0, -2)]), Is(Int(1)), 3),
    (Call(Min, &[List(&[])]), Raises(ValueError), 0),
    (Call(Min, &[]), Raises(TypeError), 0),
    (Call(Max, &[Int(1), Truth(true)]), Is(Int(1)), 2),
    (Call(Max, &[Texts("a|ab")]), Is(Text("ab")), 3),
    (Call(Max, &[Int(1), Nothing]), Raises(TypeError), 2),
    (Call(Max, &[Int(1)]), Raises(TypeError), 0),
];

const RANGES: &[Row] = &[
    (Call(Builtin::Range, &[Int(3)]), Is(Range(0, 3, 1)), 0),
    (
        Call(Builtin::Range, &[Int(2), Int(5)]),
        Is(Range(2, 5, 1)),
        0,
    ),
    (
        Call(Builtin::Range, &[Int(0), Int(5), Int(-2)]),
        Is(Range(0, 5, -2)),
        0,
    ),
    (
        Call(Builtin::Range, &[Int(0), Int(5), Int(0)]),
        Raises(ValueError),
        0,
    ),
    (
        Call(Builtin::Range, &[Int(MACHINE)]),
        Is(Range(0, 1 << 61, 1)),
        0,
    ),
    (
        Call(Builtin::Range, &[Int(MACHINE + 1)]),
        Leaves(MachineSize),
        0,
    ),
    (
        Call(Builtin::Range, &[Int(-MACHINE - 1), Int(0)]),
        Leaves(MachineSize),
        0,
    ),
    (
        Call(Builtin::Range, &[Int(MACHINE + 1), Text("a")]),
        Raises(TypeError),
        0,
    ),
    (Call(Builtin::Range, &[]), Raises(TypeError), 0),
];

const SUMS: &[Row] = &[
    (Call(Sum, &[Range(1, 3, 1)]), Is(Int(3)), 2),
    (Call(Sum, &[List(&[1, 2]), Int(10)]), Is(Int(13)), 2),
    (Call(Sum, &[Text("ab"), Text("")]), Raises(TypeError), 2),
    (Call(Sum, &[Text("ab")]), Raises(TypeError), 2),
    (Call(Sum, &[Int(1)]), Raises(TypeError), 0),
    (Call(Builtin::List, &[]), Is(List(&[])), 0),
    (Call(Builtin::List, &[Text("ab")]), Is(Texts("a|b")), 2),
    (Call(Builtin::Tuple, &[]), Is(Tuple(&[])), 0),
    (
        Call(Builtin::Tuple, &[Range(0, 3, 1)]),
        Is(Tuple(&[0, 1, 2])),
        3,
    ),
    (Call(Builtin::Dict, &[List(&[])]), Leaves(Argument), 0),
];

/// A sum of lists makes a list for each.
const JOINED: &[Row] = &[
    (ListOf(&[List(&[1]), List(&[2, 3])]), Made, 0),
    (Call(Sum, &[At(0), List(&[])]), Is(List(&[1, 2, 3])), 6),
    (Count, Is(Int(6)), 0),
];

/// A sum that is out of steps leaves no list.
const UNJOINED: &[Row] = &[
    (Binary(Mul, List(&[7]), Int(60)), Made, 60),
    (ListOf(&[At(0), At(0)]), Made, 0),
    (Call(Sum, &[At(1), List(&[])]), OutOfSteps, 62),
    (Count, Is(Int(4)), 0),
];

const COPIES: &[Row] = &[
    (Dict(&[(Truth(true), Nothing)]), Made, 1),
    (Call(Builtin::Dict, &[At(0)]), Made, 1),
    (Call(Len, &[At(1)]), Is(Int(1)), 0),
];

const EXCEPTIONS: &[Row] = &[
    (Exception(ValueError, Some(&[Text("x")])), Made, 0),
    (Call(Str, &[At(0)]), Is(Text("x")), 1),
    (Exception(ValueError, Some(&[])), Made, 0),
    (Call(Str, &[At(2)]), Is(Text("")), 0),
    (Exception(ValueError, Some(&[Int(1), Int(2)])), Made, 0),
    (Call(Str, &[At(4)]), Leaves(StrOf), UNASKED),
    (Exception(ValueError, None), Made, 0),
    (Call(Str, &[At(6)]), Leaves(ExceptionText), UNASKED),
    (Exception(KeyError, Some(&[Text("x")])), Made, 0),
    (Call(Str, &[At(8)]), Leaves(StrOf), UNASKED),
];

const TABLES: [(&str, &[Row]); 10] = [
    ("numbers", NUMBERS),
    ("texts", TEXTS),
    ("integers", INTEGERS),
    ("best", BEST),
    ("ranges", RANGES),
    ("sums", SUMS),
    ("joined", JOINED),
    ("unjoined", UNJOINED),
    ("copies", COPIES),
    ("exceptions", EXCEPTIONS),
];

#[test]
fn each_call_has_its_row(rt: HostRuntime) -> Result<(), Fail> {
    assert_eq!(rt; first_wrong(rt.alloc(), &TABLES)?, None);
    Ok(())
}
