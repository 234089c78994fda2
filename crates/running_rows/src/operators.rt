// Rows of the operators' table: answers, exceptions, what leaves, and what they cost.
use crate::acts::Act::{
    Augment, Binary, Compare, Count, DeleteItem, Dict, Item, PutItem, Signed, Slice, TupleOf, Value,
};
use crate::acts::{Row, UNASKED, first_wrong};
use crate::values::Answer::{Is, Leaves, Made, OutOfSteps, Raises};
use crate::values::Plain;
use crate::values::Plain::{At, Class, Int, List, Nothing, Range, Text, Truth, Tuple};
use py_ops::BinOp::{Add, FloorDiv, Mod, Mul, Sub};
use py_ops::CmpOp::{Contained, Eq, Ge, Gt, Le, Lt, Ne, NotContained, NotSame, Same};
use py_ops::Sign::{Minus, Plus};
use pyn_base::BuiltClass;
use pyn_base::BuiltClass::{IndexError, KeyError, TypeError, ZeroDivisionError};
use pyn_base::Construct::{
    Identity, IntegerRange, MachineSize, StringFormat, SubscriptOfAClass, View,
};
use std::test::Fail;

const GREATEST: Plain = Int(i128::MAX);

/// The greatest count of a machine, and the next number.
const MOST: Plain = Int(1 << 61);

const PAST: Plain = Int((1 << 61) + 1);

const NUMBERS: &[Row] = &[
    (Binary(Add, Int(2), Int(3)), Is(Int(5)), 0),
    (Binary(Sub, Int(2), Int(3)), Is(Int(-1)), 0),
    (Binary(Mul, Int(-2), Truth(true)), Is(Int(-2)), 0),
    (Binary(FloorDiv, Int(-7), Int(2)), Is(Int(-4)), 0),
    (Binary(FloorDiv, Int(7), Int(-2)), Is(Int(-4)), 0),
    (Binary(Mod, Int(-7), Int(2)), Is(Int(1)), 0),
    (Binary(Mod, Int(7), Int(-2)), Is(Int(-1)), 0),
    (Binary(Add, GREATEST, Int(1)), Leaves(IntegerRange), 0),
    (Binary(Mul, GREATEST, GREATEST), Leaves(IntegerRange), 0),
    (Binary(Mod, Int(1), Int(0)), Raises(ZeroDivisionError), 0),
    (Binary(Sub, Nothing, Int(1)), Raises(TypeError), 0),
    (Binary(Mul, Int(1), Range(0, 3, 1)), Leaves(View), 0),
    (Binary(Mod, Text("%d"), Int(1)), Leaves(StringFormat), 0),
    (Signed(Minus, Int(4)), Is(Int(-4)), 0),
    (Signed(Plus, Truth(true)), Is(Int(1)), 0),
    (Signed(Plus, Nothing), Raises(TypeError), 0),
];

const SEQUENCES: &[Row] = &[
    (Binary(Add, Text("a"), Text("bc")), Is(Text("abc")), 3),
    (Binary(Add, Tuple(&[1]), Tuple(&[2])), Is(Tuple(&[1, 2])), 2),
    (Binary(Add, List(&[1]), List(&[2])), Is(List(&[1, 2])), 2),
    (Binary(Mul, Text("ab"), Int(-1)), Is(Text("")), 0),
    (Binary(Mul, Int(2), Text("ab")), Is(Text("abab")), 4),
    (
        Binary(Mul, Tuple(&[1, 2]), Int(2)),
        Is(Tuple(&[1, 2, 1, 2])),
        4,
    ),
    (Binary(Mul, List(&[1]), Int(3)), Is(List(&[1, 1, 1])), 3),
    (Binary(Mul, Text("ab"), MOST), OutOfSteps, 0),
    (Binary(Mul, Text("ab"), PAST), Leaves(MachineSize), 0),
    (Binary(Mul, Text(""), MOST), Is(Text("")), 0),
];

/// A list that is augmented stays the same object.
const AUGMENTED: &[Row] = &[
    (Value(List(&[1, 2])), Made, 0),
    (Augment(Add, At(0), At(0)), Is(List(&[1, 2, 1, 2])), 2),
    (
        Augment(Mul, At(0), Int(2)),
        Is(List(&[1, 2, 1, 2, 1, 2, 1, 2])),
        8,
    ),
    (Compare(Same, At(0), At(2)), Is(Truth(true)), 0),
    (Value(At(0)), Is(List(&[1, 2, 1, 2, 1, 2, 1, 2])), 0),
    (Count, Is(Int(1)), 0),
    (Augment(Add, Int(1), Int(2)), Is(Int(3)), 0),
];

const COMPARED: &[Row] = &[
    (Compare(Lt, Int(1), Int(2)), Is(Truth(true)), 0),
    (Compare(Le, Int(1), Truth(true)), Is(Truth(true)), 0),
    (Compare(Gt, Int(1), Int(2)), Is(Truth(false)), 0),
    (Compare(Ge, Int(1), Truth(true)), Is(Truth(true)), 0),
    (Compare(Eq, Text("ab"), Text("ab")), Is(Truth(true)), 2),
    (Compare(Ne, List(&[1]), List(&[1])), Is(Truth(false)), 1),
    (Compare(Lt, Nothing, Int(1)), Raises(TypeError), 0),
    (Compare(Same, Truth(true), Int(1)), Is(Truth(false)), 0),
    (Compare(NotSame, Nothing, Nothing), Is(Truth(false)), 0),
    (Compare(Same, Int(1), Int(1)), Leaves(Identity), 0),
    (
        Compare(Contained, Int(1), List(&[2, 1, 3])),
        Is(Truth(true)),
        2,
    ),
    (
        Compare(NotContained, Int(6), Tuple(&[4, 5])),
        Is(Truth(true)),
        2,
    ),
    (
        Compare(Contained, Range(0, 1, 1), List(&[])),
        Leaves(View),
        0,
    ),
    (
        Compare(Contained, Text("bc"), Text("abc")),
        Is(Truth(true)),
        5,
    ),
    (
        Compare(Contained, Text("abc"), Text("bc")),
        Is(Truth(false)),
        5,
    ),
    (
        Compare(Contained, Int(3), Text("abc")),
        Raises(TypeError),
        0,
    ),
    (
        Compare(Contained, Int(4), Range(0, 5, 2)),
        Is(Truth(true)),
        0,
    ),
    (
        Compare(Contained, Int(5), Range(0, 5, 2)),
        Is(Truth(false)),
        0,
    ),
    (
        Compare(Contained, Int(3), Range(5, 0, -2)),
        Is(Truth(true)),
        0,
    ),
    (
        Compare(Contained, Nothing, Range(0, 5, 2)),
        Is(Truth(false)),
        0,
    ),
];

/// An element is the left operand of the comparison.
const ELEMENTS: &[Row] = &[
    (
        Dict(&[(Int(1), Range(0, 1, 1)), (Int(2), Text("a"))]),
        Made,
        2,
    ),
    (
        Dict(&[(Int(2), Text("b")), (Int(1), Range(0, 1, 1))]),
        Made,
        2,
    ),
    (TupleOf(&[At(1)]), Made, 0),
    (Compare(Contained, At(0), At(2)), Leaves(View), UNASKED),
];

const ITEMS: &[Row] = &[
    (Item(List(&[7, 8]), Int(-1)), Is(Int(8)), 0),
    (Item(List(&[7, 8]), Int(2)), Raises(IndexError), 0),
    (Item(Tuple(&[7, 8]), Truth(false)), Is(Int(7)), 0),
    (Item(Text("abc"), Truth(true)), Is(Text("b")), 0),
    (Item(Int(1), Int(0)), Raises(TypeError), 0),
    (Item(Range(0, 1, 1), Int(0)), Leaves(View), 0),
    (
        Item(Class(BuiltClass::Int), Int(0)),
        Leaves(SubscriptOfAClass),
        0,
    ),
];

const CHANGED: &[Row] = &[
    (Value(List(&[7, 8])), Made, 0),
    (PutItem(At(0), Int(0), Int(9)), Is(Nothing), 0),
    (Value(At(0)), Is(List(&[9, 8])), 0),
    (PutItem(At(0), Int(2), Int(1)), Raises(IndexError), 0),
    (DeleteItem(At(0), Int(-2)), Is(Nothing), 2),
    (Value(At(0)), Is(List(&[8])), 0),
    (DeleteItem(At(0), Nothing), Raises(TypeError), 1),
    (PutItem(Int(1), Int(0), Int(9)), Raises(TypeError), 0),
];

const KEYS: &[Row] = &[
    (Dict(&[]), Made, 0),
    (PutItem(At(0), Int(1), Int(9)), Is(Nothing), 1),
    (Compare(Contained, Truth(true), At(0)), Is(Truth(true)), 1),
    (Item(At(0), Int(1)), Is(Int(9)), 1),
    (DeleteItem(At(0), Int(1)), Is(Nothing), 2),
    (Item(At(0), Int(1)), Raises(KeyError), 1),
];

const SLICES: &[Row] = &[
    (
        Slice(List(&[1, 2, 3]), Int(-2), Nothing),
        Is(List(&[2, 3])),
        2,
    ),
    (Slice(List(&[1, 2, 3]), Nothing, Int(-9)), Is(List(&[])), 0),
    (
        Slice(List(&[1, 2, 3]), Int(1), Int(9)),
        Is(List(&[2, 3])),
        2,
    ),
    (
        Slice(List(&[1, 2, 3]), Truth(true), Int(2)),
        Is(List(&[2])),
        1,
    ),
    (Slice(Text("abc"), Int(1), Nothing), Is(Text("bc")), 2),
    (Slice(Tuple(&[4, 5]), Int(1), Int(2)), Is(Tuple(&[5])), 1),
    (Slice(Text("abc"), Text("a"), Nothing), Raises(TypeError), 0),
];

const TABLES: [(&str, &[Row]); 9] = [
    ("numbers", NUMBERS),
    ("sequences", SEQUENCES),
    ("augmented", AUGMENTED),
    ("compared", COMPARED),
    ("elements", ELEMENTS),
    ("items", ITEMS),
    ("changed", CHANGED),
    ("keys", KEYS),
    ("slices", SLICES),
];

#[test]
fn each_operator_has_its_row(rt: HostRuntime) -> Result<(), Fail> {
    assert_eq!(rt; first_wrong(rt.alloc(), &TABLES)?, None);
    Ok(())
}
