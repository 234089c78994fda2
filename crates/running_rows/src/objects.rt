// Rows of the table of objects: what its calls do and cost, and each public call that no method and no operator makes.
use crate::acts::Act::{
    Call, Changes, Compare, DeleteItem, Dict, Doubled, Item, Key, ListOf, Method, Nested,
    NestedTuple, PutItem,
};
use crate::acts::{Row, UNASKED, first_wrong};
use crate::values::Answer::{Is, Leaves, Made, Raises};
use crate::values::Plain::{At, Int, List, Nothing, Range, Text, Truth, Tuple};
use crate::values::{done, int, is_int, tuple};
use py_builtins::Builtin;
use py_builtins::Builtin::{Bool, Len};
use py_objects::{ObjKind, Objects, Value};
use py_ops::CmpOp::{Eq, Le, Lt};
use pyn_base::BuiltClass::{KeyError, TypeError};
use pyn_base::Construct::{ComparisonDepth, TupleDepth};
use pyn_base::{ClassId, Fuel, Name, ObjId, PyInt};
use std::alloc::Global;
use std::test::Fail;

/// Equal lists cost their parts, and a list and itself nothing.
const EQUAL: &[Row] = &[
    (ListOf(&[Int(1), Text("ab")]), Made, 0),
    (ListOf(&[Int(1), Text("ab")]), Made, 0),
    (Compare(Eq, At(0), At(1)), Is(Truth(true)), 4),
    (Compare(Eq, At(0), At(0)), Is(Truth(true)), 0),
    (Compare(Lt, At(0), At(1)), Is(Truth(false)), UNASKED),
    (Compare(Le, At(0), At(1)), Is(Truth(true)), UNASKED),
    (Call(Bool, &[At(0)]), Is(Truth(true)), 0),
];

/// True is the key 1, and each change of the keys counts.
const KEYS: &[Row] = &[
    (Dict(&[(Int(1), Text("a"))]), Made, 1),
    (PutItem(At(0), Truth(true), Text("b")), Is(Nothing), 1),
    (Call(Len, &[At(0)]), Is(Int(1)), 0),
    (Key(At(0), 0), Is(Int(1)), 0),
    (Changes(At(0)), Is(Int(1)), 0),
    (Item(At(0), Int(1)), Is(Text("b")), 1),
    (Item(At(0), Int(2)), Raises(KeyError), 1),
    (DeleteItem(At(0), Int(1)), Is(Nothing), 2),
    (Changes(At(0)), Is(Int(2)), 0),
    (PutItem(At(0), Int(3), Int(4)), Is(Nothing), 1),
    (Method(At(0), "copy", &[]), Made, 1),
    (Method(At(0), "clear", &[]), Is(Nothing), 1),
    (Call(Len, &[At(10)]), Is(Int(1)), 0),
    (Call(Len, &[At(0)]), Is(Int(0)), 0),
    (Changes(At(0)), Is(Int(4)), 0),
];

/// A dict of more than a few keys finds them as a small one does, also after a deletion and in a copy.
const MANY_KEYS: &[Row] = &[
    (
        Dict(&[
            (Int(0), Int(0)),
            (Int(1), Int(1)),
            (Int(2), Int(2)),
            (Int(3), Int(3)),
            (Int(4), Int(4)),
            (Int(5), Int(5)),
            (Int(6), Int(6)),
            (Int(7), Int(7)),
            (Text("ab"), Int(8)),
        ]),
        Made,
        11,
    ),
    (Item(At(0), Text("ab")), Is(Int(8)), 3),
    (PutItem(At(0), Truth(true), Text("b")), Is(Nothing), 1),
    (Item(At(0), Int(1)), Is(Text("b")), 1),
    (Item(At(0), Int(9)), Raises(KeyError), 1),
    (DeleteItem(At(0), Int(0)), Is(Nothing), 10),
    (Item(At(0), Int(0)), Raises(KeyError), 1),
    (Item(At(0), Int(7)), Is(Int(7)), 1),
    (Key(At(0), 0), Is(Int(1)), 0),
    (Method(At(0), "copy", &[]), Made, 8),
    (Compare(Eq, At(0), At(9)), Is(Truth(true)), UNASKED),
    (PutItem(At(9), Int(0), Int(0)), Is(Nothing), 1),
    (Key(At(9), 8), Is(Int(0)), 0),
    (Item(At(9), Int(0)), Is(Int(0)), 1),
    (Call(Len, &[At(0)]), Is(Int(8)), 0),
];

/// Lists are compared to level 50, and one that holds itself has no end.
const DEPTHS: &[Row] = &[
    (Nested(50), Made, 0),
    (Nested(50), Made, 0),
    (Compare(Eq, At(0), At(1)), Is(Truth(true)), UNASKED),
    (Nested(51), Made, 0),
    (Nested(51), Made, 0),
    (Compare(Eq, At(3), At(4)), Leaves(ComparisonDepth), UNASKED),
    (ListOf(&[]), Made, 0),
    (ListOf(&[]), Made, 0),
    (Method(At(6), "append", &[At(6)]), Is(Nothing), 1),
    (Method(At(7), "append", &[At(7)]), Is(Nothing), 1),
    (Compare(Eq, At(6), At(7)), Leaves(ComparisonDepth), UNASKED),
    (Call(Builtin::List, &[At(6)]), Made, 1),
];

/// Tuples are at most 50 deep.
const TUPLES: &[Row] = &[
    (Dict(&[]), Made, 0),
    (NestedTuple(49), Made, 0),
    (PutItem(At(0), Int(1), At(1)), Is(Nothing), 1),
    (Method(At(0), "items", &[]), Made, 0),
    (Call(Builtin::List, &[At(3)]), Made, 1),
    (NestedTuple(50), Made, 0),
    (PutItem(At(0), Int(1), At(5)), Is(Nothing), 1),
    (Call(Builtin::List, &[At(3)]), Leaves(TupleDepth), UNASKED),
    (Call(Builtin::Tuple, &[At(5)]), Made, 1),
    (ListOf(&[At(5)]), Made, 0),
    (Call(Builtin::Tuple, &[At(9)]), Leaves(TupleDepth), UNASKED),
];

/// `t = (t, t)` forty times over: its depth is found without a visit of all its parts.
const SHARED: &[Row] = &[
    (Doubled(40), Made, 0),
    (ListOf(&[At(0)]), Made, 0),
    (Call(Builtin::Tuple, &[At(1)]), Made, 1),
];

const WALKED: &[Row] = &[
    (
        Call(Builtin::List, &[Range(0, 5, 2)]),
        Is(List(&[0, 2, 4])),
        3,
    ),
    (
        Call(Builtin::List, &[Range(5, 0, -2)]),
        Is(List(&[5, 3, 1])),
        3,
    ),
    (Call(Builtin::List, &[Range(0, 4, 2)]), Is(List(&[0, 2])), 2),
    (Call(Builtin::List, &[Range(0, 0, 1)]), Is(List(&[])), 0),
    (Call(Builtin::List, &[Range(1, 0, 1)]), Is(List(&[])), 0),
    (
        Call(Builtin::List, &[Range(-3, 3, 3)]),
        Is(List(&[-3, 0])),
        2,
    ),
    (Call(Bool, &[Range(1, 0, 1)]), Is(Truth(false)), 0),
    (Call(Builtin::Tuple, &[At(0)]), Is(Tuple(&[0, 2, 4])), 3),
    (Call(Builtin::List, &[Int(1)]), Raises(TypeError), 0),
];

const TABLES: [(&str, &[Row]); 7] = [
    ("equal", EQUAL),
    ("keys", KEYS),
    ("many keys", MANY_KEYS),
    ("depths", DEPTHS),
    ("tuples", TUPLES),
    ("shared", SHARED),
    ("walked", WALKED),
];

#[test]
fn objects_have_their_rows(rt: HostRuntime) -> Result<(), Fail> {
    assert_eq!(rt; first_wrong(rt.alloc(), &TABLES)?, None);
    Ok(())
}

/// The first item of a list.
fn first(objects: &Objects, list: ObjId) -> i128 {
    match objects.list_get(list, PyInt::from(0)) {
        Some(Value::Int(n)) => n.get(),
        _ => -1,
    }
}

#[test]
fn a_fork_is_apart(rt: HostRuntime) -> Result<(), Fail> {
    let mut objects = Objects::new(rt.alloc())?;
    let list = done(objects.make_list(&[int(1)], &mut Fuel::new(100)))?;
    let mut fork = objects.fork()?;
    done(fork.list_set(list, PyInt::from(0), int(2)))?;
    assert_eq!(rt; (first(&objects, list), first(&fork, list)), (1, 2));
    fork.cut(0);
    assert_eq!(rt; (objects.count(), fork.count()), (1, 0));
    Ok(())
}

#[test]
fn instances_keep_their_attributes(rt: HostRuntime) -> Result<(), Fail> {
    let alloc = rt.alloc();
    let mut objects = Objects::new(alloc)?;
    let instance = objects.make_instance(ClassId::Own(0), None)?;
    let name = Name::from_str(alloc, "x")?;
    objects.attr_set(instance, &name, int(1))?;
    objects.attr_set(instance, &name, int(2))?;
    assert_eq!(rt; objects.size(instance), 1);
    match objects.attr_at(instance, 0) {
        Some((at, value)) => assert!(rt; at.is("x") && is_int(value, 2)),
        None => assert!(rt; false),
    }
    assert!(rt; objects.attr_get(instance, &name).is_some());
    assert!(rt; objects.args(instance).is_none());
    objects.set_args(instance, tuple(alloc, Vec::new(alloc))?)?;
    assert!(rt; objects.args(instance).is_some());
    assert!(rt; objects.kind(instance) == ObjKind::Instance(ClassId::Own(0)));
    Ok(())
}
