// The rows.
use crate::runs::Ends::{Leaves, Normal, OutOfSteps, Over, Raises};
use crate::runs::{Row, UNASKED, first_wrong};
use pyn_base::BuiltClass::{UnboundLocalError, ZeroDivisionError};
use pyn_base::Construct::{CallDepth, ComparisonDepth, IntegerRange};
use std::test::Fail;

pub(crate) const ALIASES_TEXT: &str =
    "def f(a: list, b: list) -> int:\n    a += [1]\n    return len(b)\n";

const ALIASES: Row = (
    ALIASES_TEXT,
    "var_0 = []\nvar_1 = module_0.f(var_0, var_0)\nassert var_0 == [1]\nassert var_1 == 1\n",
    &[
        (Normal, 2),
        (Normal, 15),
        (Normal, UNASKED),
        (Normal, UNASKED),
    ],
);

pub(crate) const PAST_THE_RANGE_TEXT: &str =
    "def double(a: int) -> int:\n    b = a * 2\n    return b\n";

/// What leaves the subset ends the machine.
const PAST_THE_RANGE: Row = (
    PAST_THE_RANGE_TEXT,
    "var_0 = 85070591730234615865843651857942052864\nvar_1 = 1\nvar_2 = module_0.double(var_1)\nvar_3 = module_0.double(var_0)\nvar_4 = 1\n",
    &[
        (Normal, UNASKED),
        (Normal, UNASKED),
        (Normal, UNASKED),
        (Leaves(IntegerRange), UNASKED),
        (Over, UNASKED),
    ],
);

const DIVISION: Row = (
    "def f() -> int:\n    return 1 // 0\n",
    "assert -7 // 2 == -4\nassert -7 % 2 == 1\nassert 7 % -2 == -1\nvar_0 = module_0.f()\n",
    &[
        (Normal, UNASKED),
        (Normal, UNASKED),
        (Normal, UNASKED),
        (Raises(ZeroDivisionError), UNASKED),
    ],
);

/// A `finally` block's end replaces the one under way.
const FINALLY: Row = (
    "def f():\n    try:\n        raise ValueError(\"x\")\n    finally:\n        return 3\n\ndef g():\n    n = 0\n    while True:\n        n += 1\n        try:\n            continue\n        finally:\n            break\n    return n\n",
    "var_0 = module_0.f()\nassert var_0 == 3\nvar_1 = module_0.g()\nassert var_1 == 1\n",
    &[
        (Normal, UNASKED),
        (Normal, UNASKED),
        (Normal, UNASKED),
        (Normal, UNASKED),
    ],
);

const ONE_KEY: Row = (
    "def f():\n    d = {}\n    d[1] = \"a\"\n    d[True] = \"b\"\n    return d\n",
    "var_0 = module_0.f()\nassert var_0 == {1: \"b\"}\n",
    &[(Normal, UNASKED), (Normal, UNASKED)],
);

/// A loop walks what its list has at each turn.
const GROWING: Row = (
    "def f(a: list) -> int:\n    for x in a:\n        if len(a) < 5:\n            a.append(x)\n    return len(a)\n",
    "var_0 = 7\nvar_1 = [var_0]\nvar_2 = module_0.f(var_1)\nassert var_2 == 5\nassert var_1 == [7, 7, 7, 7, 7]\n",
    &[
        (Normal, UNASKED),
        (Normal, UNASKED),
        (Normal, UNASKED),
        (Normal, UNASKED),
        (Normal, UNASKED),
    ],
);

pub(crate) const UNBOUND_TEXT: &str =
    "def u(k: int) -> int:\n    try:\n        [][k]\n    except IndexError as e:\n        k = 1\n    return e\n";

/// The name after `as` is bound no more after its clause.
const UNBOUND: Row = (
    UNBOUND_TEXT,
    "var_0 = 0\nvar_1 = module_0.u(var_0)\n",
    &[(Normal, UNASKED), (Raises(UnboundLocalError), UNASKED)],
);

/// One instance is held by a list, an attribute and a local.
const SHARED: Row = (
    "class Box:\n    def __init__(self, n):\n        self.n = n\n        self.of = None\n\ndef f():\n    a = Box(1)\n    b = Box(2)\n    b.of = a\n    held = [a]\n    b.of.n = 5\n    return (held[0].n, b.of.n, a.n)\n",
    "var_0 = module_0.f()\nassert var_0 == (5, 5, 5)\n",
    &[(Normal, UNASKED), (Normal, UNASKED)],
);

/// Nothing goes on without end.
const ENDLESS: Row = (
    "def spin():\n    while True:\n        pass\n",
    "var_0 = module_0.spin()\nvar_1 = 1\n",
    &[(OutOfSteps, 20000), (Over, UNASKED)],
);

const GROWING_TEXT: Row = (
    "def grow():\n    s = \"a\"\n    while True:\n        s = s + s\n",
    "var_0 = module_0.grow()\n",
    &[(OutOfSteps, UNASKED)],
);

const TOO_DEEP: Row = (
    "def again():\n    return again()\n",
    "var_0 = module_0.again()\n",
    &[(Leaves(CallDepth), UNASKED)],
);

/// Lists that hold themselves: one is the same as itself, and two are compared without end.
const ENDLESS_LISTS: Row = (
    "def same():\n    a = []\n    a.append(a)\n    return a == a\n\ndef two():\n    a = []\n    a.append(a)\n    b = []\n    b.append(b)\n    return a == b\n",
    "var_0 = module_0.same()\nassert var_0 is True\nvar_1 = module_0.two()\n",
    &[
        (Normal, UNASKED),
        (Normal, UNASKED),
        (Leaves(ComparisonDepth), UNASKED),
    ],
);

#[test]
fn each_test_ends_as_its_row_says(rt: HostRuntime) -> Result<(), Fail> {
    let rows = [
        ALIASES,
        PAST_THE_RANGE,
        DIVISION,
        FINALLY,
        ONE_KEY,
        GROWING,
        UNBOUND,
        SHARED,
        ENDLESS,
        GROWING_TEXT,
        TOO_DEEP,
        ENDLESS_LISTS,
    ];
    assert_eq!(rt; first_wrong(rt.alloc(), &rows)?, None);
    Ok(())
}
