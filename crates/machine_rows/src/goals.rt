// How many goals modules have.
use crate::runs::read;
use goal_graph::Goals;
use py_frames::Chains;
use std::test::Fail;

/// A classifier of triangles by their sides.
const TRIANGLE: &str =
    "def classify(a: int, b: int, c: int) -> str:\n    if a <= 0 or b <= 0 or c <= 0:\n        raise ValueError(\"side\")\n    if a + b <= c or a + c <= b or b + c <= a:\n        return \"none\"\n    if a == b and b == c:\n        return \"equilateral\"\n    if a == b or b == c or a == c:\n        return \"isosceles\"\n    return \"scalene\"\n";

/// Two functions of the sample module.
const SAMPLE: &str =
    "def f_0(a: int, b: int, c: list) -> int:\n    x = a * 1\n    if x < b + 0:\n        c.append(x)\n        return x - b\n    for y in c:\n        if y == 0:\n            raise ValueError(\"f_0\")\n        x += 1\n    return x\n\n\ndef f_1(a: int, b: int, c: list) -> int:\n    x = a * 2\n    if x < b + 1:\n        c.append(x)\n        return x - b\n    for y in c:\n        if y == 3:\n            raise ValueError(\"f_1\")\n        x += 2\n    return x\n";

#[test]
fn branches_lines_and_entries_are_goals(rt: HostRuntime) -> Result<(), Fail> {
    let alloc = rt.alloc();
    assert_eq!(rt; Goals::of(alloc, &read(alloc, TRIANGLE)?)?.count(), 18);
    assert_eq!(rt; Goals::of(alloc, &read(alloc, SAMPLE)?)?.count(), 32);
    Ok(())
}
