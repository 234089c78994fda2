// The ends of the range of integers, and division.
use pyn_base::PyInt;
use std::test::Fail;

const GREATEST: i128 = i128::MAX;

const LEAST: i128 = -i128::MAX;

fn value(n: Option<PyInt>) -> Option<i128> {
    n.map(|n| n.get())
}

#[test]
fn results_beyond_either_end_are_none(rt: HostRuntime) -> Result<(), Fail> {
    let greatest = PyInt::new(GREATEST).ok_or("in range")?;
    let least = PyInt::new(LEAST).ok_or("in range")?;
    let one = PyInt::from(1);
    let two = PyInt::from(2);
    let table = [
        (PyInt::new(i128::MIN), None),
        (greatest.add(one), None),
        (greatest.add(least), Some(0)),
        (least.sub(one), None),
        (least.sub(least), Some(0)),
        (greatest.sub(one), Some(GREATEST - 1)),
        (greatest.mul(two), None),
        (least.mul(one), Some(LEAST)),
        (least.mul(least), None),
    ];
    for (result, expected) in &table {
        assert_eq!(rt; value(*result), *expected);
    }
    Ok(())
}

#[test]
fn division_rounds_down(rt: HostRuntime) -> Result<(), Fail> {
    let table = [
        (7, 2, 3, 1),
        (-7, 2, -4, 1),
        (7, -2, -4, -1),
        (-7, -2, 3, -1),
        (LEAST, -1, GREATEST, 0),
        (GREATEST, -1, LEAST, 0),
    ];
    for (number, by, quotient, rest) in &table {
        let number = PyInt::new(*number).ok_or("in range")?;
        let by = PyInt::new(*by).ok_or("in range")?;
        if !by.is_zero() {
            assert_eq!(rt; number.floor_div(by).get(), *quotient);
            assert_eq!(rt; number.modulo(by).get(), *rest);
        }
    }
    Ok(())
}
