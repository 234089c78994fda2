// Ranges: how many integers they have, and which.
ghost use Rattle.std.specs.Prelude.{◌≡◌, ◌^◌, pos, negsuc, ◌+ℤ◌, ◌<ℤ◌, ◌≤ℤ◌, IfOk};
ghost use Rattle.py_meaning.specs.Values.{range_length, steps_over};
ghost use Rattle.py_meaning.specs.Walk.{counted};

use crate::Value;
use pyn_base::{Memory, PyInt};
use std::alloc::Global;

/// The number of integers of a range.
pub(crate) fn range_length(start: i64, stop: i64, step: i64) -> u64
    ensures { result ≡ range_length start stop step }
{
    if step >= 0 {
        if start < stop {
            steps_over(stop.abs_diff(start), step.unsigned_abs())
        } else {
            0
        }
    } else if stop < start {
        steps_over(start.abs_diff(stop), step.unsigned_abs())
    } else {
        0
    }
}

/// How many steps of a size lead over a distance, the last one perhaps beyond its end.
fn steps_over(distance: u64, size: u64) -> u64
    ensures { result ≡ steps_over distance size }
{
    if size == 0 {
        0
    } else {
        ((distance as u128 + (size - 1) as u128) / size as u128) as u64
    }
}

/// The integers of a range.
pub(crate) fn counted(alloc: Global, start: i64, stop: i64, step: i64) -> Result<Vec<Value>, Memory>
    ensures { IfOk result (λ items. items.items ≡ counted start step (range_length start stop step)) }
{
    if step > 0 {
        counted_up(alloc, int(start), int(stop), int(step))
    } else if step < 0 {
        counted_down(alloc, int(start), int(stop), int(step))
    } else {
        Ok(Vec::new(alloc))
    }
}

fn counted_up(alloc: Global, start: PyInt, stop: PyInt, step: PyInt) -> Result<Vec<Value>, Memory>
    requires goes { pos 0 <ℤ step }
    requires low { negsuc (2 ^ 63) ≤ℤ start }
    requires high { start ≤ℤ pos (2 ^ 63) }
    requires to { stop ≤ℤ pos (2 ^ 63) }
    requires by { step ≤ℤ pos (2 ^ 63) }
    ensures { IfOk result (λ items. items.items ≡ counted start step (range_length start stop step)) }
{
    let mut items = Vec::new(alloc);
    let mut at = start;
    while at.is_less(stop) {
        items.push(Value::Int(at))?;
        at = next(at, step);
    }
    Ok(items)
}

fn counted_down(alloc: Global, start: PyInt, stop: PyInt, step: PyInt) -> Result<Vec<Value>, Memory>
    requires goes { step <ℤ pos 0 }
    requires low { negsuc (2 ^ 63) ≤ℤ start }
    requires high { start ≤ℤ pos (2 ^ 63) }
    requires to { negsuc (2 ^ 63) ≤ℤ stop }
    requires by { negsuc (2 ^ 63) ≤ℤ step }
    ensures { IfOk result (λ items. items.items ≡ counted start step (range_length start stop step)) }
{
    let mut items = Vec::new(alloc);
    let mut at = start;
    while stop.is_less(at) {
        items.push(Value::Int(at))?;
        at = next(at, step);
    }
    Ok(items)
}

fn next(at: PyInt, step: PyInt) -> PyInt
    requires low { negsuc (2 ^ 65) ≤ℤ (at +ℤ step) }
    requires high { (at +ℤ step) ≤ℤ pos (2 ^ 65) }
    ensures { result ≡ at +ℤ step }
{
    match at.add(step) {
        Some(next) => next,
        None => unreachable!(),
    }
}

pub(crate) fn int(n: i64) -> PyInt
    ensures { result ≡ n }
{
    match PyInt::new(n as i128) {
        Some(n) => n,
        None => unreachable!(),
    }
}
