// Copies of steps.
ghost use Rattle.std.specs.Prelude.{◌≡◌, ℕ, IfOk, take};

use pyn_base::Memory;
use sqlite_items::Items;
use std::alloc::Global;
use suite_model::{Primitive, Step};

fn copy_primitive(alloc: Global, primitive: &Primitive) -> Result<Primitive, Memory>
    ensures { IfOk result (λ copy. copy ≡ primitive.now) }
{
    Ok(match primitive {
        Primitive::None => Primitive::None,
        Primitive::Bool(b) => Primitive::Bool(*b),
        Primitive::Int(n) => Primitive::Int(*n),
        Primitive::Str(text) => Primitive::Str(text.to_owned(alloc)?),
    })
}

/// A copy of a step.
fn copy_step(alloc: Global, step: &Step) -> Result<Step, Memory>
    ensures { IfOk result (λ copy. copy ≡ step.now) }
{
    Ok(match step {
        Step::Prim(primitive) => Step::Prim(copy_primitive(alloc, primitive)?),
        Step::ListOf(variables) => Step::ListOf(variables.to_owned(alloc)?),
        Step::DictOf(pairs) => Step::DictOf(Items::from_slice(alloc, pairs.as_slice())?),
        Step::Construct(class, args) => Step::Construct(*class, args.to_owned(alloc)?),
        Step::Method(receiver, name, args) => {
            let name = name.to_owned(alloc)?;
            Step::Method(*receiver, name, args.to_owned(alloc)?)
        }
        Step::Function(func, args) => Step::Function(*func, args.to_owned(alloc)?),
    })
}

/// A copy of steps.
fn copy_all(alloc: Global, steps: &[Step]) -> Result<Items<Step>, Memory>
    ensures { IfOk result (λ all. all ≡ steps.now) }
{
    let mut all = Items::new(alloc);
    for step in steps {
        let copy = copy_step(alloc, step)?;
        all.push(copy)?;
    }
    Ok(all)
}

/// A copy of the first steps, of all of them where there are no more.
pub(crate) fn copy_first(alloc: Global, steps: &[Step], count: usize) -> Result<Items<Step>, Memory>
    ensures { IfOk result (λ all. all ≡ take count steps.now) }
{
    if count < steps.len() {
        copy_all(alloc, &steps[..count])
    } else {
        copy_all(alloc, steps)
    }
}
