// The methods of strings (the manual, "String Methods"), one function a row. The receiver is a slice of characters.
ghost use Rattle.std.specs.Prelude.{◌≡◌, ◌≤◌, ℕ, ◌+◌, ◌-◌, nat_le, if◌then◌else◌, [], ◌∷◌, length, map, List, Some, IfOk, OnErr};
ghost use Rattle.std.specs.Option.{option_map};
ghost use Rattle.py_meaning.specs.Steps.{changes, costs, done, raises, UnlessMemory, UnlessDone};
ghost use Rattle.py_meaning.specs.Worlds.{World};
ghost use Rattle.py_meaning.specs.Operations.{made};
ghost use Rattle.py_meaning.specs.Sums.{as_value};
ghost use Rattle.py_meaning.specs.Texts.{upper, lower, are_digits, is_blank, is_one_of, stripped, words, replaced, begins_with, finishes_with, first_place, joined};
ghost use Rattle.py_meaning.specs.TextMethods.{of_ascii, text, strip_by, list_of_texts, cut_at, split_by, text_and, texts_of, join_texts, join_walked, test_by, replace_by, or_minus_one, find_by, text_method};
ghost use Rattle.py_meaning.specs.declared.value.Value.{out-Value};

use py_meaning::{Object, Op, PyStr, TextMethod, Value, done, made};
use py_objects::{Objects, pay};
use py_text::{
    are_digits, begins_with, copied, finishes_with, first_place, is_ascii, joined, joined_length,
    lower, pieces, replaced, replaced_length, upper, without_blanks, without_characters, words,
};
use pyn_base::{BuiltClass, Construct, Fuel, Memory, PyInt};
use std::alloc::Global;

/// What isn't a string raises, at a step for each character.
fn type_error(s: &[char], fuel: &mut Fuel) -> Op<Value>
    ensures meant { costs (length s.now) (raises BuiltClass.TypeError) fuel.old ≡ (result, fuel.new) }
    ensures fuel { fuel.new ≤ fuel.old }
{
    if fuel.take(s.len() as u64) {
        Op::Raises(BuiltClass::TypeError)
    } else {
        Op::OutOfSteps
    }
}

fn upper_of(alloc: Global, s: &[char], fuel: &mut Fuel) -> Op<Value>
    ensures meant { UnlessMemory result (of_ascii s.now (text (map upper s.now)) fuel.old ≡ (result, fuel.new)) }
    ensures fuel { fuel.new ≤ fuel.old }
{
    if !fuel.take(s.len() as u64) {
        return Op::OutOfSteps;
    }
    if !is_ascii(s) {
        return Op::Leaves(Construct::NonAsciiText);
    }
    Op::Done(Value::Str(made!(upper(alloc, s))))
}

fn lower_of(alloc: Global, s: &[char], fuel: &mut Fuel) -> Op<Value>
    ensures meant { UnlessMemory result (of_ascii s.now (text (map lower s.now)) fuel.old ≡ (result, fuel.new)) }
    ensures fuel { fuel.new ≤ fuel.old }
{
    if !fuel.take(s.len() as u64) {
        return Op::OutOfSteps;
    }
    if !is_ascii(s) {
        return Op::Leaves(Construct::NonAsciiText);
    }
    Op::Done(Value::Str(made!(lower(alloc, s))))
}

fn is_digit(s: &[char], fuel: &mut Fuel) -> Op<Value>
    ensures meant { of_ascii s.now (done (Value.Bool (are_digits s.now))) fuel.old ≡ (result, fuel.new) }
    ensures fuel { fuel.new ≤ fuel.old }
{
    if !fuel.take(s.len() as u64) {
        return Op::OutOfSteps;
    }
    if !is_ascii(s) {
        return Op::Leaves(Construct::NonAsciiText);
    }
    Op::Done(Value::Bool(are_digits(s)))
}

fn strip_blanks(alloc: Global, s: &[char], fuel: &mut Fuel) -> Op<Value>
    ensures meant { UnlessMemory result (of_ascii s.now (text (stripped is_blank s.now)) fuel.old ≡ (result, fuel.new)) }
    ensures fuel { fuel.new ≤ fuel.old }
{
    if !fuel.take(s.len() as u64) {
        return Op::OutOfSteps;
    }
    if !is_ascii(s) {
        return Op::Leaves(Construct::NonAsciiText);
    }
    Op::Done(Value::Str(made!(copied(alloc, without_blanks(s)))))
}

fn strip_characters(alloc: Global, chars: &[char], s: &[char], fuel: &mut Fuel) -> Op<Value>
    ensures meant { UnlessMemory result (costs (length s.now) (text (stripped (is_one_of chars.now) s.now)) fuel.old ≡ (result, fuel.new)) }
    ensures fuel { fuel.new ≤ fuel.old }
{
    if !fuel.take(s.len() as u64) {
        return Op::OutOfSteps;
    }
    let part = made!(without_characters(alloc, chars, s));
    Op::Done(Value::Str(made!(copied(alloc, part))))
}

/// Without the blanks at both ends, or without the characters of a text.
#[tactic(auto, using(py_meaning::specs::Folds::views))]
fn strip_by(alloc: Global, x: &Value, s: &[char], fuel: &mut Fuel) -> Op<Value>
    ensures meant { UnlessMemory result (strip_by (out-Value x.now) s.now fuel.old ≡ (result, fuel.new)) }
    ensures fuel { fuel.new ≤ fuel.old }
{
    match x {
        Value::None => strip_blanks(alloc, s, fuel),
        Value::Str(chars) => strip_characters(alloc, chars.as_slice(), s, fuel),
        _ => type_error(s, fuel),
    }
}

/// Each text as a string.
fn as_values(alloc: Global, texts: &[PyStr]) -> Result<Vec<Value>, Memory>
    ensures { IfOk result (λ values. values.items ≡ map Value.Str texts.now) }
{
    let mut values = Vec::new(alloc);
    for text in texts {
        values.push(Value::Str(text.share()?))?;
    }
    Ok(values)
}

/// A new list of strings.
fn list_of_texts(texts: &[PyStr], objects: &mut Objects) -> Result<Value, Memory>
    ensures ok { IfOk result (λ list. as_value (made (Object.List (map Value.Str texts.now)) objects.old) ≡ (list, objects.new)) }
    ensures err { OnErr result (objects.new ≡ objects.old) }
{
    let values = as_values(objects.alloc(), texts)?;
    Ok(Value::Ref(objects.new_list(values)?))
}

/// What is between the places of a text. The empty text has no place.
fn cut_at(part: &[char], s: &[char], objects: &mut Objects) -> Op<Value>
    ensures meant { UnlessMemory result ((left : ℕ) → changes (cut_at part.now s.now) objects.old left ≡ (result, objects.new, left)) }
    ensures unchanged { UnlessDone result (objects.new ≡ objects.old) }
{
    if part.is_empty() {
        return Op::Raises(BuiltClass::ValueError);
    }
    let texts = made!(pieces(objects.alloc(), part, s));
    Op::Done(made!(list_of_texts(texts.as_slice(), objects)))
}

fn split_blanks(s: &[char], objects: &mut Objects, fuel: &mut Fuel) -> Op<Value>
    ensures meant { UnlessMemory result (changes (λ world. of_ascii s.now (list_of_texts (words s.now) world)) objects.old fuel.old ≡ (result, objects.new, fuel.new)) }
    ensures unchanged { UnlessDone result (objects.new ≡ objects.old) }
    ensures fuel { fuel.new ≤ fuel.old }
{
    if !fuel.take(s.len() as u64) {
        return Op::OutOfSteps;
    }
    if !is_ascii(s) {
        return Op::Leaves(Construct::NonAsciiText);
    }
    let texts = made!(words(objects.alloc(), s));
    Op::Done(made!(list_of_texts(texts.as_slice(), objects)))
}

fn split_text(part: &[char], s: &[char], objects: &mut Objects, fuel: &mut Fuel) -> Op<Value>
    ensures meant { UnlessMemory result (changes (λ world. costs (length s.now) (cut_at part.now s.now world)) objects.old fuel.old ≡ (result, objects.new, fuel.new)) }
    ensures unchanged { UnlessDone result (objects.new ≡ objects.old) }
    ensures fuel { fuel.new ≤ fuel.old }
{
    if !fuel.take(s.len() as u64) {
        return Op::OutOfSteps;
    }
    cut_at(part, s, objects)
}

/// A list of what is between runs of blanks, or between the places of a text.
#[tactic(auto, using(py_meaning::specs::Folds::views))]
fn split_by(x: &Value, s: &[char], objects: &mut Objects, fuel: &mut Fuel) -> Op<Value>
    ensures meant { UnlessMemory result (changes (split_by (out-Value x.now) s.now) objects.old fuel.old ≡ (result, objects.new, fuel.new)) }
    ensures unchanged { UnlessDone result (objects.new ≡ objects.old) }
    ensures fuel { fuel.new ≤ fuel.old }
{
    match x {
        Value::None => split_blanks(s, objects, fuel),
        Value::Str(part) => split_text(part.as_slice(), s, objects, fuel),
        _ => type_error(s, fuel),
    }
}

/// The characters of a string.
#[tactic(auto, using(py_meaning::specs::Folds::views))]
fn text_in(x: &Value) -> Result<Option<PyStr>, Memory>
    ensures { IfOk result (λ found. (texts : List (List ℕ)) → text_and (out-Value x.now) (Some texts) ≡ option_map (λ s. s ∷ texts) found) }
{
    match x {
        Value::Str(s) => Ok(Some(s.share()?)),
        _ => Ok(None),
    }
}

/// The texts of values, if all are strings.
fn texts_of(alloc: Global, values: &[Value]) -> Result<Option<Vec<PyStr>>, Memory>
    ensures { IfOk result (λ texts. option_map (λ all. all.items) texts ≡ texts_of values.now) }
{
    let mut texts = Vec::new(alloc);
    for value in values {
        match text_in(value)? {
            Some(s) => texts.push(s)?,
            None => return Ok(None),
        }
    }
    Ok(Some(texts))
}

/// Texts in a row with another between each two, at a step for each character of the result.
fn join_texts(alloc: Global, s: &[char], texts: &[PyStr], fuel: &mut Fuel) -> Op<Value>
    ensures meant { UnlessMemory result (join_texts s.now (Some texts.now) fuel.old ≡ (result, fuel.new)) }
    ensures fuel { fuel.new ≤ fuel.old }
{
    if !pay(joined_length(s, texts), fuel) {
        return Op::OutOfSteps;
    }
    Op::Done(Value::Str(made!(joined(alloc, s, texts))))
}

fn join_values(alloc: Global, s: &[char], values: &[Value], fuel: &mut Fuel) -> Op<Value>
    ensures meant { UnlessMemory result (join_texts s.now (texts_of values.now) fuel.old ≡ (result, fuel.new)) }
    ensures fuel { fuel.new ≤ fuel.old }
{
    match made!(texts_of(alloc, values)) {
        Some(texts) => join_texts(alloc, s, texts.as_slice(), fuel),
        None => Op::Raises(BuiltClass::TypeError),
    }
}

/// The same of what is walked.
fn join_walked(s: &[char], x: &Value, objects: &Objects, fuel: &mut Fuel) -> Op<Value>
    ensures meant { UnlessMemory result (join_walked s.now x.now objects.now fuel.old ≡ (result, fuel.new)) }
    ensures fuel { fuel.new ≤ fuel.old }
{
    let items = done!(objects.walk(x, fuel));
    join_values(objects.alloc(), s, items.as_slice(), fuel)
}

/// Whether a text begins with another, at the other's length.
#[tactic(auto, using(py_meaning::specs::Folds::views))]
fn starts_by(s: &[char], x: &Value, fuel: &mut Fuel) -> Op<Value>
    ensures meant { test_by (begins_with s.now) (out-Value x.now) fuel.old ≡ (result, fuel.new) }
    ensures fuel { fuel.new ≤ fuel.old }
{
    match x {
        Value::Str(part) => {
            if !fuel.take(part.as_slice().len() as u64) {
                return Op::OutOfSteps;
            }
            Op::Done(Value::Bool(begins_with(s, part.as_slice())))
        }
        Value::Tuple(_) => Op::Leaves(Construct::Argument),
        _ => Op::Raises(BuiltClass::TypeError),
    }
}

#[tactic(auto, using(py_meaning::specs::Folds::views))]
fn ends_by(s: &[char], x: &Value, fuel: &mut Fuel) -> Op<Value>
    ensures meant { test_by (finishes_with s.now) (out-Value x.now) fuel.old ≡ (result, fuel.new) }
    ensures fuel { fuel.new ≤ fuel.old }
{
    match x {
        Value::Str(part) => {
            if !fuel.take(part.as_slice().len() as u64) {
                return Op::OutOfSteps;
            }
            Op::Done(Value::Bool(finishes_with(s, part.as_slice())))
        }
        Value::Tuple(_) => Op::Leaves(Construct::Argument),
        _ => Op::Raises(BuiltClass::TypeError),
    }
}

/// Takes the steps of a text and of a result, or none where fewer are left.
fn pay_both(text: usize, made: u128, fuel: &mut Fuel) -> bool
    ensures enough { result ≡ nat_le (text + made) fuel.old }
    ensures left { fuel.new ≡ (if nat_le (text + made) fuel.old then fuel.old - (text + made) else fuel.old) }
    ensures fuel { fuel.new ≤ fuel.old }
{
    if made > fuel.left() as u128 {
        return false;
    }
    pay(text as u128 + made, fuel)
}

/// A text with another one in every place of a part. Nothing is searched where the receiver's own length can't be paid.
fn replace_text(
    alloc: Global,
    part: &[char],
    new: &[char],
    s: &[char],
    fuel: &mut Fuel,
) -> Op<Value>
    ensures meant { UnlessMemory result (costs (length s.now + length (replaced part.now new.now s.now)) (text (replaced part.now new.now s.now)) fuel.old ≡ (result, fuel.new)) }
    ensures fuel { fuel.new ≤ fuel.old }
{
    if (fuel.left() as usize) < s.len() {
        return Op::OutOfSteps;
    }
    let length = made!(replaced_length(alloc, part, new, s));
    if !pay_both(s.len(), length, fuel) {
        return Op::OutOfSteps;
    }
    Op::Done(Value::Str(made!(replaced(alloc, part, new, s))))
}

#[tactic(auto, using(py_meaning::specs::Folds::views))]
fn replace_by(alloc: Global, part: &Value, new: &Value, s: &[char], fuel: &mut Fuel) -> Op<Value>
    ensures meant { UnlessMemory result (replace_by (out-Value part.now) (out-Value new.now) s.now fuel.old ≡ (result, fuel.new)) }
    ensures fuel { fuel.new ≤ fuel.old }
{
    match part {
        Value::Str(part) => match new {
            Value::Str(new) => replace_text(alloc, part.as_slice(), new.as_slice(), s, fuel),
            _ => type_error(s, fuel),
        },
        _ => type_error(s, fuel),
    }
}

fn or_minus_one(place: Option<usize>) -> Op<Value>
    ensures { (left : ℕ) → or_minus_one place left ≡ (result, left) }
{
    match place {
        Some(at) => Op::Done(Value::Int(PyInt::from(at as u64))),
        None => match PyInt::new(-1) {
            Some(n) => Op::Done(Value::Int(n)),
            None => unreachable!(),
        },
    }
}

fn find_text(alloc: Global, part: &[char], s: &[char], fuel: &mut Fuel) -> Op<Value>
    ensures meant { UnlessMemory result (costs (length s.now + length part.now) (or_minus_one (first_place part.now s.now)) fuel.old ≡ (result, fuel.new)) }
    ensures fuel { fuel.new ≤ fuel.old }
{
    if !fuel.take(s.len() as u64 + part.len() as u64) {
        return Op::OutOfSteps;
    }
    or_minus_one(made!(first_place(alloc, part, s)))
}

/// The first place of a text, or -1.
#[tactic(auto, using(py_meaning::specs::Folds::views))]
fn find_by(alloc: Global, x: &Value, s: &[char], fuel: &mut Fuel) -> Op<Value>
    ensures meant { UnlessMemory result (find_by (out-Value x.now) s.now fuel.old ≡ (result, fuel.new)) }
    ensures fuel { fuel.new ≤ fuel.old }
{
    match x {
        Value::Str(part) => find_text(alloc, part.as_slice(), s, fuel),
        _ => type_error(s, fuel),
    }
}

/// What takes no argument.
#[tactic(auto, using(py_meaning::specs::Folds::views))]
fn text_method_alone(
    method: TextMethod,
    s: &[char],
    objects: &mut Objects,
    fuel: &mut Fuel,
) -> Op<Value>
    ensures meant { UnlessMemory result (changes (text_method method s.now []) objects.old fuel.old ≡ (result, objects.new, fuel.new)) }
    ensures unchanged { UnlessDone result (objects.new ≡ objects.old) }
    ensures fuel { fuel.new ≤ fuel.old }
{
    match method {
        TextMethod::Upper => upper_of(objects.alloc(), s, fuel),
        TextMethod::Lower => lower_of(objects.alloc(), s, fuel),
        TextMethod::IsDigit => is_digit(s, fuel),
        TextMethod::Strip => strip_blanks(objects.alloc(), s, fuel),
        TextMethod::Split => split_blanks(s, objects, fuel),
        _ => Op::Raises(BuiltClass::TypeError),
    }
}

/// What takes one argument.
fn text_method_of(
    method: TextMethod,
    s: &[char],
    x: &Value,
    objects: &mut Objects,
    fuel: &mut Fuel,
) -> Op<Value>
    ensures meant { UnlessMemory result (changes (text_method method s.now (x.now ∷ [])) objects.old fuel.old ≡ (result, objects.new, fuel.new)) }
    ensures unchanged { UnlessDone result (objects.new ≡ objects.old) }
    ensures fuel { fuel.new ≤ fuel.old }
{
    match method {
        TextMethod::Strip => strip_by(objects.alloc(), x, s, fuel),
        TextMethod::Split => split_by(x, s, objects, fuel),
        TextMethod::Join => join_walked(s, x, objects, fuel),
        TextMethod::StartsWith => starts_by(s, x, fuel),
        TextMethod::EndsWith => ends_by(s, x, fuel),
        TextMethod::Find => find_by(objects.alloc(), x, s, fuel),
        _ => Op::Raises(BuiltClass::TypeError),
    }
}

/// What takes two arguments.
fn text_method_of_two(
    method: TextMethod,
    s: &[char],
    part: &Value,
    new: &Value,
    objects: &mut Objects,
    fuel: &mut Fuel,
) -> Op<Value>
    ensures meant { UnlessMemory result (changes (text_method method s.now (part.now ∷ new.now ∷ [])) objects.old fuel.old ≡ (result, objects.new, fuel.new)) }
    ensures unchanged { UnlessDone result (objects.new ≡ objects.old) }
    ensures fuel { fuel.new ≤ fuel.old }
{
    match method {
        TextMethod::Replace => replace_by(objects.alloc(), part, new, s, fuel),
        TextMethod::Split => Op::Leaves(Construct::Argument),
        TextMethod::StartsWith => Op::Leaves(Construct::Argument),
        TextMethod::EndsWith => Op::Leaves(Construct::Argument),
        TextMethod::Find => Op::Leaves(Construct::Argument),
        _ => Op::Raises(BuiltClass::TypeError),
    }
}

/// What takes three arguments, of which the last ones are bounds.
fn text_method_of_three(method: TextMethod) -> Op<Value>
    ensures { (s : List ℕ) (x start stop : Value) (world : World) (left : ℕ) → changes (text_method method s (x ∷ start ∷ stop ∷ [])) world left ≡ (result, world, left) }
{
    match method {
        TextMethod::StartsWith => Op::Leaves(Construct::Argument),
        TextMethod::EndsWith => Op::Leaves(Construct::Argument),
        TextMethod::Replace => Op::Leaves(Construct::Argument),
        TextMethod::Find => Op::Leaves(Construct::Argument),
        _ => Op::Raises(BuiltClass::TypeError),
    }
}

/// A method of strings.
pub(crate) fn text_method(
    method: TextMethod,
    s: &[char],
    args: &[Value],
    objects: &mut Objects,
    fuel: &mut Fuel,
) -> Op<Value>
    ensures meant { UnlessMemory result (changes (text_method method s.now args.now) objects.old fuel.old ≡ (result, objects.new, fuel.new)) }
    ensures unchanged { UnlessDone result (objects.new ≡ objects.old) }
    ensures fuel { fuel.new ≤ fuel.old }
{
    match args {
        [] => text_method_alone(method, s, objects, fuel),
        [x] => text_method_of(method, s, x, objects, fuel),
        [part, new] => text_method_of_two(method, s, part, new, objects, fuel),
        [_x, _start, _stop] => text_method_of_three(method),
        _ => Op::Raises(BuiltClass::TypeError),
    }
}
