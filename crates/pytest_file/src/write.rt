// The suite that calls each function once.
ghost use Rattle.std.specs.Prelude.{◌≡◌, ◌+◌, ◌<◌, ◌^◌, ◌++◌, IfOk, OnOk, chars, codes};
ghost use Rattle.py_syntax.specs.Functions.{function_in, functions_in};
ghost use Rattle.pyn_model.specs.SuiteText.{suite_text};
ghost use Rattle.pyn_model.specs.Calls.{calls_suite};
ghost use Rattle.pytest_file.specs.CallText.{call_text, calls_text, item_text, number_after};

use py_syntax::{Item, Module};
use pyn_base::{Memory, Name, Text};
use std::alloc::Global;

// The two import lines.
fn write_imports(text: &mut Text, name: &str) -> Result<(), Memory>
    ensures { OnOk result (text.new ≡ text.old ++ (codes "import pytest\nimport " ++ chars name.now ++ codes " as module_0\n")) }
{
    text.push_ascii(b"import pytest\nimport ")?;
    text.push_str(name)?;
    text.push_ascii(b" as module_0\n")?;
    Ok(())
}

// A test that calls the function of this name.
fn write_test(text: &mut Text, number: u64, function: &Name) -> Result<(), Memory>
    ensures { OnOk result (text.new ≡ text.old ++ call_text number function.now) }
{
    text.push_ascii(b"\n\ndef test_case_")?;
    text.push_number(number)?;
    text.push_ascii(b"():\n    var_0 = module_0.")?;
    text.push_name(function)?;
    text.push_ascii(b"()\n")?;
    Ok(())
}

// A test for an item that is a function, and the number of the next test.
fn write_item(text: &mut Text, number: u64, item: &Item) -> Result<u64, Memory>
    requires { number + 1 < 2 ^ 64 }
    ensures text { OnOk result (text.new ≡ text.old ++ item_text number (function_in item.now)) }
    ensures next { IfOk result (λ next. next ≡ number_after number (function_in item.now)) }
{
    let Some(function) = item.function() else {
        return Ok(number);
    };
    write_test(text, number, &function.name)?;
    Ok(number + 1)
}

// A test for each function.
fn write_tests(text: &mut Text, items: &[Item]) -> Result<(), Memory>
    ensures { OnOk result (text.new ≡ text.old ++ calls_text 0 (functions_in items.now)) }
{
    let mut number = 0;
    for item in items {
        number = write_item(text, number, item)?;
    }
    Ok(())
}

/// The text of the suite that calls each function of a module without arguments, in order: `import NAME as module_0`,
/// and one test `var_0 = module_0.FUNCTION()` for each.
pub fn write_calls(alloc: Global, module: &Module, name: &str) -> Result<Text, Memory>
    ensures { IfOk result (λ text. text ≡ suite_text «module».now (calls_suite (chars name.now) «module».now)) }
{
    let mut text = Text::new(alloc);
    write_imports(&mut text, name)?;
    write_tests(&mut text, module.items.as_slice())?;
    Ok(text)
}
