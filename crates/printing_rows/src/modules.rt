// A module with every form of the grammar, laid out as PEP 8 has it, each tuple in the brackets that are its own: printed, it is that text but
// for spaces, and what is printed is read as the same again.
use module_printer::print_module;
use py_parser::read_module;
use py_syntax::Refusal;
use pyn_base::{Memory, Text};
use std::alloc::Global;
use std::test::Fail;

/// Every statement, header, expression, target and annotation of the subset.
const EVERY_FORM: &str = "from __future__ import annotations
from typing import Any, List, Optional
LIMIT = 10
label: str = \"a\\\"\\\\\\n\\x7f\"
low, high = (-1, +1)


class Base:
    kind = \"base\"

    def __init__(self, value: int = 1, other=None) -> None:
        self.value = value
        self.pair: \"List[int]\" = (value, other)

    def get(self) -> int | None:
        return self.value


class Derived(Base):
    def get(self) -> Optional[int]:
        return super().get()


def walk(items: List[Any], table):
    total = 0
    for i, item in items:
        if item is None:
            continue
        elif item not in table and not i == 1 or i < 2 <= 3 != 4:
            break
        else:
            pass
    for x in table:
        x.kind, items[0] = (x, i)
    while total < 10:
        total += 1
        total -= items[0]
        total *= items[1:2]
        items[0] //= items[:2][1:]
        x.kind %= items[:]
    del table[(0, 1)]
    try:
        assert total >= 1, \"low\"
        assert total > 1
    except ValueError as e:
        raise KeyError(total)
    except (IndexError, KeyError):
        raise
    except:
        pass
    else:
        table[total] = ((1,), [1, [2]], {1: 2, \"b\": ()}, [])
    finally:
        total = 1 if total else 2
    try:
        return
    finally:
        x, = items
    items.append(walk(items, table=total), other=True)
    return (--total * (1 + 2) // 3 % 4 - 5, not (i or x) and x is not False)
";

/// What is printed of the module that a text is.
fn printed(alloc: Global, text: &str) -> Result<Text, Refusal> {
    if text.len() > 262_144 {
        return Err(Refusal::Memory);
    }
    Ok(print_module(alloc, &read_module(alloc, text.as_bytes())?)?)
}

/// The characters of a text but its spaces.
fn without_spaces(alloc: Global, text: &str) -> Result<Vec<char>, Memory> {
    let mut letters = Vec::new(alloc);
    for c in text.chars() {
        if c != ' ' {
            letters.push(c)?;
        }
    }
    Ok(letters)
}

#[test]
fn every_form_is_printed_and_read_back(rt: HostRuntime) -> Result<(), Fail> {
    let alloc = rt.alloc();
    let text = printed(alloc, EVERY_FORM)?;
    let is_same = without_spaces(alloc, text.as_str())? == without_spaces(alloc, EVERY_FORM)?;
    assert_eq!(rt; is_same, true);
    let again = printed(alloc, text.as_str())?;
    assert_eq!(rt; again.as_str(), text.as_str());
    Ok(())
}
