// The two import lines (Language Reference 7.11).
ghost use Rattle.std.specs.Prelude.{◌≡◌, ◌∷◌, [], OnOk, codes};
ghost use Rattle.py_language.specs.declared.token.Token.TheVariants as t;
ghost use Rattle.py_language.specs.declared.token.Keyword.TheVariants as k;
ghost use Rattle.py_layout.specs.Headers.{lone};
ghost use Rattle.py_layout.specs.Rows.{row};
ghost use Rattle.py_printer.specs.Style.{write};
ghost use Rattle.module_printer.specs.Pages.{onto};
ghost use Rattle.suite_text.specs.SuiteText.{import_rows};

use module_printer::{Page, new_pen};
use py_language::Keyword;
use py_printer::Pen;
use pyn_base::{Memory, Name};
use std::alloc::Global;

/// Writes the import of pytest.
#[tactic(auto, unfolding(std::specs::Prelude::chars))]
fn pytest(alloc: Global, pen: &mut Pen) -> Result<(), Memory>
    ensures { OnOk result (pen.new ≡ write pen.old (t.Keyword k.Import ∷ lone (codes "pytest"))) }
{
    let name = Name::from_str(alloc, "pytest")?;
    pen.keyword(Keyword::Import)?;
    pen.name(&name)
}

/// Writes the import of a module, under the name that tests have for it.
#[tactic(auto, unfolding(std::specs::Prelude::chars))]
fn module_0(alloc: Global, pen: &mut Pen, name: &Name) -> Result<(), Memory>
    ensures { OnOk result (pen.new ≡ write pen.old (t.Keyword k.Import ∷ t.Name name.now ∷ t.Keyword k.As ∷ lone (codes "module_0"))) }
{
    let alias = Name::from_str(alloc, "module_0")?;
    pen.keyword(Keyword::Import)?;
    pen.name(name)?;
    pen.keyword(Keyword::As)?;
    pen.name(&alias)
}

/// Adds the line of the import of pytest.
fn pytest_line(alloc: Global, page: &mut Page) -> Result<(), Memory>
    ensures { OnOk result (page.new ≡ onto page.old (row 0 (t.Keyword k.Import ∷ lone (codes "pytest")) ∷ [])) }
{
    let mut pen = new_pen(alloc);
    pytest(alloc, &mut pen)?;
    page.line(0, &pen.text)
}

/// Adds the line of the import of the module under test.
fn module_line(alloc: Global, page: &mut Page, name: &Name) -> Result<(), Memory>
    ensures { OnOk result (page.new ≡ onto page.old (row 0 (t.Keyword k.Import ∷ t.Name name.now ∷ t.Keyword k.As ∷ lone (codes "module_0")) ∷ [])) }
{
    let mut pen = new_pen(alloc);
    module_0(alloc, &mut pen, name)?;
    page.line(0, &pen.text)
}

/// Adds the import of pytest, and that of the module under test.
#[tactic(auto, using(crate::proofs::Pages::onto_cons))]
pub fn imports(alloc: Global, page: &mut Page, name: &Name) -> Result<(), Memory>
    ensures { OnOk result (page.new ≡ onto page.old (import_rows name.now)) }
{
    pytest_line(alloc, page)?;
    module_line(alloc, page, name)
}
