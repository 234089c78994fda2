// Imports of names (Language Reference 7.11).
ghost use Rattle.std.specs.Prelude.{◌≡◌, ◌∷◌, [], OnOk, IsAscii};
ghost use Rattle.py_language.specs.declared.token.Token.TheVariants as t;
ghost use Rattle.py_language.specs.declared.token.Keyword.TheVariants as k;
ghost use Rattle.py_layout.specs.Modules.{import_tokens};
ghost use Rattle.py_layout.specs.Rows.{row};
ghost use Rattle.py_printer.specs.Style.{write};
ghost use Rattle.module_printer.specs.Pages.{onto};

use crate::lists::names;
use crate::page::Page;
use crate::rows::new_pen;
use py_language::Keyword;
use py_printer::Pen;
use pyn_base::{Memory, Name};
use std::alloc::Global;

/// Adds `from`, a module and `import`.
fn from(alloc: Global, pen: &mut Pen, origin: &[u8]) -> Result<(), Memory>
    requires { IsAscii origin.now }
    ensures { OnOk result (pen.new ≡ write pen.old (t.Keyword k.From ∷ t.Name origin.now ∷ t.Keyword k.Import ∷ [])) }
{
    let origin = Name::from_ascii(alloc, origin)?;
    pen.keyword(Keyword::From)?;
    pen.name(&origin)?;
    pen.keyword(Keyword::Import)
}

/// Adds the future line.
#[tactic(auto, using(crate::proofs::Writes::write_append))]
fn future(alloc: Global, pen: &mut Pen) -> Result<(), Memory>
    ensures { OnOk result (pen.new ≡ write pen.old (import_tokens [])) }
{
    from(alloc, pen, b"__future__")?;
    let feature = Name::from_ascii(alloc, b"annotations")?;
    pen.name(&feature)
}

/// Adds an import. The future line has no names.
#[tactic(auto, using(crate::proofs::Writes::write_append, crate::proofs::Commas::import_all))]
fn import(alloc: Global, pen: &mut Pen, all: &[Name]) -> Result<(), Memory>
    ensures { OnOk result (pen.new ≡ write pen.old (import_tokens all.now)) }
{
    if all.is_empty() {
        return future(alloc, pen);
    }
    from(alloc, pen, b"typing")?;
    names(pen, all)
}

/// Adds the line of an import.
pub fn import_line(
    alloc: Global,
    page: &mut Page,
    column: usize,
    all: &[Name],
) -> Result<(), Memory>
    ensures { OnOk result (page.new ≡ onto page.old (row column (import_tokens all.now) ∷ [])) }
{
    let mut pen = new_pen(alloc);
    import(alloc, &mut pen, all)?;
    page.line(column, &pen.text)
}
