// The form of a logical line (Language Reference, chapters 7 and 8).
ghost use Rattle.std.specs.Prelude.{◌≡◌, bytes_eq, codes};
ghost use Rattle.py_expr_shape.specs.Reads.{Gives};
ghost use Rattle.py_grammar.specs.declared.separator.Separator.TheVariants.{Comma};
ghost use Rattle.py_grammar.specs.Separators.{all_parts};
ghost use Rattle.py_grammar.specs.Statements.{name};
ghost use Rattle.py_grammar.specs.Forms.{future, imported, import_from, import, block, compound, statements, form, form_of};
ghost use Rattle.py_line.specs.Headers.{header};

use crate::cut::{cut, first, lone_name};
use crate::header::names_inside;
use crate::list::{all_parts, name};
use crate::statement::Reader;
use py_expr::ExprFault;
use py_grammar::{Form, Separator};
use py_language::{Keyword, Logical, Mark, Token};
use py_syntax::Stmt;
use pyn_base::Name;
use sqlite_items::Items;
use std::alloc::Global;

fn is_future(name: &Name) -> bool
    ensures { result ≡ bytes_eq name.now (codes "__future__") }
{
    name.is("__future__")
}

fn is_annotations(name: &Name) -> bool
    ensures { result ≡ bytes_eq name.now (codes "annotations") }
{
    name.is("annotations")
}

fn is_typing(name: &Name) -> bool
    ensures { result ≡ bytes_eq name.now (codes "typing") }
{
    name.is("typing")
}

/// Names with commas between them, not in brackets.
fn bare_names(alloc: Global, tokens: &[Token]) -> Result<Items<Name>, ExprFault>
    ensures { Gives result (all_parts Comma name tokens.now) }
{
    all_parts(alloc, Separator::Comma, tokens, |part| name(alloc, part))
}

/// The names that are imported.
fn imported(alloc: Global, tokens: &[Token]) -> Result<Items<Name>, ExprFault>
    ensures { Gives result (imported tokens.now) }
{
    let Some((token, rest)) = first(tokens) else {
        return bare_names(alloc, tokens);
    };
    match token {
        Token::Mark(Mark::LeftParen) => names_inside(alloc, rest),
        _ => bare_names(alloc, tokens),
    }
}

/// What `__future__` gives, by what is after `import`.
fn future(tokens: &[Token]) -> Result<Form, ExprFault>
    ensures { Gives result (future tokens.now) }
{
    let Some(name) = lone_name(tokens) else {
        return Err(ExprFault::Refused);
    };
    if is_annotations(name) {
        return Ok(Form::Future);
    }
    Err(ExprFault::Refused)
}

/// What a module gives, by its name and what is after `import`.
fn import_from(alloc: Global, source: &Name, tokens: &[Token]) -> Result<Form, ExprFault>
    ensures { Gives result (import_from source.now tokens.now) }
{
    if is_future(source) {
        return future(tokens);
    }
    if is_typing(source) {
        return Ok(Form::Typing(imported(alloc, tokens)?));
    }
    Err(ExprFault::Refused)
}

/// What is after `from`.
fn import(alloc: Global, tokens: &[Token]) -> Result<Form, ExprFault>
    ensures { Gives result (import tokens.now) }
{
    let Some((Token::Name(source), rest)) = first(tokens) else {
        return Err(ExprFault::Refused);
    };
    match first(rest) {
        Some((Token::Keyword(Keyword::Import), names)) => import_from(alloc, source, names),
        _ => Err(ExprFault::Refused),
    }
}

impl Reader {
    /// What is after a header's colon on its line.
    pub fn block(&self, tokens: &[Token]) -> Result<Option<Items<Stmt>>, ExprFault>
        ensures { Gives result (block self.now.line tokens.now) }
    {
        let Some(_) = first(tokens) else {
            return Ok(None);
        };
        Ok(Some(self.simple(tokens)?))
    }

    /// A compound statement's header and what is on its line, by its keyword and what is after that.
    fn compound(&self, word: Keyword, tokens: &[Token]) -> Result<Form, ExprFault>
        ensures { Gives result (compound self.now.line (header self.now.line word) tokens.now) }
    {
        let (before, from) = cut(Separator::Colon, tokens);
        let Some((_colon, rest)) = first(from) else {
            return Err(ExprFault::Refused);
        };
        let body = self.block(rest)?;
        let header = self.header(word, before)?;
        Ok(Form::Compound(header, body))
    }

    fn small_statements(&self, tokens: &[Token]) -> Result<Form, ExprFault>
        ensures { Gives result (statements self.now.line tokens.now) }
    {
        Ok(Form::Simple(self.simple(tokens)?))
    }

    fn form(&self, tokens: &[Token]) -> Result<Form, ExprFault>
        ensures { Gives result (form self.now.line tokens.now) }
    {
        let Some((Token::Keyword(word), rest)) = first(tokens) else {
            return self.small_statements(tokens);
        };
        match word {
            Keyword::If
            | Keyword::Elif
            | Keyword::Else
            | Keyword::While
            | Keyword::For
            | Keyword::Try
            | Keyword::Except
            | Keyword::Finally
            | Keyword::Def
            | Keyword::Class => self.compound(*word, rest),
            Keyword::From => import(self.alloc, rest),
            _ => self.small_statements(tokens),
        }
    }
}

/// The form of a logical line.
///
/// # Errors
///
/// `Refused` exactly where the line has no form by the grammar, and `Memory` when memory runs out.
#[tactic(auto, unfolding(py_grammar::specs::Forms::form_of))]
pub fn read_form(alloc: Global, line: &Logical) -> Result<Form, ExprFault>
    ensures { Gives result (form_of line.now) }
{
    let reader = Reader {
        alloc,
        line: line.line,
    };
    reader.form(line.tokens.as_slice())
}
