// Annotations (Language Reference 7.2.2 and 8.7).
ghost use Rattle.std.specs.Prelude.{suc};
ghost use Rattle.py_expr_shape.specs.Reads.{Gives};
ghost use Rattle.py_grammar.specs.Annotations.{strings, line_in, annotation, annotation_in, quoted, named, one, before_none};
ghost use Rattle.py_line.specs.Parts.{Parts};

use crate::cut::{first, inside, last_cut};
use crate::list::all_parts;
use py_expr::ExprFault;
use py_grammar::Separator;
use py_language::{Bracket, Keyword, Mark, Token};
use py_lexer::tokens;
use py_syntax::Annotation;
use pyn_base::{Name, Text};
use sqlite_items::{Boxed, Items};
use std::alloc::Global;

/// One more than the number of brackets and strings that may be in one another.
const DEEPEST: usize = 51;

/// The bytes of the longest text whose tokens are read. A string of a module is shorter, as the module is.
const LONGEST: usize = 268_435_456;

/// The text of strings that are alone.
fn joined(alloc: Global, tokens: &[Token]) -> Result<Text, ExprFault>
    ensures { Gives result (strings tokens.now) }
{
    let mut text = Text::new(alloc);
    let mut rest = tokens;
    while let Some((token, others)) = first(rest) {
        match token {
            Token::Str(more) => text.push_str(more.as_str())?,
            _ => return Err(ExprFault::Refused),
        }
        rest = others;
    }
    Ok(text)
}

/// The tokens of a text that is one logical line without a fault. A text longer than any that is read is out of memory.
fn line_in(alloc: Global, text: &[u8]) -> Result<Items<Token>, ExprFault>
    ensures { Gives result (line_in text.now) }
{
    if text.len() > LONGEST {
        return Err(ExprFault::Memory);
    }
    let mut all = tokens(alloc, text)?;
    if all.fault.is_some() {
        return Err(ExprFault::Refused);
    }
    let Some(line) = all.lines.pop() else {
        return Err(ExprFault::Refused);
    };
    if let Some(_) = all.lines.pop() {
        return Err(ExprFault::Refused);
    }
    Ok(line.tokens)
}

/// Reads an annotation by its parts, which are in brackets or in a string.
#[derive(Clone, Copy)]
struct Reader<F> {
    alloc: Global,
    /// How many brackets and strings may be in one another inside, and one more.
    depth: usize,
    part: F,
}

impl<F: Fn(Global, &[Token], usize) -> Result<Annotation, ExprFault>> Reader<F> {
    fn part(&self, tokens: &[Token]) -> Result<Annotation, ExprFault>
        requires { Parts self.now.depth (F.pre self.now.part) (F.post self.now.part) }
        ensures { Gives result (annotation_in self.now.depth tokens.now) }
    {
        (self.part)(self.alloc, tokens, self.depth)
    }

    /// An annotation in strings.
    #[tactic(auto, unfolding(py_grammar::specs::Annotations::held))]
    fn quoted(&self, tokens: &[Token]) -> Result<Annotation, ExprFault>
        requires { Parts self.now.depth (F.pre self.now.part) (F.post self.now.part) }
        ensures { Gives result (quoted (annotation_in self.now.depth) tokens.now) }
    {
        let text = joined(self.alloc, tokens)?;
        let line = line_in(self.alloc, text.as_str().as_bytes())?;
        let inner = self.part(line.as_slice())?;
        Ok(Annotation::Quoted(Boxed::new(self.alloc, inner)?))
    }

    /// A name, with what is after it.
    fn named(&self, name: &Name, tokens: &[Token]) -> Result<Annotation, ExprFault>
        requires { Parts self.now.depth (F.pre self.now.part) (F.post self.now.part) }
        ensures { Gives result (named (annotation_in self.now.depth) name.now tokens.now) }
    {
        let parts = match first(tokens) {
            None => Items::new(self.alloc),
            Some((Token::Mark(Mark::LeftBracket), rest)) => {
                let content = inside(Bracket::Square, rest)?;
                all_parts(
                    self.alloc,
                    Separator::Comma,
                    content,
                    |part| self.part(part),
                )?
            }
            Some(_) => return Err(ExprFault::Refused),
        };
        Ok(Annotation::Named(name.to_owned(self.alloc)?, parts))
    }

    /// An annotation without `| None`.
    fn one(&self, tokens: &[Token]) -> Result<Annotation, ExprFault>
        requires { Parts self.now.depth (F.pre self.now.part) (F.post self.now.part) }
        ensures { Gives result (one (annotation_in self.now.depth) tokens.now) }
    {
        let Some((token, rest)) = first(tokens) else {
            return Err(ExprFault::Refused);
        };
        match token {
            Token::Keyword(Keyword::NoneLit) => match first(rest) {
                None => Ok(Annotation::NoneType),
                Some(_) => Err(ExprFault::Refused),
            },
            Token::Name(name) => self.named(name, rest),
            _ => self.quoted(tokens),
        }
    }

    /// An annotation with `| None` after it, by what is before and after the bar.
    fn before_none(&self, before: &[Token], after: &[Token]) -> Result<Annotation, ExprFault>
        requires { Parts self.now.depth (F.pre self.now.part) (F.post self.now.part) }
        ensures { Gives result (before_none (annotation_in self.now.depth) before.now after.now) }
    {
        let Some((Token::Keyword(Keyword::NoneLit), rest)) = first(after) else {
            return Err(ExprFault::Refused);
        };
        let None = first(rest) else {
            return Err(ExprFault::Refused);
        };
        let one = self.one(before)?;
        Ok(Annotation::OrNone(Boxed::new(self.alloc, one)?))
    }

    #[tactic(auto, unfolding(py_grammar::specs::Annotations::annotation_in))]
    fn annotation(&self, tokens: &[Token]) -> Result<Annotation, ExprFault>
        requires { Parts self.now.depth (F.pre self.now.part) (F.post self.now.part) }
        ensures { Gives result (annotation_in (suc self.now.depth) tokens.now) }
    {
        match last_cut(Separator::Pipe, tokens) {
            None => self.one(tokens),
            Some((before, _bar, after)) => self.before_none(before, after),
        }
    }
}

/// An annotation, with fewer brackets and strings in one another than the depth.
#[tactic(auto, unfolding(py_grammar::specs::Annotations::annotation_in))]
fn annotation_in(alloc: Global, tokens: &[Token], depth: usize) -> Result<Annotation, ExprFault>
    ensures { Gives result (annotation_in depth tokens.now) }
{
    if depth == 0 {
        return Err(ExprFault::Refused);
    }
    let reader = Reader {
        alloc,
        depth: depth - 1,
        part: annotation_in,
    };
    reader.annotation(tokens)
}

/// The annotation that all the tokens are.
pub fn annotation(alloc: Global, tokens: &[Token]) -> Result<Annotation, ExprFault>
    ensures { Gives result (annotation tokens.now) }
{
    annotation_in(alloc, tokens, DEEPEST)
}
