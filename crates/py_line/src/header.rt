// The headers of compound statements, without keyword and colon (Language Reference, chapter 8).
ghost use Rattle.py_expr_shape.specs.Reads.{Gives};
ghost use Rattle.py_grammar.specs.Forms.{names_inside, handled, as_name, except, base, class, of_type, returned, for, default_of, param, def_with, def};
ghost use Rattle.py_line.specs.Headers.{header};

use crate::annotation::annotation;
use crate::cut::{cut, first, has, inside, lone_name};
use crate::list::{alone, name, names, parts};
use crate::statement::Reader;
use py_expr::ExprFault;
use py_grammar::{Header, Separator};
use py_language::{Bracket, Keyword, Mark, Token};
use py_syntax::{Annotation, Expr, Param};
use pyn_base::Name;
use sqlite_items::Items;
use std::alloc::Global;

/// Names with commas between them in round brackets, the first of which was opened just before.
pub fn names_inside(alloc: Global, tokens: &[Token]) -> Result<Items<Name>, ExprFault>
    ensures { Gives result (names_inside tokens.now) }
{
    names(alloc, inside(Bracket::Round, tokens)?)
}

/// The classes that a clause handles.
fn handled(alloc: Global, tokens: &[Token]) -> Result<Items<Name>, ExprFault>
    ensures { Gives result (handled tokens.now) }
{
    if let Some(name) = lone_name(tokens) {
        let mut all = Items::new(alloc);
        all.push(name.to_owned(alloc)?)?;
        return Ok(all);
    }
    match first(tokens) {
        Some((Token::Mark(Mark::LeftParen), rest)) => names_inside(alloc, rest),
        _ => Err(ExprFault::Refused),
    }
}

/// The name after `as`, from there on.
fn as_name(alloc: Global, tokens: &[Token]) -> Result<Option<Name>, ExprFault>
    ensures { Gives result (as_name tokens.now) }
{
    let Some((_as, rest)) = first(tokens) else {
        return Ok(None);
    };
    Ok(Some(name(alloc, rest)?))
}

fn except(alloc: Global, tokens: &[Token]) -> Result<Header, ExprFault>
    ensures { Gives result (except tokens.now) }
{
    let Some(_) = first(tokens) else {
        return Ok(Header::Except(None, None));
    };
    let (classes, from) = cut(Separator::As, tokens);
    let classes = handled(alloc, classes)?;
    let bound = as_name(alloc, from)?;
    Ok(Header::Except(Some(classes), bound))
}

/// The base of a class, by what is after its opening bracket.
fn base(alloc: Global, tokens: &[Token]) -> Result<Option<Name>, ExprFault>
    ensures { Gives result (base tokens.now) }
{
    let content = inside(Bracket::Round, tokens)?;
    let Some(_) = first(content) else {
        return Ok(None);
    };
    Ok(Some(name(alloc, content)?))
}

fn class(alloc: Global, tokens: &[Token]) -> Result<Header, ExprFault>
    ensures { Gives result (class tokens.now) }
{
    let Some((Token::Name(name), rest)) = first(tokens) else {
        return Err(ExprFault::Refused);
    };
    let base = match first(rest) {
        None => None,
        Some((Token::Mark(Mark::LeftParen), rest)) => base(alloc, rest)?,
        Some(_) => return Err(ExprFault::Refused),
    };
    Ok(Header::Class(name.to_owned(alloc)?, base))
}

/// The annotation of a parameter, by what is after its name.
fn of_type(alloc: Global, tokens: &[Token]) -> Result<Option<Annotation>, ExprFault>
    ensures { Gives result (of_type tokens.now) }
{
    match first(tokens) {
        None => Ok(None),
        Some((Token::Mark(Mark::Colon), rest)) => Ok(Some(annotation(alloc, rest)?)),
        Some(_) => Err(ExprFault::Refused),
    }
}

/// The annotation of a result, by what is after the parameters.
fn returned(alloc: Global, tokens: &[Token]) -> Result<Option<Annotation>, ExprFault>
    ensures { Gives result (returned tokens.now) }
{
    match first(tokens) {
        None => Ok(None),
        Some((Token::Mark(Mark::Arrow), rest)) => Ok(Some(annotation(alloc, rest)?)),
        Some(_) => Err(ExprFault::Refused),
    }
}

impl Reader {
    fn for_in(&self, tokens: &[Token]) -> Result<Header, ExprFault>
        ensures { Gives result (for self.now.line tokens.now) }
    {
        let (before, from) = cut(Separator::In, tokens);
        let Some((_in, walked)) = first(from) else {
            return Err(ExprFault::Refused);
        };
        let names = names(self.alloc, before)?;
        let walked = self.exprs(walked)?;
        Ok(Header::For(names, has(Separator::Comma, before), walked))
    }

    /// The default of a parameter, from its `=` on.
    fn default_of(&self, tokens: &[Token]) -> Result<Option<Expr>, ExprFault>
        ensures { Gives result (default_of self.now.line tokens.now) }
    {
        let Some((_equal, rest)) = first(tokens) else {
            return Ok(None);
        };
        Ok(Some(self.expr(rest)?))
    }

    fn param(&self, tokens: &[Token]) -> Result<Param, ExprFault>
        ensures { Gives result (param self.now.line tokens.now) }
    {
        let (before, from) = cut(Separator::Equal, tokens);
        let Some((Token::Name(name), rest)) = first(before) else {
            return Err(ExprFault::Refused);
        };
        let annotation = of_type(self.alloc, rest)?;
        let default = self.default_of(from)?;
        Ok(Param {
            name: name.to_owned(self.alloc)?,
            annotation,
            default,
            line: self.line,
        })
    }

    /// A function, by its name and what is after the bracket that opens its parameters.
    fn def_with(&self, name: &Name, tokens: &[Token]) -> Result<Header, ExprFault>
        ensures { Gives result (def_with self.now.line name.now tokens.now) }
    {
        let (content, from) = cut(Separator::Closing, tokens);
        let Some((Token::Mark(Mark::RightParen), rest)) = first(from) else {
            return Err(ExprFault::Refused);
        };
        let params = parts(
            self.alloc,
            Separator::Comma,
            content,
            |part| self.param(part),
        )?;
        let returns = returned(self.alloc, rest)?;
        Ok(Header::Def(name.to_owned(self.alloc)?, params, returns))
    }

    fn def(&self, tokens: &[Token]) -> Result<Header, ExprFault>
        ensures { Gives result (def self.now.line tokens.now) }
    {
        let Some((Token::Name(name), rest)) = first(tokens) else {
            return Err(ExprFault::Refused);
        };
        match first(rest) {
            Some((Token::Mark(Mark::LeftParen), rest)) => self.def_with(name, rest),
            _ => Err(ExprFault::Refused),
        }
    }

    /// The header that a keyword begins, by what is after that.
    pub fn header(&self, word: Keyword, tokens: &[Token]) -> Result<Header, ExprFault>
        ensures { Gives result (header self.now.line word tokens.now) }
    {
        match word {
            Keyword::If => Ok(Header::If(self.expr(tokens)?)),
            Keyword::Elif => Ok(Header::Elif(self.expr(tokens)?)),
            Keyword::Else => alone(Header::Else, tokens),
            Keyword::While => Ok(Header::While(self.expr(tokens)?)),
            Keyword::For => self.for_in(tokens),
            Keyword::Try => alone(Header::Try, tokens),
            Keyword::Except => except(self.alloc, tokens),
            Keyword::Finally => alone(Header::Finally, tokens),
            Keyword::Def => self.def(tokens),
            Keyword::Class => class(self.alloc, tokens),
            _ => Err(ExprFault::Refused),
        }
    }
}
