// The symbols of a list of tokens, made from the last one on.
ghost use Rattle.std.specs.Prelude.{◌≡◌, ◌++◌, ◌∷◌, [], IfOk, OnOk, MatchOption, ◌&&◌, chars};
ghost use Rattle.py_language.specs.TreesSymbols.{keyword_symbol, mark_symbol, symbol, symbols, join, named, attribute, is_super};
ghost use Rattle.py_language.specs.declared.token.Token.TheVariants as token;
ghost use Rattle.py_language.specs.declared.shape.Atom.TheVariants as atom;
ghost use Rattle.py_language.specs.declared.shape.Symbol.TheVariants as symbol;
ghost use Rattle.py_expr.specs.Stacks.{Undots, Unquotes, AreStrings, text_of, glued, Pushed, SuperOf, begins_called};

use crate::stack::Stack;
use py_language::{Atom, Bracket, Keyword, Mark, Symbol, Token};
use py_syntax::{BinOp, CmpOp, Sign};
use pyn_base::{Memory, Name, Text};
use sqlite_items::Items;
use std::alloc::{AllocError, Global};

/// What a keyword that is alone is.
fn keyword(keyword: Keyword) -> Symbol
    ensures { result ≡ keyword_symbol keyword }
{
    match keyword {
        Keyword::FalseLit => Symbol::Atom(Atom::BoolLit(false)),
        Keyword::NoneLit => Symbol::Atom(Atom::NoneLit),
        Keyword::TrueLit => Symbol::Atom(Atom::BoolLit(true)),
        Keyword::And => Symbol::And,
        Keyword::Else => Symbol::Else,
        Keyword::If => Symbol::If,
        Keyword::In => Symbol::Compare(CmpOp::Contained),
        Keyword::Is => Symbol::Compare(CmpOp::Same),
        Keyword::Not => Symbol::Not,
        Keyword::Or => Symbol::Or,
        Keyword::As
        | Keyword::Assert
        | Keyword::Async
        | Keyword::Await
        | Keyword::Break
        | Keyword::Class
        | Keyword::Continue
        | Keyword::Def
        | Keyword::Del
        | Keyword::Elif
        | Keyword::Except
        | Keyword::Finally
        | Keyword::For
        | Keyword::From
        | Keyword::Global
        | Keyword::Import
        | Keyword::Lambda
        | Keyword::Nonlocal
        | Keyword::Pass
        | Keyword::Raise
        | Keyword::Return
        | Keyword::Try
        | Keyword::While
        | Keyword::With
        | Keyword::Yield => Symbol::Other,
    }
}

/// What a mark that is alone is.
fn mark(mark: Mark) -> Symbol
    ensures { result ≡ mark_symbol mark }
{
    match mark {
        Mark::Plus => Symbol::Sign(Sign::Plus),
        Mark::Minus => Symbol::Sign(Sign::Minus),
        Mark::Star => Symbol::Factor(BinOp::Mul),
        Mark::DoubleSlash => Symbol::Factor(BinOp::FloorDiv),
        Mark::Percent => Symbol::Factor(BinOp::Mod),
        Mark::Less => Symbol::Compare(CmpOp::Lt),
        Mark::Greater => Symbol::Compare(CmpOp::Gt),
        Mark::LessEqual => Symbol::Compare(CmpOp::Le),
        Mark::GreaterEqual => Symbol::Compare(CmpOp::Ge),
        Mark::EqualEqual => Symbol::Compare(CmpOp::Eq),
        Mark::NotEqual => Symbol::Compare(CmpOp::Ne),
        Mark::LeftParen => Symbol::Open(Bracket::Round),
        Mark::RightParen => Symbol::Close(Bracket::Round),
        Mark::LeftBracket => Symbol::Open(Bracket::Square),
        Mark::RightBracket => Symbol::Close(Bracket::Square),
        Mark::LeftBrace => Symbol::Open(Bracket::Brace),
        Mark::RightBrace => Symbol::Close(Bracket::Brace),
        Mark::Comma => Symbol::Comma,
        Mark::Colon => Symbol::Colon,
        Mark::Equal => Symbol::Equal,
        Mark::DoubleStar
        | Mark::Slash
        | Mark::At
        | Mark::LeftShift
        | Mark::RightShift
        | Mark::Ampersand
        | Mark::Pipe
        | Mark::Caret
        | Mark::Tilde
        | Mark::Walrus
        | Mark::Dot
        | Mark::Semicolon
        | Mark::Arrow
        | Mark::Ellipsis
        | Mark::PlusEqual
        | Mark::MinusEqual
        | Mark::StarEqual
        | Mark::SlashEqual
        | Mark::DoubleSlashEqual
        | Mark::PercentEqual
        | Mark::AtEqual
        | Mark::AmpersandEqual
        | Mark::PipeEqual
        | Mark::CaretEqual
        | Mark::RightShiftEqual
        | Mark::LeftShiftEqual
        | Mark::DoubleStarEqual => Symbol::Other,
    }
}

fn push_not(stack: &mut Stack) -> Result<(), AllocError>
    ensures { OnOk result (stack.new ≡ join symbol.Not stack.old) }
{
    if stack.begins_in() {
        let _in = stack.pop();
        return stack.push(Symbol::Compare(CmpOp::NotContained));
    }
    stack.push(Symbol::Not)
}

fn push_is(stack: &mut Stack) -> Result<(), AllocError>
    ensures { OnOk result (stack.new ≡ join (symbol.Compare CmpOp.Same) stack.old) }
{
    if stack.begins_not() {
        let _not = stack.pop();
        return stack.push(Symbol::Compare(CmpOp::NotSame));
    }
    stack.push(Symbol::Compare(CmpOp::Same))
}

fn push_keyword(stack: &mut Stack, word: Keyword) -> Result<(), AllocError>
    ensures { OnOk result (stack.new ≡ join (keyword_symbol word) stack.old) }
{
    match word {
        Keyword::Not => push_not(stack),
        Keyword::Is => push_is(stack),
        _ => stack.push(keyword(word)),
    }
}

fn push_attribute(alloc: Global, stack: &mut Stack, name: &Name) -> Result<(), Memory>
    ensures { OnOk result (stack.new ≡ attribute name.now stack.old) }
{
    let name = name.to_owned(alloc)?;
    if stack.begins_opened() {
        return Ok(stack.push(Symbol::Method(name))?);
    }
    Ok(stack.push(Symbol::Attribute(name))?)
}

/// The last token, and what is before it.
fn last_of(tokens: &[Token]) -> Option<(&Token, &[Token])>
    ensures { MatchOption result (tokens.now ≡ []) (λ r. tokens.now ≡ r.1.now ++ r.0.now ∷ []) }
{
    tokens.split_last()
}

/// What is before a dot at the end.
fn undotted(tokens: &[Token]) -> Option<&[Token]>
    ensures { Undots tokens.now result }
{
    let (last, before) = last_of(tokens)?;
    match last {
        Token::Mark(Mark::Dot) => Some(before),
        _ => None,
    }
}

/// What is before a string at the end.
fn unquoted(tokens: &[Token]) -> Option<&[Token]>
    ensures { Unquotes tokens.now result }
{
    let (last, before) = last_of(tokens)?;
    match last {
        Token::Str(_) => Some(before),
        _ => None,
    }
}

/// What is before the strings at the end, and those strings.
fn strings_apart(tokens: &[Token]) -> (&[Token], &[Token])
    ensures joined { tokens.now ≡ result.0.now ++ result.1.now }
    ensures strings { AreStrings result.1.now }
{
    let mut outer = tokens;
    while let Some(before) = unquoted(outer) {
        outer = before;
    }
    tokens.split_at(outer.len())
}

/// The text of a string.
fn text_of(token: &Token) -> &str
    ensures { chars result.now ≡ text_of token.now }
{
    match token {
        Token::Str(text) => text.as_str(),
        _ => "",
    }
}

/// The texts of strings, one after another, and then a last one.
fn glued(alloc: Global, strings: &[Token], last: &Text) -> Result<Text, Memory>
    ensures { IfOk result (λ t. t ≡ glued strings.now last.now) }
{
    let mut text = Text::new(alloc);
    for token in strings {
        text.push_str(text_of(token))?;
    }
    text.push_str(last.as_str())?;
    Ok(text)
}

fn push_string(stack: &mut Stack, text: Text) -> Result<(), Memory>
    ensures { OnOk result (stack.new ≡ join (symbol.Atom (atom.StrLit text)) stack.old) }
{
    let mut text = text;
    if let Some(next) = stack.take_string() {
        text.push_str(next.as_str())?;
    }
    Ok(stack.push(Symbol::Atom(Atom::StrLit(text)))?)
}

/// A string and all strings right before it, which are one: the tokens that are left. Each text is copied once.
fn push_strings<'a>(
    alloc: Global,
    stack: &mut Stack,
    last: &Text,
    before: &'a [Token],
) -> Result<&'a [Token], Memory>
    ensures { IfOk result (λ rest. Pushed before.now (token.Str last.now) stack.old stack.new rest.now) }
{
    let (outer, strings) = strings_apart(before);
    push_string(stack, glued(alloc, strings, last)?)?;
    Ok(outer)
}

fn is_super(name: &Name) -> bool
    ensures { result ≡ is_super name.now }
{
    name.is("super")
}

/// Whether a name is `super`, and `().name(` comes after it.
fn is_super_call(name: &Name, stack: &Stack) -> bool
    ensures { result ≡ (is_super name.now && begins_called stack.now) }
{
    if !is_super(name) {
        return false;
    }
    stack.begins_called()
}

/// Takes `().name` from the front.
fn push_super(stack: &mut Stack) -> Result<(), Memory>
    ensures { OnOk result (SuperOf stack.old stack.new) }
{
    let Some(_opens) = stack.pop() else {
        return Err(Memory);
    };
    let Some(_closes) = stack.pop() else {
        return Err(Memory);
    };
    let Some(Symbol::Method(name)) = stack.pop() else {
        return Err(Memory);
    };
    Ok(stack.push(Symbol::Super(name))?)
}

/// A name, which `().name(` after it makes one with `super`.
fn push_name(alloc: Global, stack: &mut Stack, name: &Name) -> Result<(), Memory>
    ensures { OnOk result (stack.new ≡ named name.now stack.old) }
{
    if is_super_call(name, stack) {
        return push_super(stack);
    }
    let name = name.to_owned(alloc)?;
    Ok(stack.push(Symbol::Atom(Atom::Name(name)))?)
}

/// A token, with what is before it: the tokens that are left.
fn push_token<'a>(
    alloc: Global,
    stack: &mut Stack,
    token: &Token,
    before: &'a [Token],
) -> Result<&'a [Token], Memory>
    ensures { IfOk result (λ rest. Pushed before.now token.now stack.old stack.new rest.now) }
{
    match token {
        Token::Name(name) => {
            if let Some(outer) = undotted(before) {
                push_attribute(alloc, stack, name)?;
                return Ok(outer);
            }
            push_name(alloc, stack, name)?;
        }
        Token::Keyword(word) => push_keyword(stack, *word)?,
        Token::Int(n) => stack.push(Symbol::Atom(Atom::IntLit(*n)))?,
        Token::Str(text) => return push_strings(alloc, stack, text, before),
        Token::Mark(found) => stack.push(mark(*found))?,
    }
    Ok(before)
}

/// The symbols of a list of tokens (Language Reference, chapters 2 and 6).
pub fn symbols_of(alloc: Global, tokens: &[Token]) -> Result<Items<Symbol>, Memory>
    ensures { IfOk result (λ all. all ≡ symbols tokens.now) }
{
    let mut stack = Stack::new(alloc);
    let mut rest = tokens;
    while let Some((token, before)) = last_of(rest) {
        rest = push_token(alloc, &mut stack, token, before)?;
    }
    Ok(stack.into_items(alloc)?)
}
