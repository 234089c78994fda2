// Writing the tokens of a line.
ghost use Rattle.std.specs.Prelude.{◌≡◌, ◌||◌, ℕ, ◌+◌, ◌<◌, ◌/◌, ◌%◌, [], ◌∷◌, ◌++◌, chars, nat_abs, OnOk};
ghost use Rattle.py_language.specs.declared.token.Token.TheVariants as t;
ghost use Rattle.py_language.specs.TokensCharacters.{is_word, is_digit, is_quote};
ghost use Rattle.py_spelling.specs.Spelling.{by_digits, glyph, glyphs, glyphs_by, hex_digit, sign};
ghost use Rattle.py_printer.specs.Spaces.{goes_on, needs_space, is_nothing, is_joined, is_loose, is_spaced_place, wants_space, place_after, after_sign, tight_if, opened_after};
ghost use Rattle.py_printer.specs.Kinds.{mark_last};
ghost use Rattle.py_printing.specs.SymbolTokens.{super_name};
ghost use Rattle.py_printer.specs.Style.{fresh, ink, put};

use crate::brackets::Brackets;
use crate::kinds::{Kind, Last, Place, keyword_kind, keyword_text, mark_kind, mark_text};
use itoa::Buffer;
use py_language::{Keyword, Mark};
use pyn_base::{Memory, Name, PyInt, Text};
use std::alloc::Global;

/// A text to which the tokens of a line are added, and what decides whether a space is before the next one.
#[derive(Drop)]
pub struct Pen {
    pub text: Text,
    pub last: Last,
    pub place: Place,
    pub opened: Brackets,
}

const SUPER: &str = "super";

/// What a mark but the dot may go on with.
fn is_joined(c: char) -> bool
    ensures { result ≡ is_joined c }
{
    c == '=' || c == '>' || c == '<' || c == '*' || c == '/'
}

fn is_digit(c: char) -> bool
    ensures { result ≡ is_digit c }
{
    '0' <= c && c <= '9'
}

fn is_quote(c: char) -> bool
    ensures { result ≡ is_quote c }
{
    c == '"' || c == '\''
}

fn is_word(c: char) -> bool
    ensures { result ≡ is_word c }
{
    ('A' <= c && c <= 'Z') || ('a' <= c && c <= 'z') || c == '_' || is_digit(c)
}

/// Whether a text with this end might be read on with the character.
fn goes_on(last: Last, c: char) -> bool
    ensures { result ≡ goes_on last c }
{
    match last {
        Last::Nothing => false,
        Last::Word => is_word(c) || is_quote(c),
        Last::Number => is_word(c) || c == '.',
        Last::Quoted => is_quote(c),
        Last::Dot => c == '.' || is_digit(c),
        Last::Mark => is_joined(c),
    }
}

fn is_nothing(last: Last) -> bool
    ensures { result ≡ is_nothing last }
{
    match last {
        Last::Nothing => true,
        _ => false,
    }
}

/// Whether a text has to be apart from what is before it.
fn needs_space(last: Last, text: &str) -> bool
    ensures { result ≡ needs_space last (chars text.now) }
{
    match text.chars().next() {
        None => !is_nothing(last),
        Some(c) => goes_on(last, c),
    }
}

fn is_loose(place: Place) -> bool
    ensures { result ≡ is_loose place }
{
    match place {
        Place::Loose => true,
        _ => false,
    }
}

fn is_spaced_place(place: Place) -> bool
    ensures { result ≡ is_spaced_place place }
{
    match place {
        Place::Loose => true,
        Place::Operand => true,
        _ => false,
    }
}

/// Whether a space is wanted before a token of this kind.
fn wants_space(place: Place, opened: &Brackets, kind: Kind) -> bool
    ensures { result ≡ wants_space place opened.now kind }
{
    match kind {
        Kind::Opening(_) => is_loose(place),
        Kind::Closing => false,
        Kind::Comma => false,
        Kind::Colon => false,
        Kind::Dot => false,
        Kind::Equal => is_spaced_place(place) && !opened.is_in_call(),
        Kind::Sign => is_spaced_place(place),
        Kind::Operator => is_spaced_place(place),
        Kind::Operand => is_spaced_place(place),
    }
}

/// Where the next token is after one of this kind.
fn place_after(place: Place, opened: &Brackets, kind: Kind) -> Place
    ensures { result ≡ place_after place opened.now kind }
{
    match kind {
        Kind::Opening(_) => Place::Tight,
        Kind::Closing => Place::Operand,
        Kind::Comma => Place::Loose,
        Kind::Colon => tight_if(opened.is_in_square()),
        Kind::Dot => Place::Tight,
        Kind::Equal => tight_if(opened.is_in_call()),
        Kind::Sign => after_sign(place),
        Kind::Operator => Place::Loose,
        Kind::Operand => Place::Operand,
    }
}

fn tight_if(tight: bool) -> Place
    ensures { result ≡ tight_if tight }
{
    if tight { Place::Tight } else { Place::Loose }
}

/// A sign with an operand before it is between two.
fn after_sign(place: Place) -> Place
    ensures { result ≡ after_sign place }
{
    match place {
        Place::Operand => Place::Loose,
        _ => Place::Tight,
    }
}

impl Pen {
    /// At the start of a line, after a text.
    pub fn new(alloc: Global, text: Text) -> Self
        ensures { result ≡ fresh text }
    {
        Pen {
            text,
            last: Last::Nothing,
            place: Place::Start,
            opened: Brackets::new(alloc),
        }
    }

    /// Opens and closes brackets as a token of this kind does.
    fn follow(&mut self, kind: Kind) -> Result<(), Memory>
        ensures { OnOk result (self.new ≡ record self.old { opened = opened_after self.old.opened kind }) }
    {
        match kind {
            Kind::Opening(bracket) => self.opened.open(bracket)?,
            Kind::Closing => self.opened.close(),
            Kind::Comma => self.opened.next_parameter()?,
            Kind::Colon => self.opened.annotate()?,
            _ => {}
        }
        Ok(())
    }

    /// Adds a text of this kind, with this end.
    fn ink(&mut self, kind: Kind, last: Last, text: &str) -> Result<(), Memory>
        ensures { OnOk result (self.new ≡ ink self.old kind last (chars text.now)) }
    {
        let wants = wants_space(self.place, &self.opened, kind);
        if wants || needs_space(self.last, text) {
            self.text.push(' ')?;
        }
        self.text.push_str(text)?;
        self.place = place_after(self.place, &self.opened, kind);
        self.last = last;
        self.follow(kind)
    }

    /// Adds a name.
    pub fn name(&mut self, name: &Name) -> Result<(), Memory>
        ensures { OnOk result (self.new ≡ put self.old (t.Name name.now)) }
    {
        self.ink(Kind::Operand, Last::Word, name.as_str())
    }

    /// Adds a keyword.
    pub fn keyword(&mut self, keyword: Keyword) -> Result<(), Memory>
        ensures { OnOk result (self.new ≡ put self.old (t.Keyword keyword)) }
    {
        self.ink(keyword_kind(keyword), Last::Word, keyword_text(keyword))
    }

    /// Adds the name `super`.
    pub fn super_name(&mut self) -> Result<(), Memory>
        ensures { OnOk result (self.new ≡ put self.old (t.Name super_name)) }
    {
        self.ink(Kind::Operand, Last::Word, SUPER)
    }

    /// Adds the digits of an integer.
    pub fn integer(&mut self, number: PyInt) -> Result<(), Memory>
        ensures { OnOk result (self.new ≡ put self.old (t.Int number)) }
    {
        let size = magnitude(number);
        let mut buffer = Buffer::new();
        let digits = buffer.format(size);
        self.ink(Kind::Operand, Last::Number, digits)
    }

    /// Adds a mark.
    pub fn mark(&mut self, mark: Mark) -> Result<(), Memory>
        ensures { OnOk result (self.new ≡ put self.old (t.Mark mark)) }
    {
        let kind = mark_kind(mark);
        self.ink(kind, mark_last(kind), mark_text(mark))
    }

    /// Adds a string between double quotes.
    pub fn string(&mut self, string: &Text) -> Result<(), Memory>
        ensures { OnOk result (self.new ≡ put self.old (t.Str string.now)) }
    {
        self.ink(Kind::Operand, Last::Quoted, "\"")?;
        push_glyphs(&mut self.text, string.as_str())?;
        Ok(self.text.push('"')?)
    }
}

/// How far a number is from 0.
fn magnitude(number: PyInt) -> u128
    ensures { result ≡ nat_abs number }
{
    let value = number.get();
    value.unsigned_abs()
}

fn mark_last(kind: Kind) -> Last
    ensures { result ≡ mark_last kind }
{
    match kind {
        Kind::Dot => Last::Dot,
        _ => Last::Mark,
    }
}

/// Adds the characters between the quotes of a string.
fn push_glyphs(to: &mut Text, string: &str) -> Result<(), Memory>
    ensures { OnOk result (to.new ≡ to.old ++ glyphs (chars string.now)) }
{
    push_glyphs_by(to, false, string)
}

/// Adds the characters between the quotes of a string, whose backslashes and quotes are escaped by digits where it is nested.
fn push_glyphs_by(to: &mut Text, nested: bool, string: &str) -> Result<(), Memory>
    ensures { OnOk result (to.new ≡ to.old ++ glyphs_by nested (chars string.now)) }
{
    for c in string.chars() {
        push_glyph(to, nested, c)?;
    }
    Ok(())
}

/// Adds a character of a string, with its escape where it has one.
fn push_glyph(to: &mut Text, nested: bool, c: char) -> Result<(), Memory>
    ensures { OnOk result (to.new ≡ to.old ++ glyph nested c) }
{
    match c {
        '\\' => push_sign(to, nested, c),
        '"' => push_sign(to, nested, c),
        '\n' => push_escape(to, 'n'),
        '\t' => push_escape(to, 't'),
        '\r' => push_escape(to, 'r'),
        _ => {
            if c < ' ' || c == '\u{7f}' {
                push_hex(to, c as u32)
            } else {
                to.push(c)
            }
        }
    }
}

/// Adds the escape of a backslash or a quote.
fn push_sign(to: &mut Text, nested: bool, c: char) -> Result<(), Memory>
    requires { c < 128 }
    ensures { OnOk result (to.new ≡ to.old ++ sign nested c) }
{
    if nested {
        push_hex(to, c as u32)
    } else {
        push_escape(to, c)
    }
}

/// Adds a backslash and a character.
fn push_escape(to: &mut Text, c: char) -> Result<(), Memory>
    ensures { OnOk result (to.new ≡ to.old ++ 92 ∷ c ∷ []) }
{
    to.push('\\')?;
    to.push(c)
}

/// A hexadecimal digit, in lower case.
fn hex_digit(number: u32) -> char
    requires { number < 16 }
    ensures { result ≡ hex_digit number }
{
    match char::from_digit(number, 16) {
        Some(digit) => digit,
        None => unreachable!(),
    }
}

/// Adds the escape of a character by its code, which is less than 128.
fn push_hex(to: &mut Text, code: u32) -> Result<(), Memory>
    requires { code < 128 }
    ensures { OnOk result (to.new ≡ to.old ++ by_digits code) }
{
    push_escape(to, 'x')?;
    to.push(hex_digit(code / 16))?;
    to.push(hex_digit(code % 16))
}
