// Cutting symbols at their separators, outside brackets.
ghost use Rattle.std.specs.Prelude.{◌≡◌, ◌<◌, ◌≤◌, ◌+◌, Bool, [], ◌∷◌, MatchOption, true};
ghost use Rattle.py_language.specs.Trees.{inside};
ghost use Rattle.py_language.specs.TreesPlaces.{rank, ends, opened, front, back, pieces, closing, colon};
ghost use Rattle.py_language.specs.declared.shape.Symbol.TheVariants as symbol;
ghost use Rattle.py_expr_shape.specs.Cuts.{place, separates, begins_anew, pieces_from, Eats, IsNextBefore, IsLastCut, IsColonCut};
ghost use Rattle.py_expr_shape.specs.Reads.{GivesSlice};

use crate::ExprFault;
use py_language::{Bracket, Symbol};

/// Where symbols are cut.
#[derive(Clone, Copy)]
pub enum Separator {
    /// The bracket that closes what was opened before the symbols.
    Closing,
    Colon,
    Comma,
    /// `if`, `else`, or what ends an expression.
    Conditional,
    Or,
    And,
    Comparison,
    /// `+` or `-` between two operands.
    Sign,
    /// `*`, `//` or `%`.
    Factor,
    /// An operator, or what is looser than each operator.
    Operator,
    /// What begins a group after an operand: a dot or a bracket.
    Group,
}

/// The level that a symbol separates at, by whether an operand has just ended: 0 ends every expression, and 12 is none.
fn rank(after: bool, symbol: &Symbol) -> u8
    ensures { result ≡ rank after symbol.now }
{
    match symbol {
        Symbol::Close(_) | Symbol::Colon => 0,
        Symbol::Comma => 1,
        Symbol::If | Symbol::Else => 2,
        Symbol::Or => 3,
        Symbol::And => 4,
        Symbol::Compare(_) => 6,
        Symbol::Sign(_) => if after { 7 } else { 12 },
        Symbol::Factor(_) => 8,
        Symbol::Attribute(_) | Symbol::Method(_) => if after { 10 } else { 12 },
        Symbol::Open(Bracket::Round) | Symbol::Open(Bracket::Square) => if after { 10 } else { 12 },
        Symbol::Open(Bracket::Brace)
        | Symbol::Atom(_)
        | Symbol::Super(_)
        | Symbol::Not
        | Symbol::Equal
        | Symbol::Other => 12,
    }
}

/// Whether the symbol closes a bracket that was opened before the symbols.
#[tactic(auto, unfolding(py_language::specs::TreesPlaces::closing))]
fn closes(depth: usize, symbol: &Symbol) -> bool
    ensures { (after : Bool) → result ≡ closing (place depth after) symbol.now }
{
    match symbol {
        Symbol::Close(_) => depth == 0,
        _ => false,
    }
}

#[tactic(auto, unfolding(py_language::specs::TreesPlaces::colon))]
fn is_colon(depth: usize, symbol: &Symbol) -> bool
    ensures { (after : Bool) → result ≡ colon (place depth after) symbol.now }
{
    match symbol {
        Symbol::Colon => depth == 0,
        _ => false,
    }
}

/// Whether the symbol is the separator: so many brackets are open there, and an operand has just ended or not.
#[tactic(auto, unfolding(py_language::specs::TreesPlaces::at, py_language::specs::TreesPlaces::below))]
fn separates(separator: Separator, depth: usize, after: bool, symbol: &Symbol) -> bool
    ensures { result ≡ separates separator (place depth after) symbol.now }
{
    match separator {
        Separator::Closing => closes(depth, symbol),
        Separator::Colon => is_colon(depth, symbol),
        Separator::Comma => depth == 0 && rank(after, symbol) == 1,
        Separator::Conditional => depth == 0 && rank(after, symbol) < 3,
        Separator::Or => depth == 0 && rank(after, symbol) == 3,
        Separator::And => depth == 0 && rank(after, symbol) == 4,
        Separator::Comparison => depth == 0 && rank(after, symbol) == 6,
        Separator::Sign => depth == 0 && rank(after, symbol) == 7,
        Separator::Factor => depth == 0 && rank(after, symbol) == 8,
        Separator::Operator => depth == 0 && rank(after, symbol) < 10,
        Separator::Group => depth == 0 && rank(after, symbol) == 10,
    }
}

/// Whether an operand ends at the symbol.
fn ends(symbol: &Symbol) -> bool
    ensures { result ≡ ends symbol.now }
{
    match symbol {
        Symbol::Atom(_) | Symbol::Attribute(_) | Symbol::Close(_) => true,
        _ => false,
    }
}

/// How many brackets are open after the symbol.
fn opened(depth: usize, symbol: &Symbol) -> usize
    requires { depth < 18446744073709551615 }
    ensures count { result ≡ opened depth symbol.now }
    ensures at_most { result ≤ depth + 1 }
{
    match symbol {
        Symbol::Open(_) => depth + 1,
        Symbol::Close(_) => depth.saturating_sub(1),
        _ => depth,
    }
}

/// The first symbol, and those after it.
pub fn first(symbols: &[Symbol]) -> Option<(&Symbol, &[Symbol])>
    ensures { MatchOption result (symbols.now ≡ []) (λ r. symbols.now ≡ r.0.now ∷ r.1.now) }
{
    symbols.split_first()
}

/// The first symbol and those after it, unless it is the separator.
fn next_before(
    separator: Separator,
    depth: usize,
    after: bool,
    symbols: &[Symbol],
) -> Option<(&Symbol, &[Symbol])>
    ensures { IsNextBefore separator (place depth after) symbols.now result }
{
    let (symbol, others) = first(symbols)?;
    if separates(separator, depth, after, symbol) {
        return None;
    }
    Some((symbol, others))
}

/// The symbols before the first separator, and those from it on.
pub fn cut(separator: Separator, symbols: &[Symbol]) -> (&[Symbol], &[Symbol])
    ensures front { result.0.now ≡ front (separates separator) symbols.now }
    ensures back { result.1.now ≡ back (separates separator) symbols.now }
    ensures pieces { begins_anew separator ≡ true → pieces (separates separator) symbols.now ≡ pieces_from separator result.1.now }
{
    let mut depth: usize = 0;
    let mut after = false;
    let mut rest = symbols;
    while let Some((symbol, others)) = next_before(separator, depth, after, rest) {
        depth = opened(depth, symbol);
        after = ends(symbol);
        rest = others;
    }
    let (before, _from) = symbols.split_at(symbols.len() - rest.len());
    (before, rest)
}

/// The symbols before the last separator, that separator, and those after it.
pub fn last_cut(separator: Separator, symbols: &[Symbol]) -> Option<(&[Symbol], &Symbol, &[Symbol])>
    ensures { IsLastCut separator symbols.now result }
{
    let mut depth: usize = 0;
    let mut after = false;
    let mut rest = symbols;
    let mut found = None;
    while let Some((symbol, others)) = first(rest) {
        if separates(separator, depth, after, symbol) {
            found = Some((symbol, others));
        }
        depth = opened(depth, symbol);
        after = ends(symbol);
        rest = others;
    }
    let Some((symbol, behind)) = found else {
        return None;
    };
    let (before, _from) = symbols.split_at(symbols.len() - behind.len() - 1);
    Some((before, symbol, behind))
}

/// The symbols before the first colon and those after it, if there is one.
pub fn colon_cut(symbols: &[Symbol]) -> Option<(&[Symbol], &[Symbol])>
    ensures { IsColonCut symbols.now result }
{
    let (before, rest) = cut(Separator::Colon, symbols);
    match first(rest) {
        None => None,
        Some((_colon, others)) => Some((before, others)),
    }
}

/// What is after the bracket that closes, if that is in front.
fn eat_close(bracket: Bracket, symbols: &[Symbol]) -> Option<&[Symbol]>
    ensures { Eats (symbol.Close bracket) symbols.now result }
{
    let (symbol, rest) = first(symbols)?;
    match symbol {
        Symbol::Close(found) => if *found == bracket { Some(rest) } else { None },
        _ => None,
    }
}

/// What is in a bracket that was opened just before the symbols, if the bracket that closes it is the last symbol.
pub fn inside(bracket: Bracket, symbols: &[Symbol]) -> Result<&[Symbol], ExprFault>
    ensures { GivesSlice result (inside bracket symbols.now) }
{
    let (content, rest) = cut(Separator::Closing, symbols);
    let Some(after) = eat_close(bracket, rest) else {
        return Err(ExprFault::Refused);
    };
    match first(after) {
        None => Ok(content),
        Some(_) => Err(ExprFault::Refused),
    }
}
