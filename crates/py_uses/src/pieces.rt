// The uses of a module, by the places in which they stand.
ghost use Rattle.std.specs.Prelude.{◌≡◌, [], ◌∷◌, ◌++◌, IfOk, OnOk};
ghost use Rattle.std.specs.List.{flat_map};
ghost use Rattle.py_scopes.specs.Pieces.{outside, param_uses, based, pieces_of_func, pieces_of_member, pieces_of_item, pieces_of};
ghost use Rattle.py_scopes.specs.Uses.{nothing, uses_in};
ghost use Rattle.py_syntax.specs.declared.module.Item.TheVariants as item;
ghost use Rattle.py_uses.specs.Blocks.{header_uses, frame_uses};
ghost use Rattle.py_uses.specs.Seen.{place_seen, class_seen};

use crate::statements::{Around, add_annotation, add_body, add_maybe, add_stmt};
use crate::uses::{Use, Uses};
use py_syntax::{Class, Func, Item, Line, Member, Module, Param, Stmt};
use pyn_base::{Memory, Name};
use std::alloc::Global;
use std::marker::Model;

/// Where uses stand.
#[derive(Clone, Copy)]
pub enum Place<'m> {
    AtModule,
    InClass(&'m Class),
    /// In a function's body, with the class in which the function is written.
    InBody(Option<&'m Class>, &'m Func),
}

/// The uses of one place, one after another.
#[derive(Drop)]
pub struct Piece<'m> {
    place: Place<'m>,
    uses: Uses<'m>,
}

impl<'m> Model for Piece<'m> {
    ghost use Rattle.std.specs.Coded.{codes};
    ghost use Rattle.py_syntax.specs.contracts.stmt.Annotation as annotation;
    ghost use Rattle.py_syntax.specs.contracts.module.Class as class;
    ghost use Rattle.py_syntax.specs.contracts.module.Func as func;
    ghost use Rattle.py_scopes.specs.Pieces.{Piece as OnePiece};

    ghost Value = { OnePiece };

    ghost coded = { Prim.hlevel (codes, annotation.the_row.coded, class.the_row.coded, func.the_row.coded) };

    ghost use Rattle.py_uses.specs.Seen.{place_seen};

    ghost view = { λ p. record { place = place_seen p.place; uses = p.uses } };
}

impl<'m> Piece<'m> {
    fn new(place: Place<'m>, uses: Uses<'m>) -> Piece<'m>
        ensures { result ≡ record { place = place_seen place.entry; uses = uses.entry } }
    {
        Piece { place, uses }
    }

    pub fn place(&self) -> Place<'m>
        ensures { place_seen result ≡ self.now.place }
    {
        self.place
    }

    pub fn uses(&self) -> &Uses<'m>
        ensures { result.now ≡ self.now.uses }
    {
        &self.uses
    }
}

/// The pieces of a module, in order.
pub fn pieces_of<'m>(alloc: Global, tree: &'m Module) -> Result<Vec<Piece<'m>>, Memory>
    ensures { IfOk result (λ pieces. pieces.items ≡ pieces_of tree.now) }
{
    let mut pieces = Vec::new(alloc);
    for item in tree.items.as_slice() {
        add_item(alloc, &mut pieces, item)?;
    }
    Ok(pieces)
}

fn add_item<'m>(alloc: Global, pieces: &mut Vec<Piece<'m>>, item: &'m Item) -> Result<(), Memory>
    ensures { OnOk result (pieces.new.items ≡ pieces.old.items ++ pieces_of_item item.now) }
{
    match item {
        Item::Func(f) => add_func(alloc, pieces, None, f),
        Item::Class(c) => add_class(alloc, pieces, c),
        Item::Import(line, names) => add_import(alloc, pieces, *line, names.as_slice()),
        Item::Other(stmt) => add_one(alloc, pieces, Place::AtModule, stmt),
    }
}

/// A statement outside of functions.
fn add_one<'m>(
    alloc: Global,
    pieces: &mut Vec<Piece<'m>>,
    place: Place<'m>,
    stmt: &'m Stmt,
) -> Result<(), Memory>
    ensures { OnOk result (pieces.new.items ≡ pieces.old.items ++ record { place = place_seen place.entry; uses = uses_in stmt.now nothing } ∷ []) }
{
    let mut uses = Uses::new(alloc);
    add_stmt(&mut uses, stmt, Around::nothing())?;
    pieces.push(Piece::new(place, uses))?;
    Ok(())
}

fn add_import<'m>(
    alloc: Global,
    pieces: &mut Vec<Piece<'m>>,
    line: Line,
    names: &'m [Name],
) -> Result<(), Memory>
    ensures { OnOk result (pieces.new.items ≡ pieces.old.items ++ pieces_of_item (item.Import line names.now)) }
{
    let mut uses = Uses::new(alloc);
    for name in names {
        uses.add(line, Use::Imported(name))?;
    }
    pieces.push(Piece::new(Place::AtModule, uses))?;
    Ok(())
}

fn add_class<'m>(alloc: Global, pieces: &mut Vec<Piece<'m>>, class: &'m Class) -> Result<(), Memory>
    ensures { OnOk result (pieces.new.items ≡ pieces.old.items ++ pieces_of_item (item.Class class.now)) }
{
    let mut uses = Uses::new(alloc);
    uses.add(class.line, Use::Binds(&class.name))?;
    add_base(&mut uses, class.line, &class.base)?;
    pieces.push(Piece::new(Place::AtModule, uses))?;
    add_members(alloc, pieces, class)
}

fn add_base<'m>(uses: &mut Uses<'m>, line: Line, base: &'m Option<Name>) -> Result<(), Memory>
    ensures { OnOk result (uses.new ≡ uses.old ++ based line base.now) }
{
    match base {
        None => Ok(()),
        Some(name) => uses.add(line, Use::Based(name)),
    }
}

fn add_members<'m>(
    alloc: Global,
    pieces: &mut Vec<Piece<'m>>,
    class: &'m Class,
) -> Result<(), Memory>
    ensures { OnOk result (pieces.new.items ≡ pieces.old.items ++ flat_map (pieces_of_member class.now) class.now.members) }
{
    for member in class.members.as_slice() {
        add_member(alloc, pieces, class, member)?;
    }
    Ok(())
}

fn add_member<'m>(
    alloc: Global,
    pieces: &mut Vec<Piece<'m>>,
    class: &'m Class,
    member: &'m Member,
) -> Result<(), Memory>
    ensures { OnOk result (pieces.new.items ≡ pieces.old.items ++ pieces_of_member class.now member.now) }
{
    match member {
        Member::Func(f) => add_func(alloc, pieces, Some(class), f),
        Member::Other(stmt) => add_one(alloc, pieces, Place::InClass(class), stmt),
    }
}

fn outside<'m>(owner: Option<&'m Class>) -> Place<'m>
    ensures { place_seen result ≡ outside (class_seen owner.entry) }
{
    match owner {
        None => Place::AtModule,
        Some(class) => Place::InClass(class),
    }
}

fn add_func<'m>(
    alloc: Global,
    pieces: &mut Vec<Piece<'m>>,
    owner: Option<&'m Class>,
    func: &'m Func,
) -> Result<(), Memory>
    ensures { OnOk result (pieces.new.items ≡ pieces.old.items ++ pieces_of_func (class_seen owner.entry) func.now) }
{
    let header = header_of(alloc, func)?;
    pieces.push(Piece::new(outside(owner), header))?;
    let body = frame_of(alloc, func)?;
    pieces.push(Piece::new(Place::InBody(owner, func), body))?;
    Ok(())
}

/// What stands in a `def` line but its parameters' names.
fn header_of<'m>(alloc: Global, func: &'m Func) -> Result<Uses<'m>, Memory>
    ensures { IfOk result (λ uses. uses ≡ header_uses func.now) }
{
    let mut uses = Uses::new(alloc);
    uses.add(func.line, Use::Defines(&func.name))?;
    for param in func.params.as_slice() {
        add_param(&mut uses, param)?;
    }
    add_annotation(&mut uses, func.line, &func.returns)?;
    Ok(uses)
}

fn add_param<'m>(uses: &mut Uses<'m>, param: &'m Param) -> Result<(), Memory>
    ensures { OnOk result (uses.new ≡ uses.old ++ param_uses param.now) }
{
    add_annotation(uses, param.line, &param.annotation)?;
    add_maybe(uses, &param.default)
}

/// The parameters' names and the body.
fn frame_of<'m>(alloc: Global, func: &'m Func) -> Result<Uses<'m>, Memory>
    ensures { IfOk result (λ uses. uses ≡ frame_uses func.now) }
{
    let mut uses = Uses::new(alloc);
    for param in func.params.as_slice() {
        uses.add(param.line, Use::Binds(&param.name))?;
    }
    add_body(&mut uses, func.body.as_slice())?;
    Ok(uses)
}
