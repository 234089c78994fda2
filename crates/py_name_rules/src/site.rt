// The pieces of a module, each with the names that are local in its place.
ghost use Rattle.std.specs.Prelude.{◌≡◌, IfOk};

use crate::scope::Scope;
use py_uses::{Piece, Used};
use pyn_base::Memory;
use std::alloc::Global;
use std::marker::Model;

/// A piece, with the names that are local in its place. A contract sees the piece alone.
#[derive(Drop)]
pub(crate) struct Site<'p, 'm> {
    scope: Scope<'m>,
    piece: &'p Piece<'m>,
}

impl<'p, 'm> Model for Site<'p, 'm> {
    ghost use Rattle.std.specs.Coded.{codes};
    ghost use Rattle.py_syntax.specs.contracts.stmt.Annotation as annotation;
    ghost use Rattle.py_syntax.specs.contracts.module.Class as class;
    ghost use Rattle.py_syntax.specs.contracts.module.Func as func;
    ghost use Rattle.py_scopes.specs.Pieces.{Piece as OnePiece};

    ghost Value = { OnePiece };

    ghost coded = { Prim.hlevel (codes, annotation.the_row.coded, class.the_row.coded, func.the_row.coded) };

    ghost view = { λ s. record { place = s.scope; uses = s.piece.now.uses } };
}

impl<'p, 'm> Site<'p, 'm> {
    fn new(alloc: Global, piece: &'p Piece<'m>) -> Result<Site<'p, 'm>, Memory>
        ensures { IfOk result (λ site. site ≡ piece.now) }
    {
        let scope = Scope::new(alloc, piece.place())?;
        Ok(Site { scope, piece })
    }

    pub(crate) fn scope(&self) -> &Scope<'m>
        ensures { result.now ≡ self.now.place }
    {
        &self.scope
    }

    pub(crate) fn uses(&self) -> &[Used<'m>]
        ensures { result.now ≡ self.now.uses }
    {
        self.piece.uses().as_slice()
    }
}

/// The sites of pieces, in order.
pub(crate) fn sites_of<'p, 'm>(
    alloc: Global,
    pieces: &'p [Piece<'m>],
) -> Result<Vec<Site<'p, 'm>>, Memory>
    ensures { IfOk result (λ sites. sites.items ≡ pieces.now) }
{
    let mut sites = Vec::new(alloc);
    for piece in pieces {
        sites.push(Site::new(alloc, piece)?)?;
    }
    Ok(sites)
}
