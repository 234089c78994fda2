// The laws of printing, proved for every tree.
ghost use Rattle.py_printing.specs.Expressions.{ExpressionsReadBack, TreesReadBack, SoundTreesAreSound, SoundExpressionsReadBack, TreesAreBalanced, ShapesReadBack};
ghost use Rattle.py_printing.specs.ShapeLaws.{FittingAreRead, OnlyFittingAreRead, ReadFromOwnTokens};
ghost use Rattle.py_printing.specs.Texts.{TextsReadBack};

use py_spelling::laws_of_spelling;

/// A shape that fits is read from the tokens of its text; only shapes that fit are read from any tokens; and so whatever any tokens
/// are read as, at any level and depth, is read from its own tokens at that level and depth.
pub fn laws_of_shapes()
    ensures fitting { FittingAreRead }
    ensures only { OnlyFittingAreRead }
    ensures back { ReadFromOwnTokens }
{}

/// Whatever any tokens are read as, no deeper than 50, is read again from its text, in any style of spaces, where its names,
/// integers and strings are those of a text: the same shape, and the same tree up to lines and node numbers. They are those of a
/// text wherever the tokens that were read are. Their brackets close in order, whatever comes after them. The shape of a
/// tree's own tokens is that of the tree.
pub fn laws_of_expressions()
    ensures shapes { TextsReadBack }
    ensures trees { TreesReadBack }
    ensures expressions { ExpressionsReadBack }
    ensures sound_trees { SoundTreesAreSound }
    ensures sound { SoundExpressionsReadBack }
    ensures balanced { TreesAreBalanced }
    ensures own_shapes { ShapesReadBack }
{
    laws_of_spelling();
}
