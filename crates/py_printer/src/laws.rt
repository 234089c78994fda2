// The laws of printing, proved for every tree and every row of lines.
ghost use Rattle.py_printer.specs.Lines.{LinesReadBack, TextsAreCharacters};
ghost use Rattle.py_printer.specs.ReadBack.{StyledReadBack};

use py_printing::laws_of_expressions;
use py_spelling::laws_of_spelling;

/// The text of the tree of any tokens of a text is read back: it is one logical line without a fault, and the tree of its tokens is
/// the same, up to lines and node numbers. So brackets are wherever the tree needs them. Lines of any tokens that a text can hold,
/// at any columns and with any blank lines before them, are read back as those logical lines. The text of such tokens is characters of Unicode.
pub fn laws_of_printing()
    ensures back { StyledReadBack }
    ensures lines { LinesReadBack }
    ensures characters { TextsAreCharacters }
{
    laws_of_spelling();
    laws_of_expressions();
}
