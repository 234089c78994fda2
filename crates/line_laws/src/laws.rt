// What holds of the lines of every module that is read.
ghost use Rattle.line_laws.specs.Laws.{LinesArePlain};

use py_language::laws_of_tokens;

/// Every module that reading gives has plain lines.
pub fn laws_of_lines()
    ensures plain { LinesArePlain }
{
    laws_of_tokens();
}
