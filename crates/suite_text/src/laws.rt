// What the text of a suite is read as.
ghost use Rattle.suite_text.specs.Laws.{SuitesAreLines};

use py_printer::laws_of_printing;
use py_spelling::laws_of_spelling;

/// The text of a printable suite, as UTF-8, has exactly the logical lines that it was made of, and no fault.
pub fn law_of_suites()
    ensures { SuitesAreLines }
{
    laws_of_spelling();
    laws_of_printing();
}
