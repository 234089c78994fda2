// What holds of the names of every module that is read, and of every module that is accepted.
ghost use Rattle.name_laws.specs.Laws.{AcceptedNamesAreFound, NamesAreIdentifiers};

use py_spelling::laws_of_spelling;

/// The name of each function, and of each class, of a module that reading gives is an identifier that is no keyword. Methods are functions
/// too.
pub fn laws_of_read_names()
    ensures identifiers { NamesAreIdentifiers }
{
    laws_of_spelling();
}

/// Each function that is no method, and each class, of a module that is accepted is found by its name, and no name is that of both.
pub fn laws_of_accepted_names()
    ensures found { AcceptedNamesAreFound }
{}
