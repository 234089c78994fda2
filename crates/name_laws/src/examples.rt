// Programs whose names are found or not, and names that are identifiers or not.
ghost use Rattle.name_laws.specs.Examples.{FunctionNamedAsClass, FunctionsOfOneName, Identifiers, Keyword, MethodNotInTheWay, NoName};

/// A method may have a function's name; another function may not, and no class may.
pub fn found_by_example()
    ensures method { MethodNotInTheWay }
    ensures functions { FunctionsOfOneName }
    ensures class { FunctionNamedAsClass }
{}

/// Names that are identifiers, a keyword, and a name that begins with a digit.
pub fn identifiers_by_example()
    ensures identifiers { Identifiers }
    ensures keyword { Keyword }
    ensures no_name { NoName }
{}
