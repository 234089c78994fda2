// Suite files as texts, worked out by hand.
ghost use Rattle.suite_grammar.specs.Examples.{Empty, Layouts, Items, Imports, Strays};

/// Texts with what is in them, and texts that are refused; the items of `with`.
pub fn files_by_example()
    ensures empty { Empty }
    ensures layouts { Layouts }
    ensures items { Items }
    ensures imports { Imports }
    ensures strays { Strays }
{}
