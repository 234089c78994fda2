// Texts of modules, worked out by hand.
ghost use Rattle.std.specs.Prelude.{◌≡◌, codes};
ghost use Rattle.module_printer.specs.Examples.{one_function, a_class, branches};
ghost use Rattle.module_printer.specs.Modules.{module_text};

/// A function alone, a class between other parts, each with its empty lines, and an `if` with all its parts.
pub fn modules_by_example()
    ensures function { module_text one_function ≡ codes "def f():\n    return 1\n" }
    ensures class { module_text a_class ≡ codes "from typing import Optional\nx = 1\n\n\nclass A(B):\n    y = 1\n\n    def f(self):\n        return 1\n\n    def g(self, z):\n        return 1\n\n\ndef h():\n    return 1\n" }
    ensures branches { module_text branches ≡ codes "if a:\n    x, = b\nelif b:\n    pass\nelse:\n    pass\n    pass\n" }
{}
