// The tests of small modules.
ghost use Rattle.call_tests.specs.Examples.{Box, Plain, Unknown, Lists, Dicts, Optional, Instances, OfItself, Private};

use suite_model::laws_of_types;

/// Functions, a method, an instance that is given one, a class that is given itself, and one that is no callable.
pub fn tests_by_example()
    ensures full_box { Box }
    ensures plain { Plain }
    ensures unknown { Unknown }
    ensures lists { Lists }
    ensures dicts { Dicts }
    ensures optional { Optional }
    ensures instances { Instances }
    ensures of_itself { OfItself }
    ensures private_class { Private }
{
    laws_of_types();
}
