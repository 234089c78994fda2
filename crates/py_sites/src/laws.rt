// What is known of the nodes of every module.
ghost use Rattle.std.specs.Prelude.{◌≡◌, ◌∷◌};
ghost use Rattle.std.specs.List.{flat_map, AllByRecursion};
ghost use Rattle.py_syntax.specs.declared.module.Module.{Module};
ghost use Rattle.py_nodes.specs.Numbers.{numbered};
ghost use Rattle.py_sites.specs.Nodes.{Node, nodes, parts, nodes_of, all_functions, Ascend, IsNumbered, AreConsecutive};

/// A node is listed before those in its parts, and they in the order of its parts.
#[tactic(auto, using(crate::proofs::StmtLevels::node_level))]
pub fn laws_of_nodes()
    ensures level { (x : Node) → nodes x ≡ x ∷ flat_map nodes (parts x) }
{}

/// The nodes of a module that was numbered have the numbers 0, 1, 2 and so on, in the order of reading and so a node before its parts,
/// and the module tells how many they are.
#[tactic(auto, using(crate::proofs::Dense::dense))]
pub fn laws_of_numbering()
    ensures dense { (m : Module) → IsNumbered (numbered m) }
{}

/// What follows where the nodes have the numbers 0, 1, 2 and so on: they ascend, and those of each body follow its function's own.
#[tactic(auto, using(crate::proofs::Orders::numbered_ascends, crate::proofs::Orders::numbered_functions))]
pub fn laws_of_numbered()
    ensures ascend { (m : Module) → IsNumbered m → Ascend (nodes_of m) }
    ensures consecutive { (m : Module) → IsNumbered m → AllByRecursion AreConsecutive (all_functions m) }
{}
