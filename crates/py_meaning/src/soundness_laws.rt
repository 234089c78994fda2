// That no operation breaks a world: a law of the definitions, and so of every call that is proved to be its definition.
ghost use Rattle.std.specs.Prelude.{ℕ, List, IsTrue};
ghost use Rattle.py_syntax.specs.declared.operator.BinOp.{BinOp};
ghost use Rattle.py_syntax.specs.declared.operator.CmpOp.{CmpOp};
ghost use Rattle.py_syntax.specs.declared.operator.Sign.{Sign};
ghost use Rattle.py_meaning.specs.declared.builtin.Builtin.{Builtin};
ghost use Rattle.py_meaning.specs.declared.value.Value.{Value};
ghost use Rattle.py_meaning.specs.Worlds.{World, sound_world};
ghost use Rattle.py_meaning.specs.Walk.{walk};
ghost use Rattle.py_meaning.specs.Arithmetic.{unary};
ghost use Rattle.py_meaning.specs.Operators.{binary, augment, compare};
ghost use Rattle.py_meaning.specs.Subscripts.{get_item, put_item, delete_item, slice};
ghost use Rattle.py_meaning.specs.Builtins.{call_builtin};
ghost use Rattle.py_meaning.specs.Methods.{call_method};
ghost use Rattle.py_meaning.specs.SoundRuns.{Fits, AllFit, Answering, Gives, Holds, WorldSound};

/// In a sound world each reference names an object, each view of a dict a dict, and no tuple is too deep. An operation on values that
/// are sound for it leaves it sound, what the operation hands out is sound for the world after it, and so is what was sound for
/// the world before. No operation is out of memory: only the program can be.
pub fn laws_of_soundness()
    ensures walks { (v : Value) (world : World) → IsTrue (sound_world world) → Fits world v → Gives (AllFit world) (walk world v) }
    ensures operators { (op : BinOp) (a b : Value) (world : World) → IsTrue (sound_world world) → Fits world a → Fits world b → Gives (Holds world) (binary op a b world) }
    ensures augmented { (op : BinOp) (a b : Value) (world : World) → IsTrue (sound_world world) → Fits world a → Fits world b → Gives (Holds world) (augment op a b world) }
    ensures signs { (sign : Sign) (a : Value) → Answering (unary sign a) }
    ensures comparisons { (op : CmpOp) (a b : Value) (world : World) → Answering (compare op a b world) }
    ensures subscriptions { (of at : Value) (world : World) → IsTrue (sound_world world) → Fits world of → Gives (Fits world) (get_item of at world) }
    ensures stores { (of at new : Value) (world : World) → IsTrue (sound_world world) → Fits world at → Fits world new → Gives (WorldSound world) (put_item of at new world) }
    ensures deletions { (of at : Value) (world : World) → IsTrue (sound_world world) → Gives (WorldSound world) (delete_item of at world) }
    ensures slices { (of low high : Value) (world : World) → IsTrue (sound_world world) → Fits world of → Gives (Holds world) (slice of low high world) }
    ensures builtins { (id : Builtin) (args : List Value) (world : World) → IsTrue (sound_world world) → AllFit world args → Gives (Holds world) (call_builtin id args world) }
    ensures methods { (receiver : Value) (name : List ℕ) (args : List Value) (world : World) → IsTrue (sound_world world) → AllFit world args → Gives (Holds world) (call_method receiver name args world) }
{}
