// That no call of a table of objects breaks it: a law of the definitions.
ghost use Rattle.std.specs.Prelude.{ℕ, ℤ, ◌&&◌, List, Option, IsTrue, IfSome};
ghost use Rattle.std.specs.List.{list_all};
ghost use Rattle.pyn_base.specs.declared.class.ClassId.{ClassId};
ghost use Rattle.pyn_base.specs.declared.ids.ObjId.{ObjId};
ghost use Rattle.py_meaning.specs.declared.measured.Measured.{Measured};
ghost use Rattle.py_meaning.specs.declared.value.Value.{Value};
ghost use Rattle.py_meaning.specs.Worlds.{World, Pairs, object_at, elements, sound, sound_args, sound_world, dicts};
ghost use Rattle.py_meaning.specs.Sums.{add, is_list};
ghost use Rattle.py_meaning.specs.Operations.{args_of, list_get, attr_get, dict_get, make_list, make_dict, dict_copy, make_instance, list_set, list_insert, list_insert_free, list_extend, list_extend_free, list_reverse, list_remove, list_remove_free, list_pop, set_elements, dict_put, dict_delete, attr_set, set_args, clear};
ghost use Rattle.py_meaning.specs.DictMethods.{set_default};
ghost use Rattle.py_meaning.specs.SoundRuns.{Fits, AllFit, Gives, Holds, Made, WorldSound};

use crate::Value;

/// The same of each call of a table of objects: what it is given is sound for the world before it, what it hands out is sound for the
/// world after it, and so is all that was sound before. Where a call costs nothing and can't fail, the world after is the definition's own value.
pub fn laws_of_objects()
    ensures lists { (items : List Value) (world : World) → IsTrue (sound_world world) → AllFit world items → Gives (Made world) (make_list items world) }
    ensures dicts { (held : Pairs) (world : World) → IsTrue (sound_world world) → IsTrue (list_all (λ pair. sound (dicts world) pair.0 && sound (dicts world) pair.1) held) → Gives (Made world) (make_dict held world) }
    ensures copies { (dict : ObjId) (world : World) → IsTrue (sound_world world) → Gives (Made world) (dict_copy dict world) }
    ensures instances { (class : ClassId) (args : Option (Measured Value)) (world : World) → IsTrue (sound_world world) → IsTrue (sound_args (dicts world) args) → Made world (make_instance class args world) }
    ensures items { (list : ObjId) (at : ℤ) (world : World) → IsTrue (sound_world world) → IfSome (list_get list at world) (Fits world) }
    ensures elements { (list : ObjId) (world : World) → IsTrue (sound_world world) → AllFit world (elements world list) }
    ensures keys { (dict : ObjId) (key : Value) (world : World) → IsTrue (sound_world world) → Gives (Fits world) (dict_get dict key world) }
    ensures attributes { (instance : ObjId) (name : List ℕ) (world : World) → IsTrue (sound_world world) → IfSome (attr_get instance name world) (Fits world) }
    ensures arguments { (instance : ObjId) (world : World) → IsTrue (sound_world world) → IfSome (args_of (object_at world instance)) (λ args. Fits world (Value.Tuple args)) }
    ensures list_set { (list : ObjId) (at : ℤ) (v : Value) (world : World) → IsTrue (sound_world world) → Fits world v → Gives (WorldSound world) (list_set list at v world) }
    ensures list_insert { (list : ObjId) (at : ℤ) (v : Value) (world : World) → IsTrue (sound_world world) → Fits world v → Gives (WorldSound world) (list_insert list at v world) }
    ensures list_insert_free { (list : ObjId) (at : ℤ) (v : Value) (world : World) → IsTrue (sound_world world) → Fits world v → WorldSound world (tt {0}, list_insert_free list at v world) }
    ensures list_extend { (list : ObjId) (items : List Value) (world : World) → IsTrue (sound_world world) → AllFit world items → Gives (WorldSound world) (list_extend list items world) }
    ensures list_extend_free { (list : ObjId) (items : List Value) (world : World) → IsTrue (sound_world world) → AllFit world items → WorldSound world (tt {0}, list_extend_free list items world) }
    ensures set_elements { (list : ObjId) (items : List Value) (world : World) → IsTrue (sound_world world) → IsTrue (is_list (object_at world list)) → AllFit world items → WorldSound world (tt {0}, set_elements list items world) }
    ensures list_reverse { (list : ObjId) (world : World) → IsTrue (sound_world world) → Gives (WorldSound world) (list_reverse list world) }
    ensures list_remove { (list : ObjId) (at : ℤ) (world : World) → IsTrue (sound_world world) → Gives (Holds world) (list_remove list at world) }
    ensures list_remove_free { (list : ObjId) (at : ℤ) (world : World) → IsTrue (sound_world world) → Gives (Holds world) (list_remove_free list at world) }
    ensures list_pop { (list : ObjId) (world : World) → IsTrue (sound_world world) → Gives (Holds world) (list_pop list world) }
    ensures dict_put { (dict : ObjId) (key v : Value) (world : World) → IsTrue (sound_world world) → Fits world key → Fits world v → Gives (WorldSound world) (dict_put dict key v world) }
    ensures set_default { (dict : ObjId) (key v : Value) (world : World) → IsTrue (sound_world world) → Fits world key → Fits world v → Gives (Holds world) (set_default dict key v world) }
    ensures dict_delete { (dict : ObjId) (key : Value) (world : World) → IsTrue (sound_world world) → Gives (Holds world) (dict_delete dict key world) }
    ensures attr_set { (instance : ObjId) (name : List ℕ) (v : Value) (world : World) → IsTrue (sound_world world) → Fits world v → WorldSound world (tt {0}, attr_set instance name v world) }
    ensures set_args { (instance : ObjId) (args : Measured Value) (world : World) → IsTrue (sound_world world) → Fits world (Value.Tuple args) → WorldSound world (tt {0}, set_args instance args world) }
    ensures clear { (id : ObjId) (world : World) → IsTrue (sound_world world) → WorldSound world (tt {0}, clear id world) }
    ensures sums { (a b : Value) (world : World) → IsTrue (sound_world world) → Fits world a → Fits world b → Gives (Holds world) (add a b world) }
{}
