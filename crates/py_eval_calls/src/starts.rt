// Calls that begin (Language Reference 6.3.4).
ghost use Rattle.std.specs.Prelude.{◌≡◌, ◌≤◌, IfOk};
ghost use Rattle.py_syntax.specs.declared.expr.Args.{Args as Arguments};
ghost use Rattle.py_syntax.specs.declared.expr.Expr.{Expr as Part};
ghost use Rattle.py_syntax.specs.declared.expr.ExprKind.{ExprKind-F};
ghost use Rattle.py_syntax.specs.declared.stmt.Stmt.{Stmt as Statement};
ghost use Rattle.py_plain.specs.Expressions.{calls_expr, calls_meant, calls_super};
ghost use Rattle.py_plain.specs.Nodes.{kind_of_expr};
ghost use Rattle.py_plain.specs.Runs.{Watcher, Run, Finding as Found, watched_by};
ghost use Rattle.py_plain.specs.Statements.{value_of, means};
ghost use Rattle.py_frames.specs.Rest.{Goes};
ghost use Rattle.py_eval.specs.Transitions.{Starts};

use crate::arguments::start_arguments;
use crate::functions::begins;
use py_calls::find_super;
use py_frames::{Argument, Control, Doing, Pending, Probe, laws_of_frames};
use py_lookups::builtin_meant;
use py_meaning::Builtin;
use py_objects::Objects;
use py_plain::{Abrupt, Callee, State};
use py_syntax::{Args, Expr, ExprKind};
use py_tables::Tables;
use pyn_base::{Memory, Name};
use sqlite_items::Boxed;

/// `object.name(args)`: the object comes first.
pub fn start_method<'s, W>(
    stack: &mut Vec<Control<'s>>,
    of: &'s Boxed<Expr>,
    name: &'s Name,
    args: &'s Args,
) -> Result<Doing<'s>, Memory>
    ensures { IfOk result (λ next. Starts W stack.old.items (ExprKind-F.Method of.now name.now args.now) stack.new.items next) }
{
    laws_of_frames::<W>();
    stack.push(Control::Then(Pending::Argument(Argument::Receiver(name, args))))?;
    Ok(Doing::Eval(of.get()))
}

/// `super().name(args)`: the name is looked up first.
pub fn start_super<'s, P: Probe>(
    s: &mut State<Objects, P>,
    stack: &mut Vec<Control<'s>>,
    tables: &'s Tables<'_>,
    name: &Name,
    args: &'s Args,
) -> Result<Doing<'s>, Memory>
    ensures meant { let watcher = watched_by P.after_began P.after_judged in IfOk result (λ next. Goes watcher tables.now stack.old.items (calls_super watcher tables.now (value_of watcher tables.now) (means watcher tables.now) name.now args.now) s.old stack.new.items next s.new) }
    ensures spends { IfOk result (λ _. s.new.left ≤ s.old.left) }
{
    match find_super(s, tables, name)? {
        Ok(found) => {
            let next = start_arguments(s, stack, tables, found, args)?;
            Ok(next)
        }
        Err(why) => Ok(Doing::Finished(Err(why))),
    }
}

/// The built-in function that is called, which is no value, if it is one.
fn builtin_called<P: Probe>(s: &State<Objects, P>, tables: &Tables, f: &Expr) -> Option<Builtin>
    ensures { (watcher : Watcher P) (value : Part → Run P Found) (does : Statement → Run P Found) (args : Arguments) → calls_expr watcher tables.now value does (kind_of_expr f.now) f.now args s.now ≡ calls_meant watcher tables.now value does result f.now args s.now }
{
    match &f.kind {
        ExprKind::Name(name) => builtin_meant(s, tables, name),
        _ => None,
    }
}

/// A call: its callee comes first, and a built-in function's node begins though it is no value.
pub fn start_call<'s, P: Probe>(
    s: &mut State<Objects, P>,
    stack: &mut Vec<Control<'s>>,
    tables: &'s Tables<'_>,
    f: &'s Boxed<Expr>,
    args: &'s Args,
) -> Result<Doing<'s>, Memory>
    ensures meant { let watcher = watched_by P.after_began P.after_judged in IfOk result (λ next. Goes watcher tables.now stack.old.items (calls_expr watcher tables.now (value_of watcher tables.now) (means watcher tables.now) (kind_of_expr f.now) f.now args.now) s.old stack.new.items next s.new) }
    ensures spends { IfOk result (λ _. s.new.left ≤ s.old.left) }
{
    laws_of_frames::<P>();
    let f = f.get();
    match builtin_called(s, tables, f) {
        None => {
            stack.push(Control::Then(Pending::Argument(Argument::Callee(args))))?;
            Ok(Doing::Eval(f))
        }
        Some(id) => {
            if begins(s, f.node) {
                let next = start_arguments(s, stack, tables, Callee::Builtin(id), args)?;
                Ok(next)
            } else {
                Ok(Doing::Finished(Err(Abrupt::OutOfSteps)))
            }
        }
    }
}
