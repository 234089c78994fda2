// Functions and classes of a module, by their numbers.
ghost use Rattle.std.specs.Prelude.{◌≡◌, [], ◌∷◌, ◌++◌, length, map, slice_get, IfOk, OnOk};
ghost use Rattle.std.specs.Option.{option_copied, option_map};
ghost use Rattle.py_meaning.specs.Methods.{named};
ghost use Rattle.py_plain.specs.Program.{function, methods_in, methods_from, assigned, base_of, class_info, program_of, numbered};
ghost use Rattle.py_tables.specs.Rows.{constants_in, assigned_now, item_functions, item_classes};

use crate::bound::{Spellings, locals_of};
use crate::built::built_class_named;
use py_name_sets::NameMap;
use py_syntax::{Class, Expr, Func, Item, Member, Module, Stmt, StmtKind, Target};
use pyn_base::{BuiltClass, ClassId, FuncId, Memory, Name};
use std::alloc::Global;
use std::marker::Model;

/// A function, with the class in which it is written and its locals.
#[derive(Drop)]
pub struct FunctionRow<'m> {
    tree: &'m Func,
    owner: Option<u32>,
    locals: Spellings<'m>,
}

impl<'m> Model for FunctionRow<'m> {
    ghost use Rattle.std.specs.Coded.{codes};
    ghost use Rattle.py_syntax.specs.contracts.module.Func as func;
    ghost use Rattle.py_plain.specs.Program.{Function};

    ghost Value = { Function };

    ghost coded = { Prim.hlevel (codes, func.the_row.coded) };

    ghost view = { λ f. record { tree = f.tree.now; owner = f.owner; locals = f.locals } };
}

impl<'m> FunctionRow<'m> {
    fn new(alloc: Global, owner: Option<u32>, tree: &'m Func) -> Result<FunctionRow<'m>, Memory>
        ensures { IfOk result (λ row. row ≡ function owner tree.now) }
    {
        Ok(FunctionRow {
            tree,
            owner,
            locals: locals_of(alloc, tree)?,
        })
    }

    pub fn tree(&self) -> &'m Func
        ensures { result.now ≡ self.now.tree }
    {
        self.tree
    }

    /// The class in which it is written.
    pub fn owner(&self) -> Option<u32>
        ensures { result ≡ self.now.owner }
    {
        self.owner
    }

    /// Every name that it binds.
    pub fn locals(&self) -> &Spellings<'m>
        ensures { result.now ≡ self.now.locals }
    {
        &self.locals
    }
}

/// A class, with its base, its methods and the trees of its constants.
#[derive(Drop)]
pub struct ClassRow<'m> {
    name: &'m Name,
    base: ClassId,
    methods: Vec<(&'m Name, FuncId)>,
    constants: Vec<(&'m Name, &'m Expr)>,
}

impl<'m> Model for ClassRow<'m> {
    ghost use Rattle.std.specs.Prelude.{map};
    ghost use Rattle.std.specs.Coded.{codes};
    ghost use Rattle.py_syntax.specs.contracts.expr.Expr as expr;
    ghost use Rattle.py_plain.specs.Program.{ClassInfo};

    ghost Value = { ClassInfo };

    ghost coded = { Prim.hlevel (codes, expr.the_row.coded) };

    ghost view = { λ c. record { name = c.name.now; base = c.base; methods = map (λ row. (row.0.now, row.1)) c.methods.items; constants = map (λ row. (row.0.now, row.1.now)) c.constants.items } };
}

impl<'m> ClassRow<'m> {
    pub fn name(&self) -> &'m Name
        ensures { result.now ≡ self.now.name }
    {
        self.name
    }

    pub fn base(&self) -> ClassId
        ensures { result ≡ self.now.base }
    {
        self.base
    }

    /// The names of its methods with their numbers, in order.
    pub fn methods(&self) -> &[(&'m Name, FuncId)]
        ensures { map (λ row. (row.0.now, row.1)) result.now ≡ self.now.methods }
    {
        self.methods.as_slice()
    }

    /// The method of a name.
    pub fn method(&self, name: &Name) -> Option<FuncId>
        ensures { result ≡ named self.now.methods name.now }
    {
        method_in(self.methods.as_slice(), name)
    }

    /// The names of its constants with the trees of their values, in order.
    pub fn constants(&self) -> &[(&'m Name, &'m Expr)]
        ensures { map (λ row. (row.0.now, row.1.now)) result.now ≡ self.now.constants }
    {
        self.constants.as_slice()
    }
}

fn method_in(rows: &[(&Name, FuncId)], name: &Name) -> Option<FuncId>
    ensures { result ≡ named (map (λ row. (row.0.now, row.1)) rows.now) name.now }
{
    for row in rows {
        if name.is_same(row.0) {
            return Some(row.1);
        }
    }
    None
}

/// Classes in the order of their lines, found by their names in logarithmic time.
#[derive(Drop)]
struct ClassRows<'m> {
    rows: Vec<ClassRow<'m>>,
    ids: NameMap<'m, ClassId>,
}

impl<'m> Model for ClassRows<'m> {
    ghost use Rattle.std.specs.Prelude.{◌≡◌, List};
    ghost use Rattle.std.specs.Coded.{codes, coded_list};
    ghost use Rattle.py_syntax.specs.contracts.expr.Expr as expr;
    ghost use Rattle.py_plain.specs.Program.{ClassInfo, numbered};

    ghost Value = { List ClassInfo };

    ghost coded = { Prim.hlevel (codes, expr.the_row.coded) };

    ghost view = { λ c. c.rows.items };

    ghost invariant = { λ c. c.ids ≡ numbered 0 c.rows.items };
}

impl<'m> ClassRows<'m> {
    fn new(alloc: Global) -> ClassRows<'m>
        ensures { result ≡ [] }
    {
        ClassRows {
            rows: Vec::new(alloc),
            ids: NameMap::new(alloc),
        }
    }

    fn as_slice(&self) -> &[ClassRow<'m>]
        ensures { result.now ≡ self.now }
    {
        self.rows.as_slice()
    }

    /// The first class of a name.
    fn class_named(&self, name: &Name) -> Option<ClassId>
        ensures { result ≡ named (numbered 0 self.now) name.now }
    {
        self.ids.get(name)
    }

    #[tactic(auto, using(crate::proofs::Numbers::numbered_push))]
    fn push(&mut self, row: ClassRow<'m>) -> Result<(), Memory>
        ensures { OnOk result (self.new ≡ self.old ++ row.entry ∷ []) }
    {
        let len = self.rows.len();
        let class = ClassId::Own(number_of(len)?);
        let name = row.name;
        self.rows.push(row)?;
        match self.ids.insert(name, class) {
            Ok(_) => Ok(()),
            Err(_) => {
                self.rows.truncate(len);
                Err(Memory)
            }
        }
    }
}

/// The tables of a module, which a contract sees as what the meaning needs of it.
#[derive(Drop)]
pub struct Tables<'m> {
    tree: &'m Module,
    functions: Vec<FunctionRow<'m>>,
    classes: ClassRows<'m>,
}

impl<'m> Model for Tables<'m> {
    ghost use Rattle.std.specs.Coded.{codes};
    ghost use Rattle.py_syntax.specs.contracts.expr.Expr as expr;
    ghost use Rattle.py_syntax.specs.contracts.module.Func as func;
    ghost use Rattle.py_plain.specs.Program.{Program, bindings_from};

    ghost Value = { Program };

    ghost coded = { Prim.hlevel (codes, expr.the_row.coded, func.the_row.coded) };

    ghost view = { λ t. record { functions = t.functions.items; classes = t.classes; bindings = bindings_from 0 0 t.tree.now.items } };
}

impl<'m> Tables<'m> {
    /// The tables of a module.
    pub fn new(alloc: Global, tree: &'m Module) -> Result<Tables<'m>, Memory>
        ensures { IfOk result (λ tables. tables ≡ program_of tree.now) }
    {
        let mut functions = Vec::new(alloc);
        let mut classes = ClassRows::new(alloc);
        for item in tree.items.as_slice() {
            add_item(alloc, &mut functions, &mut classes, item)?;
        }
        Ok(Tables {
            tree,
            functions,
            classes,
        })
    }

    /// The module.
    pub fn module(&self) -> &'m Module {
        self.tree
    }

    pub fn function(&self, f: FuncId) -> Option<&FunctionRow<'m>>
        ensures { option_copied result ≡ slice_get self.now.functions f.0 }
    {
        self.functions.get(f.0 as usize)
    }

    /// A class of the module, by its place in the order of their lines.
    pub fn class(&self, number: u32) -> Option<&ClassRow<'m>>
        ensures { option_copied result ≡ slice_get self.now.classes number }
    {
        self.classes.as_slice().get(number as usize)
    }

    /// The first class of a name.
    pub fn class_named(&self, name: &Name) -> Option<ClassId>
        ensures { result ≡ named (numbered 0 self.now.classes) name.now }
    {
        self.classes.class_named(name)
    }

    pub fn functions(&self) -> &[FunctionRow<'m>]
        ensures { result.now ≡ self.now.functions }
    {
        self.functions.as_slice()
    }

    pub fn classes(&self) -> &[ClassRow<'m>]
        ensures { result.now ≡ self.now.classes }
    {
        self.classes.as_slice()
    }
}

/// The number of a row that goes after so many. No table has room for more.
fn number_of(count: usize) -> Result<u32, Memory>
    ensures { IfOk result (λ number. number ≡ count) }
{
    match u32::try_from(count) {
        Ok(number) => Ok(number),
        Err(_) => Err(Memory),
    }
}

fn add_item<'m>(
    alloc: Global,
    functions: &mut Vec<FunctionRow<'m>>,
    classes: &mut ClassRows<'m>,
    item: &'m Item,
) -> Result<(), Memory>
    ensures functions { OnOk result (functions.new.items ≡ functions.old.items ++ item_functions (length classes.old) item.now) }
    ensures classes { OnOk result (classes.new ≡ item_classes classes.old (length functions.old.items) item.now) }
{
    match item {
        Item::Func(f) => {
            let row = FunctionRow::new(alloc, None, f)?;
            functions.push(row)?;
            Ok(())
        }
        Item::Class(c) => {
            add_class(alloc, functions, classes, c)?;
            Ok(())
        }
        Item::Import(_, _) => Ok(()),
        Item::Other(_) => Ok(()),
    }
}

fn add_class<'m>(
    alloc: Global,
    functions: &mut Vec<FunctionRow<'m>>,
    classes: &mut ClassRows<'m>,
    class: &'m Class,
) -> Result<(), Memory>
    ensures functions { OnOk result (functions.new.items ≡ functions.old.items ++ methods_in (length classes.old) class.now.members) }
    ensures classes { OnOk result (classes.new ≡ classes.old ++ class_info classes.old (length functions.old.items) class.now ∷ []) }
{
    let owner = number_of(classes.as_slice().len())?;
    let first = number_of(functions.len())?;
    let row = class_row(alloc, classes, first, class)?;
    add_methods(alloc, functions, owner, class.members.as_slice())?;
    classes.push(row)?;
    Ok(())
}

fn add_methods<'m>(
    alloc: Global,
    functions: &mut Vec<FunctionRow<'m>>,
    class: u32,
    members: &'m [Member],
) -> Result<(), Memory>
    ensures { OnOk result (functions.new.items ≡ functions.old.items ++ methods_in class members.now) }
{
    for member in members {
        match member {
            Member::Func(f) => functions.push(FunctionRow::new(alloc, Some(class), f)?)?,
            Member::Other(_) => {}
        }
    }
    Ok(())
}

fn methods_of<'m>(
    alloc: Global,
    first: u32,
    members: &'m [Member],
) -> Result<Vec<(&'m Name, FuncId)>, Memory>
    ensures { IfOk result (λ methods. map (λ row. (row.0.now, row.1)) methods.items ≡ methods_from first members.now) }
{
    let mut methods = Vec::new(alloc);
    let mut number = first as usize;
    for member in members {
        match member {
            Member::Func(f) => {
                methods.push((&f.name, FuncId(number_of(number)?)))?;
                number += 1;
            }
            Member::Other(_) => {}
        }
    }
    Ok(methods)
}

/// The name and the value of an assignment to one name.
#[tactic(auto, using(crate::proofs::Assigned::assigned_kinds))]
pub fn assigned_in<'m>(stmt: &'m Stmt) -> Option<(&'m Name, &'m Expr)>
    ensures { option_map assigned_now result ≡ assigned stmt.now }
{
    match &stmt.kind {
        StmtKind::Assign(targets, _, _, e) => match targets.as_slice() {
            [Target::Name(name)] => Some((name, e)),
            _ => None,
        },
        _ => None,
    }
}

fn constants_of<'m>(
    alloc: Global,
    members: &'m [Member],
) -> Result<Vec<(&'m Name, &'m Expr)>, Memory>
    ensures { IfOk result (λ constants. map assigned_now constants.items ≡ constants_in members.now) }
{
    let mut constants = Vec::new(alloc);
    for member in members {
        match member {
            Member::Func(_) => {}
            Member::Other(stmt) => {
                if let Some(constant) = assigned_in(stmt) {
                    constants.push(constant)?;
                }
            }
        }
    }
    Ok(constants)
}

fn base_of(classes: &ClassRows, name: &Option<Name>) -> ClassId
    ensures { result ≡ base_of classes.now name.now }
{
    let Some(name) = name else {
        return ClassId::Built(BuiltClass::Object);
    };
    if let Some(class) = classes.class_named(name) {
        return class;
    }
    match built_class_named(name) {
        Some(class) => ClassId::Built(class),
        None => ClassId::Built(BuiltClass::Object),
    }
}

fn class_row<'m>(
    alloc: Global,
    classes: &ClassRows<'m>,
    functions: u32,
    class: &'m Class,
) -> Result<ClassRow<'m>, Memory>
    ensures { IfOk result (λ row. row ≡ class_info classes.now functions class.now) }
{
    Ok(ClassRow {
        name: &class.name,
        base: base_of(classes, &class.base),
        methods: methods_of(alloc, functions, class.members.as_slice())?,
        constants: constants_of(alloc, class.members.as_slice())?,
    })
}
