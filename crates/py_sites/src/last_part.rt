// The last part of a node whose own number is not above a limit.
ghost use Rattle.std.specs.Prelude.{◌≡◌, ◌≤◌, length};
ghost use Rattle.std.specs.List.{prefix_len, flat_map};
ghost use Rattle.py_sites.specs.Code.{precedes};
ghost use Rattle.py_sites.specs.Refs.{seen, seen_option};
ghost use Rattle.py_sites.specs.Walks.{nearer, last_from, expr_part as part_of_expr, stmt_part as part_of_stmt, node_part};

use crate::node_ref::{NodeRef, number_of};
use py_syntax::{Args, Clause, CmpOp, Expr, ExprKind, Func, Item, Member, Stmt, StmtKind, Target};
use pyn_base::Name;
use sqlite_items::{Boxed, Items};

/// The next node, unless its number is above the limit.
fn nearer<'a>(
    limit: Option<u32>,
    best: Option<NodeRef<'a>>,
    next: NodeRef<'a>,
) -> Option<NodeRef<'a>>
    ensures { seen_option result ≡ nearer limit (seen_option best.entry) (seen next.entry) }
{
    match limit {
        None => Some(next),
        Some(up_to) => {
            if number_of(next) <= up_to {
                Some(next)
            } else {
                best
            }
        }
    }
}

/// What is made of nodes.
pub trait Parted {
    ghost use Rattle.std.specs.Prelude.{List};
    ghost use Rattle.py_sites.specs.Nodes.{Node};

    /// The nodes that it is made of, in the order of reading.
    ghost listed: { Self → List Node };

    /// The last of them whose own number is not above the limit, or else the best that was found before.
    fn last_part<'a>(&'a self, limit: Option<u32>, best: Option<NodeRef<'a>>) -> Option<NodeRef<'a>>
        ensures { seen_option result ≡ last_from limit (seen_option best.entry) (listed self.now) };
}

impl Parted for Expr {
    ghost use Rattle.std.specs.Prelude.{[], ◌∷◌};
    ghost use Rattle.py_sites.specs.Nodes.{expression};

    ghost listed = { λ e. expression e ∷ [] };

    fn last_part<'a>(
        &'a self,
        limit: Option<u32>,
        best: Option<NodeRef<'a>>,
    ) -> Option<NodeRef<'a>> {
        nearer(limit, best, NodeRef::Expr(self))
    }
}

impl Parted for Stmt {
    ghost use Rattle.std.specs.Prelude.{[], ◌∷◌};
    ghost use Rattle.py_sites.specs.Nodes.{statement};

    ghost listed = { λ s. statement s ∷ [] };

    fn last_part<'a>(
        &'a self,
        limit: Option<u32>,
        best: Option<NodeRef<'a>>,
    ) -> Option<NodeRef<'a>> {
        nearer(limit, best, NodeRef::Stmt(self))
    }
}

impl Parted for Clause {
    ghost use Rattle.std.specs.Prelude.{[], ◌∷◌};
    ghost use Rattle.py_sites.specs.Nodes.{clause};

    ghost listed = { λ c. clause c ∷ [] };

    fn last_part<'a>(
        &'a self,
        limit: Option<u32>,
        best: Option<NodeRef<'a>>,
    ) -> Option<NodeRef<'a>> {
        nearer(limit, best, NodeRef::Clause(self))
    }
}

impl Parted for Func {
    ghost use Rattle.std.specs.Prelude.{[], ◌∷◌};
    ghost use Rattle.py_sites.specs.Nodes.{function};

    ghost listed = { λ f. function f ∷ [] };

    fn last_part<'a>(
        &'a self,
        limit: Option<u32>,
        best: Option<NodeRef<'a>>,
    ) -> Option<NodeRef<'a>> {
        nearer(limit, best, NodeRef::Func(self))
    }
}

impl Parted for Target {
    ghost use Rattle.py_sites.specs.Nodes.{target_parts, expression};

    ghost listed = { λ t. target_parts expression t };

    fn last_part<'a>(
        &'a self,
        limit: Option<u32>,
        best: Option<NodeRef<'a>>,
    ) -> Option<NodeRef<'a>> {
        match self {
            Target::Name(_) => best,
            Target::Attr(x, _) => x.last_part(limit, best),
            Target::Index(x, i) => i.last_part(limit, x.last_part(limit, best)),
        }
    }
}

impl Parted for (Expr, Expr) {
    ghost use Rattle.std.specs.Prelude.{[], ◌∷◌};
    ghost use Rattle.py_sites.specs.Nodes.{expression};

    ghost listed = { λ p. expression p.0 ∷ expression p.1 ∷ [] };

    fn last_part<'a>(
        &'a self,
        limit: Option<u32>,
        best: Option<NodeRef<'a>>,
    ) -> Option<NodeRef<'a>> {
        self.1.last_part(limit, self.0.last_part(limit, best))
    }
}

impl Parted for (CmpOp, Expr) {
    ghost use Rattle.std.specs.Prelude.{[], ◌∷◌};
    ghost use Rattle.py_sites.specs.Nodes.{expression};

    ghost listed = { λ p. expression p.1 ∷ [] };

    fn last_part<'a>(
        &'a self,
        limit: Option<u32>,
        best: Option<NodeRef<'a>>,
    ) -> Option<NodeRef<'a>> {
        self.1.last_part(limit, best)
    }
}

impl Parted for (Expr, Items<Stmt>) {
    ghost use Rattle.std.specs.Prelude.{◌∷◌, map};
    ghost use Rattle.py_sites.specs.Nodes.{expression, statement};

    ghost listed = { λ arm. expression arm.0 ∷ map statement arm.1 };

    #[tactic(auto, using(crate::proofs::Lists::singles))]
    fn last_part<'a>(
        &'a self,
        limit: Option<u32>,
        best: Option<NodeRef<'a>>,
    ) -> Option<NodeRef<'a>> {
        self.1.last_part(limit, self.0.last_part(limit, best))
    }
}

impl Parted for Member {
    ghost use Rattle.std.specs.Prelude.{map};
    ghost use Rattle.py_sites.specs.Nodes.{member_functions, function};

    ghost listed = { λ m. map function (member_functions m) };

    fn last_part<'a>(
        &'a self,
        limit: Option<u32>,
        best: Option<NodeRef<'a>>,
    ) -> Option<NodeRef<'a>> {
        match self {
            Member::Func(f) => f.last_part(limit, best),
            Member::Other(_) => best,
        }
    }
}

impl Parted for Item {
    ghost use Rattle.std.specs.Prelude.{map};
    ghost use Rattle.py_sites.specs.Nodes.{item_functions, function};

    ghost listed = { λ i. map function (item_functions i) };

    #[tactic(auto, using(crate::proofs::Lists::members))]
    fn last_part<'a>(
        &'a self,
        limit: Option<u32>,
        best: Option<NodeRef<'a>>,
    ) -> Option<NodeRef<'a>> {
        match self {
            Item::Func(f) => f.last_part(limit, best),
            Item::Class(c) => c.members.last_part(limit, best),
            Item::Import(_, _) => best,
            Item::Other(_) => best,
        }
    }
}

impl<T: Parted> Parted for Boxed<T> {
    ghost listed = { T.listed };

    fn last_part<'a>(
        &'a self,
        limit: Option<u32>,
        best: Option<NodeRef<'a>>,
    ) -> Option<NodeRef<'a>> {
        self.get().last_part(limit, best)
    }
}

impl<T: Parted> Parted for Option<T> {
    ghost use Rattle.py_sites.specs.Walks.{of_option};

    ghost listed = { of_option T.listed };

    fn last_part<'a>(
        &'a self,
        limit: Option<u32>,
        best: Option<NodeRef<'a>>,
    ) -> Option<NodeRef<'a>> {
        match self {
            None => best,
            Some(x) => x.last_part(limit, best),
        }
    }
}

/// The last of what the items of a slice are made of.
fn slice_part<'a, T: Parted>(
    xs: &'a [T],
    limit: Option<u32>,
    best: Option<NodeRef<'a>>,
) -> Option<NodeRef<'a>>
    ensures { seen_option result ≡ last_from limit (seen_option best.entry) (flat_map T.listed xs.now) }
{
    let mut found = best;
    for one in xs {
        found = one.last_part(limit, found);
    }
    found
}

impl<T: Parted> Parted for Items<T> {
    ghost use Rattle.std.specs.List.{flat_map};

    ghost listed = { flat_map T.listed };

    fn last_part<'a>(
        &'a self,
        limit: Option<u32>,
        best: Option<NodeRef<'a>>,
    ) -> Option<NodeRef<'a>> {
        slice_part(self.as_slice(), limit, best)
    }
}

impl Parted for (Name, Expr) {
    ghost use Rattle.py_sites.specs.Walks.{named_node};

    ghost listed = { named_node };

    fn last_part<'a>(
        &'a self,
        limit: Option<u32>,
        best: Option<NodeRef<'a>>,
    ) -> Option<NodeRef<'a>> {
        self.1.last_part(limit, best)
    }
}

/// Whether a named argument was written before the argument that has this number.
fn precedes(argument: &(Name, Expr), number: u32) -> bool
    ensures { result ≡ precedes number argument.now }
{
    argument.1.node.0 < number
}

/// How many of the named arguments in front were written before the argument that has this number.
fn written_before(named: &[(Name, Expr)], number: u32) -> usize
    ensures count { result ≡ prefix_len (precedes number) named.now }
    ensures within { result ≤ length named.now }
{
    for (i, n) in named.iter().enumerate() {
        if !precedes(n, number) {
            return i;
        }
    }
    named.len()
}

impl Parted for Args {
    ghost use Rattle.std.specs.Prelude.{map};
    ghost use Rattle.py_sites.specs.Nodes.{args_of, expression};

    ghost listed = { λ given. map expression (args_of given) };

    fn last_part<'a>(
        &'a self,
        limit: Option<u32>,
        best: Option<NodeRef<'a>>,
    ) -> Option<NodeRef<'a>> {
        let mut found = best;
        let all = self.plain.as_slice();
        let mut left = self.named.as_slice();
        for x in all {
            let (front, back) = left.split_at(written_before(left, x.node.0));
            found = x.last_part(limit, slice_part(front, limit, found));
            left = back;
        }
        slice_part(left, limit, found)
    }
}

/// The last part of an expression.
#[tactic(auto, using(crate::proofs::LastParts::expressions))]
fn expr_part<'a>(kind: &'a ExprKind, limit: Option<u32>) -> Option<NodeRef<'a>>
    ensures { seen_option result ≡ part_of_expr limit kind.now }
{
    match kind {
        ExprKind::ListLit(xs) => xs.last_part(limit, None),
        ExprKind::TupleLit(xs) => xs.last_part(limit, None),
        ExprKind::DictLit(pairs) => pairs.last_part(limit, None),
        ExprKind::Unary(_, x) => x.last_part(limit, None),
        ExprKind::Not(x) => x.last_part(limit, None),
        ExprKind::Binary(_, a, b) => b.last_part(limit, a.last_part(limit, None)),
        ExprKind::And(xs) => xs.last_part(limit, None),
        ExprKind::Or(xs) => xs.last_part(limit, None),
        ExprKind::Compare(x, pairs) => pairs.last_part(limit, x.last_part(limit, None)),
        ExprKind::Cond(a, test, b) => {
            let condition = test.last_part(limit, a.last_part(limit, None));
            b.last_part(limit, condition)
        }
        ExprKind::Attr(x, _) => x.last_part(limit, None),
        ExprKind::Index(x, i) => i.last_part(limit, x.last_part(limit, None)),
        ExprKind::Slice(x, a, b) => {
            let low = a.last_part(limit, x.last_part(limit, None));
            b.last_part(limit, low)
        }
        ExprKind::Call(x, given) => given.last_part(limit, x.last_part(limit, None)),
        ExprKind::Method(x, _, given) => given.last_part(limit, x.last_part(limit, None)),
        ExprKind::Super(_, given) => given.last_part(limit, None),
        ExprKind::NoneLit => None,
        ExprKind::BoolLit(_) => None,
        ExprKind::IntLit(_) => None,
        ExprKind::StrLit(_) => None,
        ExprKind::Name(_) => None,
    }
}

/// The last part of a statement.
#[tactic(auto, using(crate::proofs::LastParts::statements))]
fn stmt_part<'a>(kind: &'a StmtKind, limit: Option<u32>) -> Option<NodeRef<'a>>
    ensures { seen_option result ≡ part_of_stmt limit kind.now }
{
    match kind {
        StmtKind::Pass => None,
        StmtKind::Break => None,
        StmtKind::Continue => None,
        StmtKind::Return(x) => x.last_part(limit, None),
        StmtKind::Raise(x) => x.last_part(limit, None),
        StmtKind::Assert(x, message) => message.last_part(limit, x.last_part(limit, None)),
        StmtKind::Del(x, i) => i.last_part(limit, x.last_part(limit, None)),
        StmtKind::Assign(targets, _, _, x) => x.last_part(limit, targets.last_part(limit, None)),
        StmtKind::Augment(target, _, x) => x.last_part(limit, target.last_part(limit, None)),
        StmtKind::Bare(x) => x.last_part(limit, None),
        StmtKind::If(arms, other) => other.last_part(limit, arms.last_part(limit, None)),
        StmtKind::While(x, body) => body.last_part(limit, x.last_part(limit, None)),
        StmtKind::For(_, _, x, body) => body.last_part(limit, x.last_part(limit, None)),
        StmtKind::Try(body, clauses, other, last) => {
            let handled = clauses.last_part(limit, body.last_part(limit, None));
            last.last_part(limit, other.last_part(limit, handled))
        }
    }
}

/// The last part of a node whose own number is not above the limit.
#[tactic(auto, using(crate::proofs::LastParts::nodes_parts))]
pub fn part_of<'a>(node: NodeRef<'a>, limit: Option<u32>) -> Option<NodeRef<'a>>
    ensures { seen_option result ≡ node_part limit (seen node.entry) }
{
    match node {
        NodeRef::Func(f) => f.body.last_part(limit, None),
        NodeRef::Stmt(s) => stmt_part(&s.kind, limit),
        NodeRef::Clause(c) => c.body.last_part(limit, None),
        NodeRef::Expr(e) => expr_part(&e.kind, limit),
    }
}
