// Which statements begin on a line.
ghost use Rattle.std.specs.Prelude.{◌≡◌, ℕ, IfOk, OnOk};
ghost use Rattle.goal_graph.specs.Lines.{started, started_after, some_nodes, starts};

use goal_model::Point;
use py_syntax::Line;
use pyn_base::{Memory, NodeId};
use std::alloc::Global;
use std::collections::BTreeMap;

/// The statements that begin on each line.
pub(crate) type Starts = BTreeMap<u64, Vec<NodeId>>;

/// The statements of points, by their lines.
#[tactic(auto, using(crate::proofs::LinesLeft::statement_starts, crate::proofs::LinesLeft::decision_starts))]
pub(crate) fn starts_of(alloc: Global, points: &[Point]) -> Result<Starts, Memory>
    ensures { IfOk result (λ lines. (q : ℕ) → started lines q ≡ some_nodes (starts points.now q)) }
{
    let mut lines = BTreeMap::new(alloc);
    for point in points {
        match point {
            Point::Statement(node, line, _) => add_start(alloc, &mut lines, *line, *node)?,
            Point::Decision(_, _, _) => {}
        }
    }
    Ok(lines)
}

fn add_start(alloc: Global, lines: &mut Starts, line: Line, node: NodeId) -> Result<(), Memory>
    ensures { OnOk result ((q : ℕ) → started lines.new q ≡ started_after (started lines.old) line node q) }
{
    let mut nodes = match lines.remove(&line) {
        Some(nodes) => nodes,
        None => Vec::new(alloc),
    };
    nodes.push(node)?;
    lines.insert(line, nodes)?;
    Ok(())
}
