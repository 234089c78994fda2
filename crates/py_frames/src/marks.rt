// Which nodes began, and which outcomes came.
ghost use Rattle.std.specs.Prelude.{◌≡◌, Bool, replicate, slice_get, IfOk};
ghost use Rattle.pyn_base.specs.declared.ids.NodeId.{NodeId};
ghost use Rattle.py_plain.specs.declared.judged.Judged.{Judged};
ghost use Rattle.py_frames.specs.Marked.{unmarked, begun, came, marked, has_begun, has_come};

use crate::Probe;
use py_plain::Judged;
use pyn_base::{Memory, NodeId};
use std::alloc::Global;
use std::marker::Model;

/// What is known of a node: whether it began, and which outcomes its decision had.
#[derive(Clone, Copy, Debug, PartialEq, Eq)]
pub struct Mark {
    pub began: bool,
    pub held: bool,
    pub failed: bool,
}

/// A probe that keeps a mark for each node, which a contract sees as the list of the marks.
#[derive(Debug, Drop)]
pub struct Marks {
    marks: Vec<Mark>,
}

impl Model for Marks {
    ghost use Rattle.std.specs.Prelude.{List};
    ghost use Rattle.py_frames.specs.declared.marks.Mark.{Mark};

    ghost Value = { List Mark };

    ghost view = { λ m. m.marks.items };
}

impl Marks {
    /// Marks for so many nodes, of which none began. All room is reserved here.
    pub fn new(alloc: Global, nodes: u32) -> Result<Marks, Memory>
        ensures { IfOk result (λ marks. marks ≡ replicate nodes unmarked) }
    {
        let unmarked = Mark {
            began: false,
            held: false,
            failed: false,
        };
        Ok(Marks {
            marks: Vec::from_elem(alloc, unmarked, nodes as usize)?,
        })
    }

    /// Whether a node began.
    pub fn began_at(&self, node: NodeId) -> bool
        ensures { result ≡ has_begun (slice_get self.now node.0) }
    {
        match self.marks.get(node.0 as usize) {
            Some(mark) => mark.began,
            None => false,
        }
    }

    /// Whether a node's decision had an outcome.
    pub fn came(&self, node: NodeId, outcome: bool) -> bool
        ensures { result ≡ has_come outcome (slice_get self.now node.0) }
    {
        match self.marks.get(node.0 as usize) {
            Some(mark) => { if outcome { mark.held } else { mark.failed } }
            None => false,
        }
    }
}

impl Probe for Marks {
    ghost after_began = { λ node marks. marked begun node marks };

    ghost after_judged = { λ node judged outcome marks. marked (came outcome) node marks };

    fn began(&mut self, node: NodeId) {
        if let Some(mark) = self.marks.get_mut(node.0 as usize) {
            mark.began = true;
        }
    }

    fn judged(&mut self, node: NodeId, _judged: &Judged, outcome: bool) {
        if let Some(mark) = self.marks.get_mut(node.0 as usize) {
            match outcome {
                true => mark.held = true,
                false => mark.failed = true,
            }
        }
    }
}
