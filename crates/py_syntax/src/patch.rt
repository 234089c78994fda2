// Patches: a module with one node rewritten, which is a mutant.

use pyn_base::NodeId;

/// A node, and what it becomes.
#[derive(Clone, Copy, Debug, PartialEq, Eq)]
pub struct Patch {
    pub node: NodeId,
    pub change: Change,
}

/// One row of the mutation operators, by MutPy's acronyms. A comparison is given by its place in its chain.
#[derive(Clone, Copy, Debug, PartialEq, Eq)]
pub enum Change {
    /// AOD: `-e` becomes `e`.
    DropMinus,
    /// AOD: `+e` becomes `e`.
    DropPlus,
    /// AOR, on a binary operator.
    AddToSub,
    SubToAdd,
    MulToFloorDiv,
    FloorDivToMul,
    ModToFloorDiv,
    /// ASR, the same on an augmented assignment.
    AugmentAddToSub,
    AugmentSubToAdd,
    AugmentMulToFloorDiv,
    AugmentFloorDivToMul,
    AugmentModToFloorDiv,
    /// BCR
    BreakToContinue,
    ContinueToBreak,
    /// COI: the test `e` becomes `not e`.
    NegateTest,
    /// CRP: an integer becomes one more.
    NextInteger,
    /// CRP: a string becomes `""`.
    EmptyString,
    /// CRP: `""` becomes `"x"`.
    FilledString,
    /// EHD: a clause's body becomes `raise`.
    ClauseToRaise,
    /// EXS: a clause's body becomes `pass`.
    ClauseToPass,
    /// LCR
    AndToOr,
    OrToAnd,
    /// ROR
    LtToLe(u32),
    LeToLt(u32),
    GtToGe(u32),
    GeToGt(u32),
    EqToNe(u32),
    NeToEq(u32),
}
