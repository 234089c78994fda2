// Where a logical line is (Language Reference, chapter 8).

/// Where a logical line is, as far as the grammar depends on it.
#[derive(Clone, Copy, Debug, PartialEq, Eq)]
pub enum Place {
    /// At the module's level.
    Module,
    /// In the block of a class.
    Class,
    /// In the block of a function or of any other statement.
    Block,
}
