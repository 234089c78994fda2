// The forms of a suite file's lines, and what its lines are read as.

use py_grammar::Form;
use py_syntax::{Expr, Line, Stmt};
use pyn_base::Name;
use sqlite_items::Items;
use suite_file::FileTest;

/// What a line at the top of a suite file is.
#[derive(Drop)]
pub enum TopForm {
    /// `import pytest`
    Pytest,
    /// `import NAME as module_0`
    Tested(Name),
    /// A form of a module's lines.
    Usual(Form),
}

/// What a line in a test is.
#[derive(Drop)]
pub enum TestForm {
    /// `with pytest.raises(CLASS):`, with its block where that is on its line.
    Raises(Expr, Option<Items<Stmt>>),
    /// A form of a module's lines.
    Usual(Form),
}

/// What stands at the top of a suite file.
#[derive(Drop)]
pub enum TopItem {
    Pytest,
    Tested(Name),
    /// Any other line that imports.
    Import,
    Test(FileTest),
    /// The line of all else.
    Stray(Line),
}
