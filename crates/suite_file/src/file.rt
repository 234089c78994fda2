// Suite files as they are read.

use py_syntax::{Expr, Line, Stmt};
use pyn_base::Name;
use sqlite_items::Items;

/// What a pytest file is, as it is read.
#[derive(Drop)]
pub struct SuiteFile {
    /// The module that the second line imports. It is empty where the first two lines aren't the two imports in order, or where a further import stands.
    pub module: Name,
    pub tests: Items<FileTest>,
    /// The lines of all else that stands at the top of the file, in order.
    pub strays: Items<Line>,
}

/// A function of a suite file.
#[derive(Drop)]
pub struct FileTest {
    pub name: Name,
    /// The line of its `def`.
    pub line: Line,
    /// Whether it has no parameters, and no annotation of its result.
    pub is_bare: bool,
    pub body: Items<FileStmt>,
}

/// A statement of a test.
#[derive(Drop)]
pub enum FileStmt {
    Plain(Stmt),
    /// `with pytest.raises(CLASS):` with its line and the class, the first statement of its block, and the line of the second one if there is one.
    Raises(Line, Expr, Stmt, Option<Line>),
}
