// Where the tokens of a line are cut.

/// What the grammar cuts the tokens of a line at, outside brackets.
#[derive(Clone, Copy, Debug, PartialEq, Eq)]
pub enum Separator {
    /// `;`
    Semicolon,
    /// `,`
    Comma,
    /// `:`
    Colon,
    /// `=`
    Equal,
    /// `=`, or an operator with it, such as `+=`
    Assign,
    /// `|`
    Pipe,
    /// `.` or `[`: what begins the last part of a target
    Part,
    /// `in`
    In,
    /// `as`
    As,
    /// A bracket that closes one that was opened before the tokens.
    Closing,
}
