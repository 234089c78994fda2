//! Cuts the bytes of a text into tokens, in logical lines, up to the first lexical fault.
//!
//! `tokens` gives exactly the logical lines and the fault that `py_language` defines, or is out of memory. The text is copied
//! once, as it is read: without its byte order mark, with each line end a line feed. One pass over the copy then cuts the
//! piece at the front, by its first byte, and joins it to what was read. Tokens hold their text.
//!
//! It uses `py_language`, `py_syntax` and `pyn_base`. It knows nothing of the grammar: what tokens mean in a line is
//! the concern of the layers above, and where the text came from that of the desk.
#![tactic(auto)]

mod brackets;
mod bytes;
mod comment;
mod content;
mod lines;
mod mark;
mod name;
mod normal;
mod number;
mod piece;
mod quoted;
mod reader;

pub use lines::tokens;
pub use name::keyword_of;
pub use py_language::{Keyword, Logical, Mark, Token, Tokens};
