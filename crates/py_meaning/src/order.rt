// The four orderings (Language Reference 6.10.1).

/// `<`, `>`, `<=` or `>=`
#[derive(Clone, Copy, Debug, PartialEq, Eq)]
pub enum Order {
    Less,
    Greater,
    AtMost,
    AtLeast,
}
