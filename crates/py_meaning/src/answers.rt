// How a caller goes on after an operation's answer.

/// The value of an operation that is done. Any other answer is the caller's own, and it returns.
#[macro_export]
macro_rules! done {
    ($answer:expr) => {
        match $answer {
            $crate::Op::Done(value) => value,
            $crate::Op::Raises(class) => return $crate::Op::Raises(class),
            $crate::Op::Leaves(construct) => return $crate::Op::Leaves(construct),
            $crate::Op::OutOfSteps => return $crate::Op::OutOfSteps,
            $crate::Op::Memory => return $crate::Op::Memory,
        }
    };
}

/// What a call made. Where it found no memory the caller answers so, and returns.
#[macro_export]
macro_rules! made {
    ($result:expr) => {
        match $result {
            Ok(value) => value,
            Err(_) => return $crate::Op::Memory,
        }
    };
}
