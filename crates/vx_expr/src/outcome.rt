//! Faults of an evaluation, and errors of typing.
use vx_value::Value;

/// Why an expression has no value on a row.
#[derive(Clone, Copy, Debug, PartialEq, Eq)]
pub enum Fault {
    /// A number leaves 64 bits.
    Overflow,
    DivideByZero,
    /// A text has more than 65,535 bytes.
    TooLong,
}

/// What an expression gives on a row.
#[derive(Debug, Drop)]
pub enum Got {
    Value(Value),
    Fault(Fault),
}

/// Why an expression, or a node, doesn't type. The names are those that the program prints.
#[derive(Clone, Copy, Debug, PartialEq, Eq)]
pub enum TypeError {
    /// A column isn't there.
    T1,
    /// An argument has the wrong kind.
    T2,
    /// Two things must be of one kind and aren't.
    T3,
    /// A wrong number of arguments.
    T4,
}
