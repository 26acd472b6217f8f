//! Why a plan file is refused.
use vx_expr::TypeError;

/// Why a plan file is refused. The names are those that the program prints.
#[derive(Debug, Drop)]
pub enum Refusal {
    /// The bytes are no JSON that is read: no UTF-8, another grammar, or nested deeper than 127.
    P1,
    /// Something is missing, an unknown field, or of another JSON type or form, at this path.
    P2(String),
    /// The word at this path isn't in its closed list.
    P3(String),
    /// The node with this id doesn't type.
    P4 { node: u32, error: TypeError },
    /// The width of the node with this id isn't lawful.
    P5 { node: u32 },
    /// A limit is passed.
    P6(LimitName),
    /// This id stands twice.
    P7 { id: u32 },
}

/// What a plan has too much of, in the order in which it is asked.
#[derive(Clone, Copy, Debug, PartialEq, Eq)]
pub enum LimitName {
    /// More than 64 nodes.
    Nodes,
    /// A node with no column or more than 64 columns.
    Columns,
    /// More than 100,000 rows over all values nodes.
    Rows,
    /// More than 1,000,000 cells over all values nodes.
    Cells,
    /// An expression of more than 64 levels; a column or a literal has one.
    Depth,
    /// A text of more than 65,535 bytes.
    Text,
    /// A node whose growth, a bound on its rows, is more than 2^62.
    Growth,
}
