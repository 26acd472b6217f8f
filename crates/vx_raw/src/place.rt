//! Where bytes stand in a region.
/// Where bytes stand in a region: the chunk's number, and how many bytes of the chunk lie before them.
#[derive(Clone, Copy, Debug, PartialEq, Eq)]
pub struct Place {
    pub chunk: u32,
    pub at: u64,
}
