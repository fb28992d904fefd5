// How large a market is to be.

/// The numbers of candidates, programmes and score types.
#[derive(Clone, Copy)]
pub(crate) struct Sizes {
    pub(crate) candidates: u32,
    pub(crate) programmes: u32,
    pub(crate) types: u32,
}
