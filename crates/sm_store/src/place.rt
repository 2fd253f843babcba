//! Where one variable lies in the block of a store.
use sm_flat::VarKind;

/// Where the numbers of one variable lie in a store's block: three cells, and then, of a set variable, the words of its values.
#[derive(Clone, Copy)]
pub(crate) struct Place {
    pub(crate) kind: VarKind,
    /// The value of the first place of the words.
    pub(crate) base: i64,
    pub(crate) start: usize,
    pub(crate) end: usize,
}
