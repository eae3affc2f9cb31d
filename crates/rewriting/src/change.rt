// The change of separators.
use text::separators::Separators;

// The set that the transaction has, and the set that it is to get.
#[derive(Clone, Copy, Drop)]
pub(crate) struct Change {
    pub old: Separators,
    pub new: Separators,
}
