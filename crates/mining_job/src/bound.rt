/// What a pattern may hold: items with ranks up to `top` alone, and, where `need` is given, the item with
/// that rank.
#[derive(Clone, Copy, Debug, PartialEq, Eq)]
pub struct Bound {
    pub top: u32,
    pub need: Option<u32>,
}
