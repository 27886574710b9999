use walk_memo::Action;

/// What a path of a prefix writes next: an item of this kind, with this action, and then it is before this
/// place. The first visit of each sequence is marked.
#[derive(Clone, Copy, Debug, PartialEq, Eq)]
pub struct Visit {
    pub place: u32,
    pub kind: u32,
    pub action: Action,
    pub first: bool,
}
