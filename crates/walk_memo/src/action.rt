/// What may be written at a place: an edge leads into the state and writes; whether behind it more can be
/// written, and whether it can be with what is needed; whether the path can end there.
#[derive(Clone, Copy, Debug, PartialEq, Eq)]
pub struct Action {
    pub state: u16,
    pub more: bool,
    pub unseen: bool,
    pub ends: bool,
}
