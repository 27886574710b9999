/// What a worker `w` does next. A worker's stack is its own; the others steal from its deque.
#[derive(Clone, Copy, Debug, PartialEq, Eq)]
pub enum Event {
    /// The first node of the stack goes to the back of the deque.
    Put { w: u32 },
    /// The last node of the deque comes to the empty stack.
    Take { w: u32 },
    /// The first node of the deque of `from` comes to the empty stack of `w`.
    Steal { w: u32, from: u32 },
    /// The last node of the stack is grown, and its kids come to the stack.
    Grow { w: u32 },
    /// The label that was grown last is posted, with its row.
    Post { w: u32 },
}
