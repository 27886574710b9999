//! A ticket lock whose value keeps a history: which pass made which change, in which order.
//!
//! A call of `TurnLock::change` draws a ticket, waits until it is served, has the value to itself
//! for one change, and serves the next ticket. The value is changed in place, and the lock's own
//! steps take no memory. Once all passes are back, `TurnLock::close` gives the value, whose history
//! has the changes of each pass, in its order, and no others.
#![tactic(auto)]

mod hand;
mod kept;
mod lock;

pub use kept::{Change, Kept};
pub use lock::{Pass, TurnLock};
