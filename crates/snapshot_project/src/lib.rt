//! Snapshots of prefixes: where each path of the transducer can stand that has just written one, and what may
//! follow.
#![tactic(auto)]

mod ahead;
mod aims;
mod beginning;
mod growing;
mod laws;
mod next_rank;
mod part;
mod room;
mod snapshot;
mod snapshots;
mod supporting;
mod terrain;
mod waiting;

pub use beginning::{begin, begin_whole, begin_whole_alone};
pub use growing::{Grown, grow};
pub use laws::{kept_snapshots_are_open, open_snapshots_are_where_longer_patterns_begin};
pub use next_rank::NextRank;
pub use part::Part;
pub use room::Room;
pub use snapshot::Snapshot;
pub use snapshots::Snapshots;
pub use supporting::support;
