use super::item::Pattern;

/// A line of the answer: a pattern with its support, the sum of the weights of the sequences that generate
/// it.
#[derive(Debug, Drop)]
pub struct Row {
    pub pattern: Pattern,
    pub support: u64,
}
