//! Where the edges of a node lie.

ghost use Rattle.std.specs.Prelude.{◌≡◌, ◌<◌, ℕ, length, OnOk, OnErr};
ghost use Rattle.candidate_graph.specs.Kept.{span_at, IsSet};

use mine_model::NoMemory;

/// From where on, and up to where, the edges of a node lie among those of all nodes, if they are known.
#[derive(Clone, Copy, Debug)]
pub(crate) struct Span {
    pub(crate) first: usize,
    pub(crate) last: usize,
    pub(crate) known: bool,
}

pub(crate) const UNKNOWN: Span = Span {
    first: 0,
    last: 0,
    known: false,
};

/// The span of the node with the number.
#[inline]
pub(crate) fn span_at(spans: &[Span], number: u32) -> Span
    ensures { result ≡ span_at spans.now number }
{
    match spans.get(number as usize) {
        Some(span) => *span,
        None => UNKNOWN,
    }
}

/// Sets the span of the node with the number.
pub(crate) fn set_span(spans: &mut Vec<Span>, number: u32, span: Span) -> Result<(), NoMemory>
    ensures set { OnOk result (IsSet spans.old.items spans.new.items number span) }
    ensures same { OnErr result ((other : ℕ)
        → span_at spans.new.items other ≡ span_at spans.old.items other) }
{
    let at = number as usize;
    'spans: while spans.len() <= at {
        spans.push(UNKNOWN)?;
    }
    spans[at] = span;
    Ok(())
}
