ghost use Rattle.std.specs.Prelude.{◌≡◌};
ghost use Rattle.packed_snapshots.specs.Snapshots.{place_of};

/// Where a prefix stands in a sequence, and what of it was seen there.
#[derive(Clone, Copy, Debug, PartialEq, Eq)]
pub struct PlainSnapshot {
    pub sequence: u32,
    pub position: u16,
    pub state: u16,
    pub seen: bool,
}

/// The sequence and the position of a snapshot. Its default stands before the first snapshot of all.
#[derive(Clone, Copy, Debug, PartialEq, Eq, Default)]
pub struct Place {
    pub sequence: u32,
    pub position: u16,
}

impl PlainSnapshot {
    /// Where it was taken.
    #[inline]
    pub fn place(&self) -> Place
        ensures { result ≡ place_of self.now }
    {
        Place {
            sequence: self.sequence,
            position: self.position,
        }
    }
}
