//! Visits are counted by sets of ranks, sequence after sequence.

ghost use Rattle.std.specs.Prelude.{◌≡◌, ℕ, ◌<◌, ◌⊎◌, ◌↔◌, List, [], ◌∷◌, length, slice_range, All, IfOk, OnOk, IsTrue};
ghost use Rattle.state_bits.specs.Members.{Has};
ghost use Rattle.place_walk.specs.declared.visit.Visit.{Visit as Visited};
ghost use Rattle.stand_sums.specs.Writings.{IsReadable, opens, ends};
ghost use Rattle.stand_sums.specs.Sequences.{AreSequences};
ghost use Rattle.stand_sums.specs.Sums.{AreCounted};
ghost use Rattle.mask_sums.specs.Sets.{masked_at};
ghost use Rattle.mask_sums.specs.Kept.{lacks, IsRead, HasOneMore, HasStands};

use super::lacking::read_lacking;
use super::masked::Masked;
use super::masks::Masks;
use super::seen::read_seen;
use member_counts::MemberCounts;
use mine_model::NoMemory;
use place_walk::Visit;
use state_bits::StateSet;

/// What is read of a sequence: the ranks behind which more can follow, those with which the prefix is a
/// pattern, and where its visits end.
#[derive(Clone, Copy, Debug)]
pub(crate) struct Read {
    pub(crate) opened: StateSet<4>,
    pub(crate) ended: StateSet<4>,
    pub(crate) end: usize,
}

/// Counts the visits of some whole sequences, each of which weighs 1, behind a prefix that lacks this rank,
/// or none.
pub(crate) fn count_all<T: Masks>(
    table: &T,
    lacking: Option<u32>,
    visits: &[Visit],
    masked: &mut Masked,
) -> Result<(), NoMemory>
    requires kept { IsTrue (T.keeps table.now) }
    requires readable { All (IsReadable (T.ranks table.now) (T.CanAsk table.now) 256) visits.now }
    ensures { OnOk result ((sequences : List (List Visited)) → AreSequences visits.now sequences
        → (rank : ℕ) → rank < 256
        → AreCounted (T.ranks table.now) (lacks lacking) [] rank visits.now sequences
        (masked_at masked.old rank) (masked_at masked.new rank)) }
{
    let mut from = 0;
    'sequences: while from < visits.len() {
        let read = read_sequence(table, lacking, visits, from, &mut masked.stands)?;
        count_sequence(&read, masked)?;
        from = read.end;
    }
    Ok(())
}

/// Reads the visits of the sequence that begins here, and counts the stands behind each.
fn read_sequence<T: Masks>(
    table: &T,
    lacking: Option<u32>,
    visits: &[Visit],
    from: usize,
    stands: &mut MemberCounts<4>,
) -> Result<Read, NoMemory>
    requires kept { IsTrue (T.keeps table.now) }
    requires readable { All (IsReadable (T.ranks table.now) (T.CanAsk table.now) 256) visits.now }
    requires some { from < length visits.now }
    ensures read { IfOk result (λ read. IsRead (T.ranks table.now) (lacks lacking) visits.now from read) }
    ensures stands { IfOk result (λ read. HasStands (T.ranks table.now) (lacks lacking)
        (slice_range visits.now from read.end) stands.old stands.new) }
{
    let mut opened = StateSet::new();
    let mut ended = StateSet::new();
    let mut end = from;
    'visits: while end < visits.len() && (end == from || !visits[end].first) {
        read_visit(table, lacking, visits[end], &mut opened, &mut ended, stands)?;
        end += 1;
    }
    Ok(Read { opened, ended, end })
}

/// Reads one visit.
#[inline]
fn read_visit<T: Masks>(
    table: &T,
    lacking: Option<u32>,
    visit: Visit,
    opened: &mut StateSet<4>,
    ended: &mut StateSet<4>,
    stands: &mut MemberCounts<4>,
) -> Result<(), NoMemory>
    requires kept { IsTrue (T.keeps table.now) }
    requires readable { IsReadable (T.ranks table.now) (T.CanAsk table.now) 256 visit }
    ensures opened { OnOk result ((rank : ℕ) → Has opened.new rank
        ↔ (Has opened.old rank ⊎ IsTrue (opens (T.ranks table.now) (lacks lacking) rank visit))) }
    ensures ended { OnOk result ((rank : ℕ) → Has ended.new rank
        ↔ (Has ended.old rank ⊎ IsTrue (ends (T.ranks table.now) (lacks lacking) rank visit))) }
    ensures stands { OnOk result (HasStands (T.ranks table.now) (lacks lacking) (visit ∷ [])
        stands.old stands.new) }
{
    let mask = table.mask(visit.kind, visit.action.state);
    match lacking {
        None => read_seen(mask, visit.action, opened, ended, stands),
        Some(need) => read_lacking(mask, need, visit.action, opened, ended, stands),
    }
}

/// Counts the sets of one sequence.
#[inline]
fn count_sequence(read: &Read, masked: &mut Masked) -> Result<(), NoMemory>
    ensures followed { OnOk result (HasOneMore
        (λ rank. Has read.now.opened rank ⊎ Has read.now.ended rank)
        masked.old.followed masked.new.followed) }
    ensures ended { OnOk result (HasOneMore (Has read.now.ended) masked.old.ended masked.new.ended) }
    ensures opened { OnOk result (HasOneMore (Has read.now.opened) masked.old.opened masked.new.opened) }
    ensures stands { masked.new.stands ≡ masked.old.stands }
{
    let mut followed = read.opened;
    followed.union_with(&read.ended);
    count_set(&followed, &mut masked.followed)?;
    count_set(&read.ended, &mut masked.ended)?;
    count_set(&read.opened, &mut masked.opened)
}

/// Counts each member of the set once.
#[inline]
fn count_set(set: &StateSet<4>, counts: &mut MemberCounts<4>) -> Result<(), NoMemory>
    ensures { OnOk result (HasOneMore (Has set.now) counts.old counts.new) }
{
    if set.is_empty() {
        return Ok(());
    }
    counts.add(set)
}
