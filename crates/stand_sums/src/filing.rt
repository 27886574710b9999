//! Visits are filed as stands, sequence after sequence.

ghost use Rattle.std.specs.Prelude.{◌≡◌, ℕ, ◌-◌, ◌^◌, ◌<◌, List, [], ◌∷◌, length, map, slice_get, slice_index, All, AllPairs, Some, IsTrue, IfSome, IfNone, IfOk, OnOk, OnErr};
ghost use Rattle.place_walk.specs.declared.visit.Visit.{Visit as Visited};
ghost use Rattle.place_walk.specs.Codes.{Fits};
ghost use Rattle.stand_sums.specs.declared.shelf.Shelf.{Shelf as Shelved};
ghost use Rattle.stand_sums.specs.Writings.{IsReadable};
ghost use Rattle.stand_sums.specs.Sequences.{AreSequences};
ghost use Rattle.stand_sums.specs.Runs.{HavePlaces};
ghost use Rattle.stand_sums.specs.Sums.{AreLaidOut};
ghost use Rattle.stand_sums.specs.Files.{with_more, HasRoom};
ghost use Rattle.stand_sums.specs.Kept.{empty_shelf, older, filled, filed_in, filings_in, filed_for, filed_behind, filed_behind_all, HasRoomFor, ArePlaced, AreFiles};

use super::aim::Aim;
use super::next_rank::NextRank;
use super::outputs::Outputs;
use super::run::Run;
use super::sequences::sequence_end;
use super::shelf::Shelf;
use mine_model::NoMemory;
use place_walk::{Stand, Visit};

/// An empty shelf for each of these ranks, at its places. Without memory there is none.
pub(crate) fn shelves_for(
    next: &[NextRank],
    places: &mut Vec<u32>,
    shelves: &mut Vec<Shelf>,
) -> Result<(), NoMemory>
    requires rising { AllPairs (λ low high. low.rank < high.rank) next.now }
    requires within { All (λ n. n.rank < length places.old.items) next.now }
    requires none { shelves.old.items ≡ [] }
    ensures room { length places.new.items ≡ length places.old.items }
    ensures placed { OnOk result (ArePlaced places.new.items shelves.new.items) }
    ensures all { OnOk result (shelves.new.items ≡ map empty_shelf next.now) }
    ensures none { OnErr result (shelves.new.items ≡ []) }
{
    match push_shelves(next, places, shelves) {
        Ok(()) => Ok(()),
        Err(error) => {
            shelves.clear();
            Err(error)
        }
    }
}

/// The same, but that without memory there may be some.
fn push_shelves(
    next: &[NextRank],
    places: &mut Vec<u32>,
    shelves: &mut Vec<Shelf>,
) -> Result<(), NoMemory>
    requires rising { AllPairs (λ low high. low.rank < high.rank) next.now }
    requires within { All (λ n. n.rank < length places.old.items) next.now }
    requires none { shelves.old.items ≡ [] }
    ensures room { length places.new.items ≡ length places.old.items }
    ensures placed { OnOk result (ArePlaced places.new.items shelves.new.items) }
    ensures all { OnOk result (shelves.new.items ≡ map empty_shelf next.now) }
{
    for wanted in next {
        let place = to_place(shelves.len())?;
        shelves.push(Shelf {
            rank: wanted.rank,
            first: wanted.first,
            next: wanted.first,
            last: wanted.last,
            end: 0,
        })?;
        places[wanted.rank as usize] = place;
    }
    Ok(())
}

/// Where the places of these ranks end.
pub(crate) fn run_end(next: &[NextRank]) -> usize
    ensures { (end : ℕ) → AreLaidOut 0 next.now end → result ≡ end }
{
    if next.is_empty() {
        return 0;
    }
    next[next.len() - 1].last
}

/// The place as a number of 32 bits.
fn to_place(index: usize) -> Result<u32, NoMemory>
    ensures { IfOk result (λ place. place ≡ index) }
{
    match u32::try_from(index) {
        Ok(place) => Ok(place),
        Err(_) => Err(NoMemory),
    }
}

/// Files the visits of some whole sequences.
pub(crate) fn file_all<T: Outputs>(
    table: &T,
    aim: Aim,
    visits: &[Visit],
    places: &[u32],
    shelves: &mut Vec<Shelf>,
    run: &mut Run,
)
    requires readable { All (IsReadable (T.ranks table.now) (T.CanAsk table.now) (length places.now))
        visits.now }
    requires files { AreFiles places.now shelves.old.items run.old.stands }
    requires room { All (HasRoom (T.ranks table.now) aim visits.now)
        (map (filed_in run.old.stands) shelves.old.items) }
    requires fits { HavePlaces run.old.narrow visits.now }
    ensures form { run.new.narrow ≡ run.old.narrow }
    ensures files { AreFiles places.now shelves.new.items run.new.stands }
    ensures filed { (sequences : List (List Visited)) → AreSequences visits.now sequences
        → map (filed_in run.new.stands) shelves.new.items
        ≡ map (with_more (T.ranks table.now) aim sequences)
        (map (filed_in run.old.stands) shelves.old.items) }
{
    make_older(shelves);
    let mut from = 0;
    'sequences: while from < visits.len() {
        let end = sequence_end(visits, from);
        file_sequence(table, aim, &visits[from..end], end, places, shelves, run);
        from = end;
    }
}

/// Forgets of which sequence each shelf has the last stand.
fn make_older(shelves: &mut Vec<Shelf>)
    ensures { shelves.new.items ≡ map older shelves.old.items }
{
    for index in 0..shelves.len() {
        shelves[index].end = 0;
    }
}

/// Files the visits of the sequence that ends there.
fn file_sequence<T: Outputs>(
    table: &T,
    aim: Aim,
    visits: &[Visit],
    end: usize,
    places: &[u32],
    shelves: &mut Vec<Shelf>,
    run: &mut Run,
)
    requires readable { All (IsReadable (T.ranks table.now) (T.CanAsk table.now) (length places.now))
        visits.now }
    requires files { AreFiles places.now shelves.old.items run.old.stands }
    requires room { All (HasRoom (T.ranks table.now) aim visits.now)
        (map (filed_in run.old.stands) shelves.old.items) }
    requires fits { HavePlaces run.old.narrow visits.now }
    ensures form { run.new.narrow ≡ run.old.narrow }
    ensures files { AreFiles places.now shelves.new.items run.new.stands }
    ensures filed { filings_in run.new.stands shelves.new.items
        ≡ map (filed_behind_all (T.ranks table.now) aim end visits.now)
        (filings_in run.old.stands shelves.old.items) }
{
    for visit in visits {
        file_visit(table, aim, *visit, end, places, shelves, run);
    }
}

/// Files a visit for each rank that it writes and that has places.
#[inline]
fn file_visit<T: Outputs>(
    table: &T,
    aim: Aim,
    visit: Visit,
    end: usize,
    places: &[u32],
    shelves: &mut Vec<Shelf>,
    run: &mut Run,
)
    requires readable { IsReadable (T.ranks table.now) (T.CanAsk table.now) (length places.now) visit }
    requires files { AreFiles places.now shelves.old.items run.old.stands }
    requires room { All (HasRoom (T.ranks table.now) aim (visit ∷ []))
        (map (filed_in run.old.stands) shelves.old.items) }
    requires fits { IsTrue run.old.narrow → Fits visit.place visit.action.state }
    ensures form { run.new.narrow ≡ run.old.narrow }
    ensures files { AreFiles places.now shelves.new.items run.new.stands }
    ensures filed { filings_in run.new.stands shelves.new.items
        ≡ map (λ filing. filed_behind (T.ranks table.now) aim end filing visit)
        (filings_in run.old.stands shelves.old.items) }
{
    if !visit.action.more && !visit.action.unseen {
        return;
    }
    let ranks = table.outputs(visit.kind, visit.action.state);
    for rank in ranks {
        if aim.goes_on(*rank, visit.action) {
            file_rank(*rank, visit, end, places, shelves, run);
        }
    }
}

/// Files a visit for a rank that it writes, if that has places.
#[inline]
fn file_rank(
    rank: u32,
    visit: Visit,
    end: usize,
    places: &[u32],
    shelves: &mut Vec<Shelf>,
    run: &mut Run,
)
    requires rank { rank < length places.now }
    requires files { AreFiles places.now shelves.old.items run.old.stands }
    requires room { All (HasRoomFor rank) shelves.old.items }
    requires fits { IsTrue run.old.narrow → Fits visit.place visit.action.state }
    ensures form { run.new.narrow ≡ run.old.narrow }
    ensures files { AreFiles places.now shelves.new.items run.new.stands }
    ensures filed { filings_in run.new.stands shelves.new.items
        ≡ map (filed_for rank visit end) (filings_in run.old.stands shelves.old.items) }
{
    if let Some(place) = shelf_at(rank, places, shelves.as_slice()) {
        // For the proof alone: there are no more stands than a place counts.
        let _room = run.len();
        let shelf = shelves[place];
        let stand = Stand {
            place: visit.place,
            state: visit.action.state,
            first: shelf.end != end,
        };
        run.set(shelf.next, stand);
        fill(&mut shelves[place], end);
    }
}

/// One place more of the shelf is taken, for the sequence that ends there.
#[inline(always)]
fn fill(shelf: &mut Shelf, end: usize)
    requires { shelf.old.next < 2 ^ 64 - 1 }
    ensures { shelf.new ≡ filled shelf.old end }
{
    shelf.next += 1;
    shelf.end = end;
}

/// Where the shelf of the rank is, if it has one with places.
#[inline]
fn shelf_at(rank: u32, places: &[u32], shelves: &[Shelf]) -> Option<usize>
    requires { rank < length places.now }
    ensures some { IfSome result (λ k. (shelf : Shelved) × (slice_get shelves.now k ≡ Some shelf)
        × (shelf.rank ≡ rank) × (shelf.first < shelf.last)) }
    ensures none { IfNone result ((shelf : Shelved)
        → slice_get shelves.now (slice_index places.now rank) ≡ Some shelf → shelf.rank ≡ rank
        → shelf.first < shelf.last → ⊥) }
{
    let place = places[rank as usize] as usize;
    let shelf = shelves.get(place)?;
    if shelf.rank == rank && shelf.first < shelf.last {
        Some(place)
    } else {
        None
    }
}
