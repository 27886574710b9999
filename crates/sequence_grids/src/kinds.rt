//! What items may do under a bound, found out when they are first met.

ghost use Rattle.std.specs.Prelude.{◌≡◌, ◌≢◌, ℕ, ◌+◌, ◌≤◌, ◌<◌, ◌⊎◌, ◌↔◌, AllPairs, List, [], drop, length, slice_index, slice_get, Some, Contains, IfOk, IfSome, OnOk, IsTrue};
ghost use Rattle.mine_model.specs.declared.item.Item.{Item};
ghost use Rattle.mine_model.specs.Ancestry.{AreRising};
ghost use Rattle.mine_model.specs.Ranks.{HasRank};
ghost use Rattle.sequence_grids.specs.Grids.{Reads, WritesRank};
ghost use Rattle.sequence_grids.specs.Tables.{Grows, unknown};
ghost use Rattle.sequence_grids.specs.Columns.{AreColumns, AreHeads};
ghost use Rattle.sequence_grids.specs.Kinds.{IsTarget, IsNeededRank, IsRow, AreActs, AreEntered, Extends, HasKind, HasCell, IsMet, AreKinds, KindsGrow, IsKind, AreRows, IsInside, row_at};
ghost use Rattle.sequence_grids.specs.declared.kinds.Kind.{Kind};
ghost use Rattle.sequence_grids.specs.declared.kinds.Kinds.{Kinds as Found};
ghost use Rattle.sequence_grids.specs.Wholes.{IsWholeAlphabet};
ghost use Rattle.sequence_grids.specs.Cuts.{AreReadable};

use super::alphabet::Alphabet;
use super::columns::Columns;
use super::cuts::push_found;
use super::number::{NONE, to_number};
use super::tables::Tables;
use fst_compile::{Fst, State, outputs};
use mine_model::{Item, NoMemory, Ranks};
use mining_job::{Bound, Job};
use std::alloc::Global;

/// What an item may do: the class of its steps, and where the ends of its outputs begin.
#[derive(Clone, Copy, Debug)]
pub struct Kind {
    pub class: u32,
    pub base: usize,
}

/// The kinds of the items met so far, and their outputs as ranks, column by column behind each other.
///
/// From the base of a kind on there is where its outputs begin, and then where those of each column end.
pub struct Kinds {
    pub columns: Columns,
    // By the number of an item that of its kind, or `NONE`.
    pub numbers: Vec<u32>,
    pub kinds: Vec<Kind>,
    pub ends: Vec<u32>,
    pub ranks: Vec<u32>,
    // By a hash of its outputs what leads to a kind that may have the same ones: its number, or that of an
    // item which has it. It is no more than a hint.
    pub hints: Vec<u32>,
}

// Written out, so that it is let go of by a call, and not part by part wherever one is.
impl Drop for Kinds {
    fn drop(self) {
        let Kinds {
            columns: _,
            numbers: _,
            kinds: _,
            ends: _,
            ranks: _,
            hints: _,
        } = self;
    }
}

/// What edges of one label do at an item: whether they read it and write nothing, may write something that is
/// allowed, and may write what is needed.
#[derive(Clone, Copy, Debug)]
pub(crate) struct Act {
    pub(crate) silent: bool,
    pub(crate) writes: bool,
    pub(crate) needs: bool,
}

/// Room for what is found out of one item: what each column does; the states that it leads into without an
/// output, with one, and with one that is needed; the outputs at one column, and their ranks.
pub struct Scratch {
    acts: Vec<Act>,
    pub(crate) silent: Vec<u32>,
    pub(crate) writes: Vec<u32>,
    pub(crate) needs: Vec<u32>,
    written: Vec<Item>,
    found: Vec<u32>,
}

// Written out, so that it is let go of by a call, and not part by part wherever one is.
impl Drop for Scratch {
    fn drop(self) {
        let Scratch {
            acts: _,
            silent: _,
            writes: _,
            needs: _,
            written: _,
            found: _,
        } = self;
    }
}

impl Scratch {
    /// Empty room.
    pub fn new(alloc: Global) -> Scratch {
        Scratch {
            acts: Vec::new(alloc),
            silent: Vec::new(alloc),
            writes: Vec::new(alloc),
            needs: Vec::new(alloc),
            written: Vec::new(alloc),
            found: Vec::new(alloc),
        }
    }
}

impl Kinds {
    /// No kinds yet of so many items, at the states of a transducer.
    pub fn new(alloc: Global, fst: &Fst, items: u32) -> Result<Kinds, NoMemory>
        ensures columns { IfOk result (λ kinds. AreColumns fst.now.labels
            kinds.columns.numbers.items kinds.columns.heads.items) }
        ensures none { IfOk result (λ kinds. (length kinds.numbers.items ≡ items)
            × ((k : ℕ) → k < length kinds.numbers.items → slice_index kinds.numbers.items k ≡ unknown)) }
        ensures no_kinds { IfOk result (λ kinds. kinds.kinds.items ≡ []) }
    {
        Ok(Kinds {
            columns: Columns::new(alloc, fst)?,
            numbers: vec![in alloc; NONE; items as usize]?,
            kinds: Vec::new(alloc),
            ends: Vec::new(alloc),
            ranks: Vec::new(alloc),
            hints: vec![in alloc; NONE; hints_for(items)]?,
        })
    }

    /// The same without what only serves to find the kinds of more items.
    pub fn without_numbers(self, alloc: Global) -> Kinds
        ensures columns { result.columns ≡ self.columns }
        ensures kinds { result.kinds ≡ self.kinds }
        ensures ends { result.ends ≡ self.ends }
        ensures ranks { result.ranks ≡ self.ranks }
    {
        let Kinds {
            columns,
            numbers: _,
            kinds,
            ends,
            ranks,
            hints: _,
        } = self;
        Kinds {
            columns,
            numbers: Vec::new(alloc),
            kinds,
            ends,
            ranks,
            hints: Vec::new(alloc),
        }
    }
}

/// What the edges into state k may write at an item of the kind with this number, as ranks.
pub fn outputs_of(kinds: &Kinds, number: u32, k: u32) -> &[u32]
    requires cell { HasCell kinds.now number k }
    ensures { (kind : Kind) → slice_get kinds.now.kinds.items number ≡ Some kind
        → result.now ≡ row_at kinds.now.ends.items kinds.now.ranks.items kind.base
        (slice_index kinds.now.columns.numbers.items k) }
{
    let column = kinds.columns.numbers[k as usize] as usize;
    let start = kinds.kinds[number as usize].base + column;
    &kinds.ranks[kinds.ends[start] as usize..kinds.ends[start + 1] as usize]
}

/// The ends from where those of a kind begin.
pub(crate) fn ends_from(ends: &[u32], base: usize) -> &[u32]
    requires { base ≤ length ends.now }
    ensures { result.now ≡ drop base ends.now }
{
    &ends[base..]
}

/// The number of the kind of an item, which is found out if it was not yet met. Items that do the same share
/// one where a hint leads to it.
pub(crate) fn kind_of(
    job: &Job,
    bound: Bound,
    tables: &mut Tables,
    kinds: &mut Kinds,
    scratch: &mut Scratch,
    t: Item,
) -> Result<u32, NoMemory>
    requires item { t.0 < job.now.hierarchy.items }
    requires states { length tables.old.predecessors ≡ length job.now.transducer.labels + 1 }
    requires kinds { AreKinds job.now bound tables.old.classes kinds.old }
    ensures tables { Grows tables.old tables.new }
    ensures grow { KindsGrow kinds.old kinds.new }
    ensures kinds { AreKinds job.now bound tables.new.classes kinds.new }
    ensures kind { IfOk result (λ number. HasKind job.now bound tables.new.classes kinds.new t number) }
    ensures met { OnOk result (IsMet kinds.new t) }
    ensures kept { (other : Item) → IsMet kinds.old other → IsMet kinds.new other }
{
    let known = kinds.numbers[t.0 as usize];
    if known != NONE {
        return Ok(known);
    }
    let base = kinds.ends.len();
    let first = kinds.ranks.len();
    push_outputs(
        job,
        bound,
        &kinds.columns,
        t,
        &mut kinds.ends,
        &mut kinds.ranks,
        scratch,
        None,
    )?;
    enter(job, bound, &kinds.columns, t, scratch)?;
    let class = tables.class_number(
        scratch.silent.as_slice(),
        scratch.writes.as_slice(),
        scratch.needs.as_slice(),
    )?;
    let hint = hint_of(class, &kinds.ranks.as_slice()[first..], kinds.hints.len());
    if let Some(number) = alike(job, bound, tables, kinds, t, Kind { class, base }, hint) {
        take_back(job, bound, tables, kinds, t, number, base, first);
        kinds.numbers[t.0 as usize] = number;
        return Ok(number);
    }
    let number = next_number(kinds.kinds.len())?;
    keep_hint(&mut kinds.hints, number, hint, t.0)?;
    kinds.kinds.push(Kind { class, base })?;
    kinds.numbers[t.0 as usize] = number;
    Ok(number)
}

/// The number of a kind of an item, which is found out by the alphabet. Items that do the same share one
/// where a hint leads to it.
#[inline(never)]
pub(crate) fn new_kind(
    job: &Job,
    bound: Bound,
    tables: &mut Tables,
    kinds: &mut Kinds,
    scratch: &mut Scratch,
    all: &Alphabet,
    t: Item,
) -> Result<u32, NoMemory>
    requires item { t.0 < job.now.hierarchy.items }
    requires states { length tables.old.predecessors ≡ length job.now.transducer.labels + 1 }
    requires readable { AreReadable job.now kinds.old }
    requires alphabet { IsWholeAlphabet job.now all.now }
    ensures tables { Grows tables.old tables.new }
    ensures grow { KindsGrow kinds.old kinds.new }
    ensures readable { AreReadable job.now kinds.new }
    ensures kind { IfOk result (λ number. HasKind job.now bound tables.new.classes kinds.new t number) }
{
    let base = kinds.ends.len();
    let first = kinds.ranks.len();
    push_outputs(
        job,
        bound,
        &kinds.columns,
        t,
        &mut kinds.ends,
        &mut kinds.ranks,
        scratch,
        Some(all),
    )?;
    enter(job, bound, &kinds.columns, t, scratch)?;
    let class = tables.class_number(
        scratch.silent.as_slice(),
        scratch.writes.as_slice(),
        scratch.needs.as_slice(),
    )?;
    let hint = hint_of(class, &kinds.ranks.as_slice()[first..], kinds.hints.len());
    if let Some(number) = alike_kind(job, bound, tables, kinds, t, Kind { class, base }, hint) {
        take_back(job, bound, tables, kinds, t, number, base, first);
        return Ok(number);
    }
    let number = next_number(kinds.kinds.len())?;
    keep_hint(&mut kinds.hints, number, hint, number)?;
    kinds.kinds.push(Kind { class, base })?;
    Ok(number)
}

// The number of one more kind.
fn next_number(count: usize) -> Result<u32, NoMemory>
    ensures number { IfOk result (λ number. number ≡ count) }
    ensures some { IfOk result (λ number. number ≢ unknown) }
{
    if count >= NONE as usize {
        return Err(NoMemory);
    }
    Ok(count as u32)
}

// How many hints there are while there are no more kinds than these.
const FEW_HINTS: usize = 4_093;

// How many there are from then on.
const MANY_HINTS: usize = 65_521;

// How many there are at first, where the kinds of so many items are to be found: where these are many, a kind
// that is found twice costs more than the hints.
fn hints_for(items: u32) -> usize {
    if items as usize > FEW_HINTS {
        MANY_HINTS
    } else {
        FEW_HINTS
    }
}

// Where among so many the hint stands for outputs of a class. A class and one rank are not to stand where the
// next class and the rank before do: two kinds of many items that take turns at one place are found again
// each time.
fn hint_of(class: u32, ranks: &[u32], hints: usize) -> usize {
    let mut hash = u64::from(class)
        .wrapping_add(1)
        .wrapping_mul(0x9E37_79B9_7F4A_7C15);
    for rank in ranks {
        hash = (hash ^ u64::from(*rank)).wrapping_mul(0x9E37_79B9_7F4A_7C15);
    }
    ((hash >> 16) % (hints as u64).max(1)) as usize
}

// Keeps what leads to the kind with the number as a hint. Where hints become many, the few stand elsewhere
// than they are looked for, and are lost.
fn keep_hint(hints: &mut Vec<u32>, number: u32, hint: usize, to: u32) -> Result<(), NoMemory> {
    if hints.len() < MANY_HINTS && number as usize >= FEW_HINTS {
        hints.resize(MANY_HINTS, NONE)?;
    }
    if hint < hints.len() {
        hints[hint] = to;
    }
    Ok(())
}

// The number of the kind of the item that a hint names, where it has the class and the outputs of this one,
// which are those of item t.
fn alike(
    job: &Job,
    bound: Bound,
    tables: &Tables,
    kinds: &Kinds,
    t: Item,
    kind: Kind,
    hint: usize,
) -> Option<u32>
    requires kinds { AreKinds job.now bound tables.now.classes kinds.now }
    requires kind { IsKind job.now bound tables.now.classes kinds.now.columns
        kinds.now.ends.items kinds.now.ranks.items t kind }
    ensures kind { IfSome result (HasKind job.now bound tables.now.classes kinds.now t) }
    ensures some { IfSome result (λ number. number ≢ unknown) }
{
    let _job = job;
    let _tables = tables;
    let _bound = bound;
    let _t = t;
    let other = *kinds.hints.get(hint)?;
    if other as usize >= kinds.numbers.len() {
        return None;
    }
    let number = kinds.numbers[other as usize];
    if number == NONE {
        return None;
    }
    let columns = kinds.columns.heads.len();
    let met = kinds.kinds[number as usize];
    if met.class == kind.class
        && same_outputs(
            kinds.ends.as_slice(),
            kinds.ranks.as_slice(),
            met.base,
            kind.base,
            columns,
        )
    {
        Some(number)
    } else {
        None
    }
}

// The number of the kind that a hint names, where it has the class and the outputs of this one, which are
// those of item t.
fn alike_kind(
    job: &Job,
    bound: Bound,
    tables: &Tables,
    kinds: &Kinds,
    t: Item,
    kind: Kind,
    hint: usize,
) -> Option<u32>
    requires readable { AreReadable job.now kinds.now }
    requires kind { IsKind job.now bound tables.now.classes kinds.now.columns
        kinds.now.ends.items kinds.now.ranks.items t kind }
    ensures kind { IfSome result (HasKind job.now bound tables.now.classes kinds.now t) }
{
    let _job = job;
    let _tables = tables;
    let _bound = bound;
    let _t = t;
    let number = *kinds.hints.get(hint)?;
    if number as usize >= kinds.kinds.len() {
        return None;
    }
    let columns = kinds.columns.heads.len();
    let met = kinds.kinds[number as usize];
    if met.class == kind.class
        && same_outputs(
            kinds.ends.as_slice(),
            kinds.ranks.as_slice(),
            met.base,
            kind.base,
            columns,
        )
    {
        Some(number)
    } else {
        None
    }
}

// Takes back the ends and the ranks behind the first so many, where those of the item's kind stand among
// these: they are twins of what stands there, and kinds that lie near each other are near for the processor
// too.
fn take_back(
    job: &Job,
    bound: Bound,
    tables: &Tables,
    kinds: &mut Kinds,
    t: Item,
    number: u32,
    ends: usize,
    ranks: usize,
)
    requires columns { AreColumns job.now.transducer.labels kinds.old.columns.numbers.items
        kinds.old.columns.heads.items }
    requires kind { HasKind job.now bound tables.now.classes kinds.old t number }
    ensures columns { kinds.new.columns ≡ kinds.old.columns }
    ensures numbers { kinds.new.numbers ≡ kinds.old.numbers }
    ensures kinds { kinds.new.kinds ≡ kinds.old.kinds }
    ensures kept { (before : Found) → KindsGrow before kinds.old → length before.ends.items ≡ ends
        → length before.ranks.items ≡ ranks → KindsGrow before kinds.new }
    ensures kind { HasKind job.now bound tables.now.classes kinds.new t number }
{
    let _job = job;
    let _bound = bound;
    let _tables = tables;
    let _t = t;
    let last = kinds.kinds[number as usize].base + kinds.columns.heads.len();
    if last >= ends || kinds.ends[last] as usize > ranks {
        return;
    }
    kinds.ends.truncate(ends);
    kinds.ranks.truncate(ranks);
}

// Whether the outputs of so many columns are the same from one base on and from another.
fn same_outputs(ends: &[u32], ranks: &[u32], one: usize, other: usize, count: usize) -> bool
    requires one { AreRows ends.now ranks.now one count }
    requires other { AreRows ends.now ranks.now other count }
    ensures { IsTrue result → (column : ℕ) → column < count
        → row_at ends.now ranks.now other column ≡ row_at ends.now ranks.now one column }
{
    for column in 0..count {
        if outputs_from(ends, ranks, one, column) != outputs_from(ends, ranks, other, column) {
            return false;
        }
    }
    true
}

// The outputs of a column from a base on.
fn outputs_from<'a>(ends: &[u32], ranks: &'a [u32], base: usize, column: usize) -> &'a [u32]
    requires { IsInside ends.now ranks.now base column }
    ensures { result.now ≡ row_at ends.now ranks.now base column }
{
    let start = base + column;
    &ranks[ends[start] as usize..ends[start + 1] as usize]
}

// The outputs of an item at all columns behind the others, and what each column does.
fn push_outputs(
    job: &Job,
    bound: Bound,
    columns: &Columns,
    t: Item,
    ends: &mut Vec<u32>,
    ranks: &mut Vec<u32>,
    scratch: &mut Scratch,
    alphabet: Option<&Alphabet>,
) -> Result<(), NoMemory>
    requires item { t.0 < job.now.hierarchy.items }
    requires heads { AreHeads job.now.transducer.labels columns.now.heads.items }
    requires alphabet { IfSome alphabet (λ all. IsWholeAlphabet job.now all.now) }
    ensures ends { Extends ends.old.items ends.new.items }
    ensures ranks { Extends ranks.old.items ranks.new.items }
    ensures row { OnOk result (IsRow job.now bound t columns.now.heads.items
        (length ends.old.items) ends.new.items ranks.new.items (length columns.now.heads.items)) }
    ensures acts { OnOk result (AreActs job.now bound t columns.now.heads.items
        scratch.new.acts.items (length columns.now.heads.items)) }
{
    scratch.acts.clear();
    ends.push(to_number(ranks.len())?)?;
    for column in 0..columns.heads.len() {
        let head = columns.heads[column];
        push_at(job, bound, t, head, ends, ranks, scratch, alphabet)?;
    }
    Ok(())
}

// The same at one column, whose first state is k, where it is done for those before it. The row begins where
// `base` says.
fn push_at(
    job: &Job,
    bound: Bound,
    t: Item,
    k: u32,
    ends: &mut Vec<u32>,
    ranks: &mut Vec<u32>,
    scratch: &mut Scratch,
    alphabet: Option<&Alphabet>,
) -> Result<(), NoMemory>
    requires item { t.0 < job.now.hierarchy.items }
    requires state { IsTarget job.now k }
    requires alphabet { IfSome alphabet (λ all. IsWholeAlphabet job.now all.now) }
    ensures ends { Extends ends.old.items ends.new.items }
    ensures ranks { Extends ranks.old.items ranks.new.items }
    ensures row { OnOk result ((heads : List ℕ) (base column : ℕ) → slice_index heads column ≡ k
        → IsRow job.now bound t heads base ends.old.items ranks.old.items column
        → IsRow job.now bound t heads base ends.new.items ranks.new.items (column + 1)) }
    ensures acts { OnOk result ((heads : List ℕ) (column : ℕ) → slice_index heads column ≡ k
        → AreActs job.now bound t heads scratch.old.acts.items column
        → AreActs job.now bound t heads scratch.new.acts.items (column + 1)) }
{
    let first = ranks.len();
    let silent = push_found(
        job,
        bound,
        t,
        k,
        ranks,
        &mut scratch.written,
        &mut scratch.found,
        alphabet,
    )?;
    let found = &ranks.as_slice()[first..];
    let writes = is_needed(None, found);
    let needs = is_needed(bound.need, found);
    scratch.acts.push(Act {
        silent,
        writes,
        needs,
    })?;
    ends.push(to_number(ranks.len())?)?;
    Ok(())
}

// The states that an item leads into, by what their columns do.
fn enter(
    job: &Job,
    bound: Bound,
    columns: &Columns,
    t: Item,
    scratch: &mut Scratch,
) -> Result<(), NoMemory>
    requires columns { AreColumns job.now.transducer.labels columns.now.numbers.items
        columns.now.heads.items }
    requires acts { AreActs job.now bound t columns.now.heads.items
        scratch.old.acts.items (length columns.now.heads.items) }
    ensures { OnOk result (AreEntered job.now bound t (length job.now.transducer.labels + 1)
        scratch.new.silent.items scratch.new.writes.items scratch.new.needs.items) }
{
    let _bound = bound;
    let _t = t;
    scratch.silent.clear();
    scratch.writes.clear();
    scratch.needs.clear();
    for k in 1..job.fst().states() {
        let column = columns.numbers[k as usize];
        let act = scratch.acts[column as usize];
        push_if(&mut scratch.silent, k, act.silent)?;
        push_if(&mut scratch.writes, k, act.writes)?;
        push_if(&mut scratch.needs, k, act.needs)?;
    }
    Ok(())
}

/// What edges into state k may write at an item, as ranks, and whether they match it and write nothing.
pub(crate) fn read_at(
    job: &Job,
    bound: Bound,
    t: Item,
    k: u32,
    written: &mut Vec<Item>,
    found: &mut Vec<u32>,
) -> Result<bool, NoMemory>
    requires item { t.0 < job.now.hierarchy.items }
    requires state { IsTarget job.now k }
    ensures silent { IfOk result (λ silent. IsTrue silent ↔ Reads job.now t k []) }
    ensures found { OnOk result ((rank : ℕ) → Contains found.new.items rank
        ↔ WritesRank job.now bound t k rank) }
    ensures rising { OnOk result (AllPairs (λ low high. low < high) found.new.items) }
{
    found.clear();
    let leaf = job.fst().leaf(State(k));
    let matches = outputs(job.hierarchy(), &leaf, t, written)?;
    if !job.fst().is_captured(State(k)) {
        return Ok(matches);
    }
    push_ranks(job.ranks(), written.as_slice(), bound.top, found)?;
    found.sort_unstable();
    Ok(false)
}

// The ranks up to the top of those of the items that have one.
fn push_ranks(ranks: &Ranks, items: &[Item], top: u32, found: &mut Vec<u32>) -> Result<(), NoMemory>
    requires ranked { AllPairs (λ v w. v ≢ w) ranks.now.order }
    requires rising { AreRising items.now }
    requires empty { found.old.items ≡ [] }
    ensures once { OnOk result (AllPairs (λ one other. one ≢ other) found.new.items) }
    ensures ranks { OnOk result ((rank : ℕ) → Contains found.new.items rank
        ↔ ((v : Item) × Contains items.now v × HasRank ranks.now.order v rank × (rank ≤ top))) }
{
    for item in items {
        if let Some(rank) = ranks.rank(*item) {
            if rank <= top {
                found.push(rank)?;
            }
        }
    }
    Ok(())
}

// Whether one of the ranks is the one that is needed; where none is, any is.
fn is_needed(need: Option<u32>, ranks: &[u32]) -> bool
    ensures { IsTrue result ↔ ((rank : ℕ) × Contains ranks.now rank × IsNeededRank need rank) }
{
    match need {
        None => !ranks.is_empty(),
        Some(need) => ranks.contains(&need),
    }
}

// Appends the number where the condition holds.
fn push_if(list: &mut Vec<u32>, k: u32, holds: bool) -> Result<(), NoMemory>
    ensures { OnOk result ((j : ℕ) → Contains list.new.items j
        ↔ (Contains list.old.items j ⊎ ((j ≡ k) × IsTrue holds))) }
{
    if holds {
        list.push(k)?;
    }
    Ok(())
}
