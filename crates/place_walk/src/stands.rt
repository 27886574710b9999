//! Lists of stands.

ghost use Rattle.std.specs.Prelude.{◌≡◌, ◌≤◌, ◌<◌, ◌++◌, ◌↔◌, length, map, slice_get, slice_range, Some, IsTrue};
ghost use Rattle.place_walk.specs.Codes.{stand_of, Fits};

use super::stand::Stand;
use std::marker::Model;

/// Stands, one behind another. A contract sees the list of them. First come those that are held in four bytes
/// each, and then those in eight.
#[derive(Drop)]
pub struct Stands<'a> {
    codes: &'a [u32],
    rest: &'a [Stand],
}

impl<'a> Model for Stands<'a> {
    ghost use Rattle.std.specs.Prelude.{List, ◌++◌, map};
    ghost use Rattle.place_walk.specs.declared.stand.Stand.{Stand};
    ghost use Rattle.place_walk.specs.Codes.{stand_of};

    ghost Value = { List Stand };

    ghost view = { λ s. map stand_of s.codes.now ++ s.rest.now };
}

impl<'a> Stands<'a> {
    /// The stands with these codes, and then the others.
    pub fn new(codes: &'a [u32], rest: &'a [Stand]) -> Stands<'a>
        ensures { result ≡ map stand_of codes.now ++ rest.now }
    {
        Stands { codes, rest }
    }

    /// These stands.
    pub fn of(rest: &'a [Stand]) -> Stands<'a>
        ensures { result ≡ rest.now }
    {
        Stands { codes: &[], rest }
    }

    /// How many there are.
    #[inline]
    pub fn len(&self) -> usize
        ensures { result ≡ length self.now }
    {
        self.codes.len() + self.rest.len()
    }

    /// The stand at the index.
    #[inline]
    pub fn get(&self, index: usize) -> Stand
        requires { index < length self.now }
        ensures { slice_get self.now index ≡ Some result }
    {
        match self.codes.get(index) {
            Some(code) => decoded(*code),
            None => self.rest[index - self.codes.len()],
        }
    }

    /// Those from one index to before the other.
    #[inline]
    pub fn piece(&self, from: usize, to: usize) -> Stands<'a>
        requires ordered { from ≤ to }
        requires within { to ≤ length self.now }
        ensures { result ≡ slice_range self.now from to }
    {
        let coded = self.codes.len();
        Stands {
            codes: &self.codes[from.min(coded)..to.min(coded)],
            rest: &self.rest[from.saturating_sub(coded)..to.saturating_sub(coded)],
        }
    }
}

/// Whether a stand before this place, in this state, can be held in four bytes: whether the place fits into
/// 25 bits and the state into six.
#[inline]
pub fn fits(place: u32, state: u16) -> bool
    ensures { IsTrue result ↔ Fits place state }
{
    place < 1 << 25 && state < 1 << 6
}

/// The four bytes of a stand.
#[inline]
pub fn code_of(stand: Stand) -> u32
    requires { Fits stand.place stand.state }
    ensures { stand_of result ≡ stand }
{
    let mark = if stand.first { 1 } else { 0 };
    stand.place * 128 + u32::from(stand.state) * 2 + mark
}

// The stand of a code.
#[inline]
fn decoded(code: u32) -> Stand
    ensures { result ≡ stand_of code }
{
    Stand {
        place: code / 128,
        state: (code / 2 % 64) as u16,
        first: code % 2 == 1,
    }
}
