// Numbers by marks.
use std::alloc::Global;
use std::mem;
use tl_syntax::NoMemory;

/// How many places are looked at for a mark, one after another.
const TRIES: usize = 8;

/// How many places there are at least, once there is a number. It is a power of two, as all later
/// counts are.
const FEWEST: usize = 64;

/// What stands in a place without a number.
const NOTHING: u64 = 0;

/// How many bits of a place the number takes.
const NUMBER_BITS: u32 = 32;

/// The part of a mark that stands in a place.
const UPPER: u64 = 0xffff_ffff_0000_0000;

/// The part of a place in which the number stands, counted from 1.
const LOWER: u64 = 0xffff_ffff;

/// Numbers by marks, as guesses: whoever takes one looks whether it is right, and nothing is
/// promised of them. A number takes 16 bytes or fewer than twice that, half a mark with it. The
/// latest number counts, and one may be forgotten where many have places side by side.
#[derive(Drop)]
pub(crate) struct Marks {
    alloc: Global,
    places: Vec<u64>,
    count: usize,
}

/// The first place at which a mark is looked for.
fn home_of(mark: u64, last: usize) -> usize {
    (mark >> NUMBER_BITS) as usize & last
}

/// Whether both have the same part of a mark.
fn is_alike(mark: u64, other: u64) -> bool {
    mark & UPPER == other & UPPER
}

/// What stands at a place.
fn word_at(places: &[u64], place: usize) -> u64 {
    match places.get(place) {
        Some(word) => *word,
        None => NOTHING,
    }
}

/// The place of the mark, or one where it may be put.
fn place_of(places: &[u64], mark: u64) -> usize {
    let last = places.len().wrapping_sub(1);
    let home = home_of(mark, last);
    let mut place = home;
    for _ in 0..TRIES {
        let word = word_at(places, place);
        if word == NOTHING || is_alike(word, mark) {
            return place;
        }
        place = place.wrapping_add(1) & last;
    }
    home
}

/// Puts a word at the place of its mark, where there are places, and says whether nothing stood
/// there.
fn put(places: &mut [u64], word: u64) -> bool {
    let place = place_of(places, word);
    if let Some(there) = places.get_mut(place) {
        let was_empty = *there == NOTHING;
        *there = word;
        return was_empty;
    }
    false
}

impl Marks {
    /// No number. It takes no memory.
    pub(crate) fn new(alloc: Global) -> Marks {
        Marks {
            alloc,
            places: Vec::new(alloc),
            count: 0,
        }
    }

    /// The number that was noted last with this mark, or none, or another one. It takes no memory.
    pub(crate) fn get(&self, mark: u64) -> Option<usize> {
        let places = self.places.as_slice();
        let word = word_at(places, place_of(places, mark));
        if word != NOTHING && is_alike(word, mark) {
            Some((word & LOWER).wrapping_sub(1) as usize)
        } else {
            None
        }
    }

    /// Twice as many places.
    fn grow(&mut self) -> Result<(), NoMemory> {
        let many = self.places.len().saturating_mul(2).max(FEWEST);
        let more = vec![in self.alloc; NOTHING; many]?;
        let before = mem::replace(&mut self.places, more);
        for word in before.as_slice() {
            if *word != NOTHING {
                let _ = put(self.places.as_mut_slice(), *word);
            }
        }
        Ok(())
    }

    /// Notes the number with its mark, where there is memory for it.
    pub(crate) fn note(&mut self, mark: u64, number: u32) {
        if self.count >= self.places.len() / 2 {
            match self.grow() {
                Ok(()) => {}
                Err(_) => return,
            }
        }
        let word = (mark & UPPER) | ((number as u64).wrapping_add(1) & LOWER);
        if put(self.places.as_mut_slice(), word) {
            self.count = self.count.saturating_add(1);
        }
    }
}
