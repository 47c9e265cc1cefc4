#![tactic(auto, using(crate::proofs::Rules::closing), unfolding(crate::specs::Lookup::lookup_in, crate::specs::Settings::readings_for, crate::specs::Settings::reading_count, crate::specs::Settings::least_store))]
// Storage: what a job is started with and how many readings its points have; the job record by value, and index records in one lent
// slice of cells, 27 words to a record. Only this crate touches a cell: `IndexRecords` reads, `store` writes, and their contracts speak of
// the records that the cells hold. For a search the levels of records can be packed, eight to a word of 64 bits, beside the cells.
ghost use Rattle.std.specs.Prelude.{◌≡◌, ◌+◌, ◌*◌, ◌<◌, ◌≤◌, List, ℕ, length, get_or, take, drop, Option, None, is_some, option_map, IfSome};
ghost use Rattle.std.proofs.lemmas.List.Edits.{sets};
ghost use Rattle.area.specs.Encoding.{none};
ghost use Rattle.grid.specs.Index.{level, Within};
ghost use Rattle.grid.specs.Coefficient.{same_levels};
ghost use Rattle.area.specs.Settings.{readings_for, reading_count, least_store};
ghost use Rattle.area.specs.Records.{run_of, stored};
ghost use Rattle.area.specs.Lookup.{lookup_in};
ghost use Rattle.area.specs.Packed.{fits_byte, all_fit_byte, packing_of, words_with, word_from, PackedRun, PackedWords};

use std::marker::Model;

mod index_records;

pub use index_records::IndexRecords;

// The link to a neighbour that is not held. It and the states stay numbers: they are words of records that a C caller lends (`record_of`),
// where any number may stand, and are compared as they are.
pub const NONE: u32 = 4294967295;

pub const WANTED: u32 = 0;

pub const ACTIVE: u32 = 1;

pub const OLD: u32 = 2;

// What a job is started with.
#[derive(Clone, Copy)]
pub struct Settings {
    pub axes: u32,
    pub threshold: u64,
    pub budget: u32,
}

#[derive(Clone, Copy)]
pub struct JobRecord {
    pub settings: Settings,
    pub held: u32,
    pub reserved: u32,
    pub pending: u64,
    pub carried: u64,
    pub mean: i64,
}

// The links are the places of the forward neighbours along axes 1 to 8, then those of the backward neighbours.
#[derive(Clone, Copy)]
pub struct IndexRecord {
    pub levels: [u32; 8],
    pub state: u32,
    pub indicator: u32,
    pub first: u32,
    pub links: [u32; 16],
}

// The levels of the held records, packed eight to a word: none where one of them is larger than a byte. An array, since the library has no heap, with whether it holds
// words beside it: an `Option` of the array was tried, and every promotion then copied the words, in three times the stack. Whose words they are
// is a clause (`PackedWords`) and no invariant: they outlive the loan of the cells, which an append writes.
#[derive(Drop)]
pub struct HeldWords {
    words: [u64; 512],
    are_packed: bool,
}

// Contracts see the words as they are, or none.
impl Model for HeldWords {
    ghost use Rattle.std.specs.Prelude.{Option, Some, None, cond, List, ℕ};

    ghost Value = { Option (List ℕ) };

    ghost view = { λ w. cond w.are_packed (Some w.words) None };
}

// How many readings so many points have.
pub fn readings_for(settings: Settings, points: usize) -> usize
    ensures { result ≡ readings_for settings points }
{
    points
}

// How many readings an index's block has.
pub fn reading_count(settings: Settings, levels: [u32; 8]) -> usize
    requires { Within levels }
    ensures { result ≡ reading_count settings levels }
{
    readings_for(settings, grid::block_size(levels))
}

// The fewest readings that a reading store may have.
pub fn least_store(settings: Settings) -> usize
    ensures { result ≡ least_store settings }
{
    readings_for(settings, settings.budget as usize)
}

// The levels as one word, a byte for each, axis 1 lowest. It begins with the last axis: what is packed is moved up a byte, and the next level
// put below it.
pub fn pack(levels: [u32; 8]) -> Option<u64>
    ensures { result ≡ packing_of levels }
{
    let mut word = 0;
    for axis in (0..8).rev() {
        let byte = u8::try_from(levels[axis]).ok()?;
        // Packed as it is tested: the library's conversion takes eight bytes that are there already.
        word = word * 256 + u64::from(byte);
    }
    Some(word)
}

// The first place that has this word. It looks at two places in each pass, since most searches pass many: the library's `position` looks at one,
// and the program on the job with the most held then misses its limit (docs/PERFORMANCE.md).
fn lookup_word(words: &[u64], word: u64) -> Option<usize>
    ensures { result ≡ word_from 0 words.now word }
{
    let pairs = words.len() / 2;
    for pair in 0..pairs {
        let first = 2 * pair;
        if words[first] == word {
            return Some(first);
        }
        let second = first + 1;
        if words[second] == word {
            return Some(second);
        }
    }
    let last = 2 * pairs;
    if last < words.len() && words[last] == word {
        return Some(last);
    }
    None
}

impl HeldWords {
    // No words, so that levels are compared unpacked.
    pub fn none() -> HeldWords
        ensures { result ≡ None }
    {
        HeldWords {
            words: [0; 512],
            are_packed: false,
        }
    }

    // Packs the held records, in the place of the words that were there.
    pub fn hold(&mut self, held: &IndexRecords)
        requires { length held.now ≤ 512 }
        ensures packs { is_some self.new ≡ all_fit_byte held.now }
        ensures words { PackedWords self.new held.now }
    {
        self.are_packed = true;
        for place in 0..held.len() {
            let Some(word) = pack(held.levels(place)) else {
                self.are_packed = false;
                return;
            };
            self.words[place] = word;
        }
    }

    // The words of the held records, by value. A promotion uses `hold`, which copies none.
    pub fn pack(held: &IndexRecords) -> HeldWords
        requires { length held.now ≤ 512 }
        ensures packs { is_some result ≡ all_fit_byte held.now }
        ensures words { PackedWords result held.now }
    {
        let mut words = HeldWords::none();
        words.hold(held);
        words
    }

    // Writes the word of these levels at a place, where they fit; else no word changes.
    pub fn put(&mut self, place: usize, levels: [u32; 8])
        requires { place < 512 }
        ensures { self.new ≡ option_map (λ ws. words_with ws place levels) self.old }
    {
        if self.are_packed {
            if let Some(word) = pack(levels) {
                self.words[place] = word;
            }
        }
    }

    // The lookup again, a word at a time where the held records are packed and the levels sought fit a byte. Where a level is larger,
    // held or sought, levels are compared unpacked, by `lookup`.
    pub fn lookup(&self, held: &IndexRecords, levels: [u32; 8]) -> Option<usize>
        requires { PackedWords self.now held.now }
        ensures { result ≡ lookup_in held.now levels }
    {
        if self.are_packed
            && let Some(word) = pack(levels)
        {
            return lookup_word(&self.words[..held.count], word);
        }
        held.lookup(levels)
    }
}

// Writes the record at a place, and changes no other cell.
pub fn store(cells: &mut [u32], place: usize, index: IndexRecord)
    requires { place * 27 + 27 ≤ length cells.old }
    ensures { run_of cells.new ≡ stored (run_of cells.old) place index }
{
    let at = place * 27;
    cells[at..at + 8].copy_from_slice(&index.levels);
    cells[at + 8] = index.state;
    cells[at + 9] = index.indicator;
    cells[at + 10] = index.first;
    cells[at + 11..at + 27].copy_from_slice(&index.links);
}
