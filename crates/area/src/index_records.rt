// The index records that a lent slice of cells holds. Here a cell is read, and in `store` one is written; all other code sees records.
// A place is a plain number and its bound a clause, since a type for places could not say of which records. That a job holds at most 512 is a clause as well: the
// cells may have room for more.
ghost use Rattle.std.specs.Prelude.{◌≡◌, ◌+◌, ◌*◌, ◌<◌, ◌≤◌, length, get_or, take, drop};
ghost use Rattle.grid.specs.Index.{level};
ghost use Rattle.grid.specs.Coefficient.{same_levels};
ghost use Rattle.area.specs.Encoding.{none};
ghost use Rattle.area.specs.Records.{records_of, record_of, blank, held_in};
ghost use Rattle.area.specs.Lookup.{lookup_in};

use super::IndexRecord;
use std::marker::Model;

// The first `count` records of the cells, 27 words to a record. In a clause it is the list of them.
#[derive(Drop)]
pub struct IndexRecords<'a> {
    cells: &'a [u32],
    // Read by `HeldWords::lookup`, which so learns of the records that each has eight levels.
    pub(crate) count: usize,
}

impl<'a> Model for IndexRecords<'a> {
    ghost use Rattle.std.specs.Prelude.{List, ◌*◌, ◌≤◌, length};
    ghost use Rattle.area.specs.declared.IndexRecord.{IndexRecord};
    ghost use Rattle.area.specs.Records.{held_in};

    ghost Value = { List IndexRecord };

    ghost view = { λ r. held_in r.cells.now r.count };

    ghost invariant = { λ r. r.count * 27 ≤ length r.cells.now };
}

// So many cells in a row. (`jobfile::bytes_at` is the same of bytes; that crate rests on no other, and a crate of both would hold this line alone.)
fn run_at<const N: usize>(cells: &[u32], at: usize) -> [u32; N]
    requires { at + N ≤ length cells.now }
    ensures { result ≡ take N (drop at cells.now) }
{
    cells[at..at + N].try_into().unwrap()
}

impl<'a> IndexRecords<'a> {
    // The first so many records of the cells.
    pub fn first(cells: &'a [u32], count: usize) -> IndexRecords<'a>
        requires { count * 27 ≤ length cells.now }
        ensures { result ≡ held_in cells.now count }
    {
        IndexRecords { cells, count }
    }

    // As many as the cells have room for.
    pub fn all(cells: &'a [u32]) -> IndexRecords<'a>
        ensures { result ≡ records_of cells.now }
    {
        IndexRecords {
            cells,
            count: cells.len() / 27,
        }
    }

    // The first so many of these.
    pub fn front(&self, count: usize) -> IndexRecords<'a>
        requires { count ≤ length self.now }
        ensures { result ≡ take count self.now }
    {
        IndexRecords {
            cells: self.cells,
            count,
        }
    }

    pub fn len(&self) -> usize
        ensures { result ≡ length self.now }
    {
        self.count
    }

    // The 27 cells of the record at a place.
    fn row(&self, place: usize) -> &[u32]
        requires { place < length self.now }
        ensures length { length result.now ≡ 27 }
        ensures record { record_of result.now ≡ get_or self.now place blank }
    {
        let cells = self.cells;
        let at = place * 27;
        &cells[at..at + 27]
    }

    // The record at a place.
    pub fn record(&self, place: usize) -> IndexRecord
        requires { place < length self.now }
        ensures { result ≡ get_or self.now place blank }
    {
        let row = self.row(place);
        IndexRecord {
            levels: run_at(row, 0),
            state: row[8],
            indicator: row[9],
            first: row[10],
            links: run_at(row, 11),
        }
    }

    // The levels of the record at a place.
    pub fn levels(&self, place: usize) -> [u32; 8]
        requires { place < length self.now }
        ensures { result ≡ (get_or self.now place blank).levels }
    {
        run_at(self.row(place), 0)
    }

    // One level of the record at a place.
    pub fn level(&self, place: usize, axis: usize) -> u32
        requires { (place < length self.now) × (axis < 8) }
        ensures { result ≡ level (get_or self.now place blank).levels axis }
    {
        self.row(place)[axis]
    }

    pub fn state(&self, place: usize) -> u32
        requires { place < length self.now }
        ensures { result ≡ (get_or self.now place blank).state }
    {
        self.row(place)[8]
    }

    pub fn indicator(&self, place: usize) -> u32
        requires { place < length self.now }
        ensures { result ≡ (get_or self.now place blank).indicator }
    {
        self.row(place)[9]
    }

    // The first reading of the record at a place.
    pub fn first_reading(&self, place: usize) -> u32
        requires { place < length self.now }
        ensures { result ≡ (get_or self.now place blank).first }
    {
        self.row(place)[10]
    }

    // One link of the record at a place.
    pub fn link(&self, place: usize, which: usize) -> u32
        requires { (place < length self.now) × (which < 16) }
        ensures { result ≡ get_or (get_or self.now place blank).links which none }
    {
        self.row(place)[11 + which]
    }

    // Whether the record at a place has these levels.
    pub fn levels_are(&self, place: usize, levels: [u32; 8]) -> bool
        requires { place < length self.now }
        ensures { result ≡ same_levels (get_or self.now place blank).levels levels }
    {
        self.levels(place) == levels
    }

    // The first place that has these levels.
    pub fn lookup(&self, levels: [u32; 8]) -> Option<usize>
        ensures { result ≡ lookup_in self.now levels }
    {
        (0..self.len()).find(|&place| self.levels_are(place, levels))
    }
}
