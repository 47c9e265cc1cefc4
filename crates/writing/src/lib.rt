#![tactic(auto)]
// What each step changes in storage, record by record: one record given another state or link, and an index appended with links
// set both ways. What writes takes the cells themselves and says how long they are, since an `IndexRecords` only reads.
ghost use Rattle.std.specs.Prelude.{◌≡◌, ◌⊎◌, ℕ, ◌+◌, ◌*◌, ◌<◌, ◌≤◌, length, get_or};
ghost use Rattle.area.specs.Records.{records_of, run_of, stored, held_in, levels_of};
ghost use Rattle.area.specs.Encoding.{none};
ghost use Rattle.area.specs.Packed.{FitsByte, PackedWords};
ghost use Rattle.quadrature.specs.Readings.{record_at};
ghost use Rattle.writing.specs.Changes.{with_state, with_forward_link, new_links, named_from, appended};

// Gives the record at a place another state and indicator.
pub fn set_state(place: usize, state: u32, indicator: u32, cells: &mut [u32])
    requires { place * 27 + 27 ≤ length cells.old }
    ensures { run_of cells.new ≡ stored (run_of cells.old) place (with_state (record_at (records_of cells.old) place) state indicator) }
{
    let mut index = area::IndexRecords::all(cells).record(place);
    index.state = state;
    index.indicator = indicator;
    area::store(cells, place, index);
}

// Gives the record at a place another forward link along an axis.
fn link_forward(place: usize, axis: usize, to: u32, cells: &mut [u32])
    requires { (place * 27 + 27 ≤ length cells.old) × (axis < 8) }
    ensures { run_of cells.new ≡ stored (run_of cells.old) place (with_forward_link (record_at (records_of cells.old) place) axis to) }
{
    let mut index = area::IndexRecords::all(cells).record(place);
    index.links[axis] = to;
    area::store(cells, place, index);
}

// The links of an index about to be appended: each backward neighbour is the level list copied with one level lowered, and is
// looked up; no forward neighbour is held.
fn new_links(held: &area::IndexRecords, levels: [u32; 8], words: &area::HeldWords) -> [u32; 16]
    requires few_held { length held.now ≤ 512 }
    requires packed { PackedWords words.now held.now }
    ensures { result ≡ new_links (levels_of held.now) levels }
{
    let mut links = [area::NONE; 16];
    for axis in 0..8 {
        let has_backward = 1 < levels[axis];
        if has_backward {
            let behind = grid::backward_neighbour(levels, axis);
            if let Some(place) = words.lookup(held, behind) {
                links[8 + axis] = place as u32;
            }
        }
    }
    links
}

// Gives each backward neighbour in `links` the place `held` as its forward link.
fn name_back(held: usize, links: [u32; 16], cells: &mut [u32])
    requires { (held ≤ 512) × ((a : ℕ) → a < 8 → (get_or links (8 + a) 0 ≡ none) ⊎ (get_or links (8 + a) 0 < length (records_of cells.old))) }
    ensures { run_of cells.new ≡ record { records = named_from 8 0 links held (records_of cells.old); rest = (run_of cells.old).rest } }
{
    for axis in 0..8 {
        let behind = links[8 + axis];
        if behind != area::NONE {
            link_forward(behind as usize, axis, held as u32, cells);
        }
    }
}

// Appends an index to the held, wanted, its block from `first` on, and its word to theirs, so that the next search goes by the words of all held.
pub fn append(
    held: usize,
    first: usize,
    levels: [u32; 8],
    cells: &mut [u32],
    words: &mut area::HeldWords,
)
    requires held_in_bounds { (held * 27 + 27 ≤ length cells.old) × (held < 512) × (first ≤ 8192) }
    requires packed { PackedWords words.old (held_in cells.old held) }
    ensures cells_after { run_of cells.new ≡ record { records = appended (records_of cells.old) held first levels; rest = (run_of cells.old).rest } }
    ensures words { FitsByte levels → PackedWords words.new (held_in cells.new (held + 1)) }
{
    let links = new_links(&area::IndexRecords::first(cells, held), levels, words);
    name_back(held, links, cells);
    let index = area::IndexRecord {
        levels,
        state: area::WANTED,
        indicator: 0,
        first: first as u32,
        links,
    };
    area::store(cells, held, index);
    words.put(held, levels);
}
