#![tactic(auto)]
// Choose and promote on an area that is known to be sound: whether to go on, selecting a place, and refining any active place. The public calls
// are those of the crate `calls`.
ghost use Rattle.std.specs.Prelude.{◌≡◌, cond, List, ℕ, ◌+◌, ◌*◌, ◌^◌, ◌<◌, ◌≤◌, leb, length, unwrap_or, IfSome};
ghost use Rattle.grid.specs.Index.{level, Within, at_ceiling};
ghost use Rattle.area.specs.Settings.{readings_for};
ghost use Rattle.area.specs.Records.{records_of, run_of, held_in};
ghost use Rattle.area.specs.Entry.{Entry};
ghost use Rattle.area.specs.Encoding.{area_of, entries_of, machine_of};
ghost use Rattle.area.specs.Packed.{PackedWords};
ghost use Rattle.quadrature.specs.Readings.{record_at};
ghost use Rattle.machine.specs.Log.{first_wanted};
ghost use Rattle.machine.specs.Areas.{refine_on};
ghost use Rattle.machine.specs.Choose.{met, capped, selected, choose};
ghost use Rattle.machine.specs.Promote.{make_old, is_old, admitted_axes};
ghost use Rattle.writing.specs.Changes.{appended_all, sizes_of};
ghost use Rattle.writing.specs.Heads.{heads_of};
ghost use Rattle.writing.specs.ValidArea.{ValidArea};
ghost use Rattle.promotion.specs.Outcomes.{choice_of, promotion_of};
ghost use Rattle.promotion.specs.Marks.{marked_axes, Neighbours, Scannable, Admissible};

use std::marker::Model;

// What choose answers; `Place` carries the place that the rule selects.
#[derive(Clone, Copy, PartialEq, Eq)]
pub enum Choice {
    Met,
    Capped,
    Place(usize),
}

// What promote answers; where it is spent, nothing has changed.
#[derive(Clone, Copy, PartialEq, Eq)]
pub enum Outcome {
    Spent,
    Promoted,
}

// The active place of largest indicator, the lowest among equals, if one is active. It goes from the last place down, so that an equal one at a
// lower place takes over. (A loop and no `max_by_key`: an edit changes what it compares.)
pub fn select(held: &area::IndexRecords) -> Option<usize>
    ensures place { unwrap_or result (length held.now) ≡ selected (heads_of held.now) }
    ensures within { IfSome result (λ p. p < length held.now) }
{
    let mut best = None;
    let mut largest: u32 = 0;
    for place in (0..held.len()).rev() {
        if held.state(place) == area::ACTIVE {
            let indicator = held.indicator(place);
            let is_largest = largest <= indicator;
            if is_largest {
                largest = indicator;
                best = Some(place);
            }
        }
    }
    best
}

// What a scan for neighbours to admit goes by: the held records, the place that is refined and their packed words.
#[derive(Drop)]
struct Scan<'a> {
    held: &'a area::IndexRecords<'a>,
    refined: usize,
    words: &'a area::HeldWords,
}

// Contracts see the held entries, the one that is refined made old.
impl<'a> Model for Scan<'a> {
    ghost Value = { List Entry };

    ghost view = { λ s. make_old (heads_of s.held.now) s.refined };

    ghost invariant = { λ s. Scannable s.held.now s.refined s.words.now };
}

impl<'a> Scan<'a> {
    // Whether an index is held and old.
    fn is_old(&self, levels: [u32; 8]) -> bool
        ensures { result ≡ is_old self.now levels }
    {
        match self.words.lookup(self.held, levels) {
            Some(place) => place == self.refined || self.held.state(place) == area::OLD,
            None => false,
        }
    }

    // The forward neighbours of an index to admit: within the ceilings, all their backward neighbours old. The scan leaves a
    // neighbour for the next axis at the first that is not.
    fn admitted(&self, axes: usize, levels: [u32; 8]) -> Admitted
        requires { (axes ≤ 8) × ((a : ℕ) → a < 8 → level levels a ≤ 8) }
        ensures { result ≡ record { index = levels; along = admitted_axes axes self.now levels } }
    {
        let mut marks = [false; 8];
        'axes: for axis in 0..axes {
            let neighbour = grid::forward_neighbour(levels, axis);
            if !grid::within_ceilings(neighbour) {
                continue 'axes;
            }
            for other in 0..axes {
                if 1 < neighbour[other]
                    && !self.is_old(grid::backward_neighbour(neighbour, other))
                {
                    continue 'axes;
                }
            }
            marks[axis] = true;
        }
        Admitted {
            axes,
            levels,
            marks,
        }
    }
}

// Forward neighbours of an index: those along the marked axes.
#[derive(Drop)]
struct Admitted {
    axes: usize,
    levels: [u32; 8],
    marks: [bool; 8],
}

// Contracts see the index and the marked axes.
impl Model for Admitted {
    ghost Value = { Neighbours };

    ghost view = { λ s. record { index = s.levels; along = marked_axes s.axes s.marks } };

    ghost invariant = { λ s. Admissible s.axes s.levels s.marks };
}

impl Admitted {
    // How many there are.
    fn count(&self) -> usize
        ensures { (result ≡ length self.now.along) × (result ≤ 8) }
    {
        self.marks[..self.axes].iter().filter(|mark| **mark).count()
    }

    // The sizes of their blocks, together.
    fn sizes(&self) -> usize
        ensures { (result ≡ sizes_of self.now.index self.now.along) × (result ≤ 65536) }
    {
        let mut sum: usize = 0;
        for axis in 0..self.axes {
            if self.marks[axis] {
                sum += grid::block_size(grid::forward_neighbour(self.levels, axis));
            }
        }
        sum
    }

    // Appends them in axis order, wanted, to the held, their readings from `first` on. It writes, so it takes the cells (see the crate `writing`).
    fn append(
        &self,
        settings: area::Settings,
        held: usize,
        first: usize,
        cells: &mut [u32],
        words: &mut area::HeldWords,
    )
        requires in_bounds { ((held + length self.now.along) * 27 ≤ length cells.old) × (held + length self.now.along ≤ 512) × (first + readings_for settings (sizes_of self.now.index self.now.along) ≤ 8192) }
        requires packed { PackedWords words.old (held_in cells.old held) }
        ensures cells_after { run_of cells.new ≡ record { records = appended_all settings (records_of cells.old) held first self.now.index self.now.along; rest = (run_of cells.old).rest } }
        ensures words { PackedWords words.new (held_in cells.new (held + length self.now.along)) }
    {
        let mut count = held;
        let mut next = first;
        for axis in 0..self.axes {
            if self.marks[axis] {
                let neighbour = grid::forward_neighbour(self.levels, axis);
                let readings = area::reading_count(settings, neighbour);
                writing::append(count, next, neighbour, cells, words);
                count += 1;
                next += readings;
            }
        }
    }
}

// The carried error once an index is old: raised by its indicator if it is at a ceiling, among eight axes as among the job's (`axes_alike`).
fn carried_after(carried: u64, levels: [u32; 8], indicator: u32) -> u64
    requires { Within levels × (carried < 2 ^ 41) }
    ensures { result ≡ carried + cond (at_ceiling 8 levels) indicator 0 }
{
    if grid::at_ceiling(levels) {
        carried + u64::from(indicator)
    } else {
        carried
    }
}

// Refines an active place, unless that is spent. At most so many readings may then be reserved; the limit is no more than the budget. The held records are
// packed once, for all searches of the scan and of the appends; in a valid area they always can be.
pub fn refine(
    job: &mut area::JobRecord,
    place: usize,
    limit: u32,
    cells: &mut [u32],
    store: &[i32],
) -> Outcome
    requires valid_area { ValidArea (area_of job.old cells.old store.now) × (length (entries_of (area_of job.old cells.old store.now)) ≤ first_wanted (entries_of (area_of job.old cells.old store.now))) }
    requires place_lt_held { (place < job.old.held) × ((record_at (records_of cells.old) place).state ≡ 1) × (limit ≤ job.old.settings.budget) }
    ensures is { promotion_of result job.new cells.new store.now ≡ refine_on limit (area_of job.old cells.old store.now) place }
    ensures valid { ValidArea (area_of job.new cells.new store.now) }
{
    let settings = job.settings;
    let held = job.held as usize;
    let reserved = job.reserved as usize;
    let most = limit as usize;
    let held_records = area::IndexRecords::first(cells, held);
    let mut words = area::HeldWords::none();
    words.hold(&held_records);
    let levels = held_records.levels(place);
    let scan = Scan {
        held: &held_records,
        refined: place,
        words: &words,
    };
    let neighbours = scan.admitted(settings.axes as usize, levels);
    let count = neighbours.count();
    let sizes = neighbours.sizes();
    if 512 < held + count {
        return Outcome::Spent;
    }
    let is_over = most < reserved + sizes;
    if is_over {
        return Outcome::Spent;
    }
    let indicator = held_records.indicator(place);
    writing::set_state(place, area::OLD, indicator, cells);
    let first = area::readings_for(settings, reserved);
    neighbours.append(settings, held, first, cells, &mut words);
    job.held = (held + count) as u32;
    job.reserved = (reserved + sizes) as u32;
    job.pending -= u64::from(indicator);
    job.carried = carried_after(job.carried, levels, indicator);
    Outcome::Promoted
}

// What choose answers where the pending error is at most the threshold: met if the carried error does not bring it above, otherwise capped.
fn ending(job: area::JobRecord) -> Choice
    requires { job.pending ≤ job.settings.threshold }
    ensures { choice_of result ≡ cond (leb (job.pending + job.carried) job.settings.threshold) met capped }
{
    if job.carried <= job.settings.threshold - job.pending {
        Choice::Met
    } else {
        Choice::Capped
    }
}

// Chooses: met, capped or the place that the rule selects.
pub fn choose(job: area::JobRecord, cells: &[u32], store: &[i32]) -> Choice
    requires { ValidArea (area_of job cells.now store.now) }
    ensures { choice_of result ≡ choose (machine_of (area_of job cells.now store.now)).log }
{
    if job.pending <= job.settings.threshold {
        return ending(job);
    }
    let held = area::IndexRecords::first(cells, job.held as usize);
    Choice::Place(select(&held).unwrap())
}
