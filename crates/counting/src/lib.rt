#![tactic(auto)]
// Result, doubles and cross total on an area that is known to be sound. The public calls are those of the crate `calls`.
ghost use Rattle.std.specs.Prelude.{◌≡◌, ℕ, ◌<◌, ◌≤◌, length};
ghost use Rattle.grid.specs.Index.{Within};
ghost use Rattle.quadrature.specs.Readings.{record_at};
ghost use Rattle.area.specs.Encoding.{area_of, entries_of, machine_of};
ghost use Rattle.machine.specs.Counts.{count_of, ceiling_count, counts_of};
ghost use Rattle.machine.specs.Means.{cross_of};
ghost use Rattle.writing.specs.Heads.{heads_of};
ghost use Rattle.writing.specs.ValidArea.{ValidArea};
ghost use Rattle.counting.specs.Answer.{counts_in};
ghost use Rattle.counting.specs.Doubles.{doubles_of};

#[derive(Clone, Copy)]
pub struct Counts {
    pub old: u32,
    pub active: u32,
    pub wanted: u32,
    pub reserved: u32,
    pub pending: u64,
    pub carried: u64,
    pub mean: i64,
    pub ceiling: u32,
}

// How many held records have a state.
fn state_count(held: &area::IndexRecords, state: u32) -> u32
    requires { length held.now ≤ 512 }
    ensures { result ≡ count_of state (heads_of held.now) }
{
    (0..held.len())
        .filter(|&place| held.state(place) == state)
        .count() as u32
}

// The number of pairs of an old index and an axis whose forward neighbour passes a ceiling.
fn ceiling_count(axes: usize, held: &area::IndexRecords) -> u32
    requires held_len { (length held.now ≤ 512) × (axes ≤ 8) }
    requires by_index { (p : ℕ) → p < length held.now → Within (record_at held.now p).levels }
    ensures { result ≡ ceiling_count axes (heads_of held.now) }
{
    let mut count: u32 = 0;
    for place in 0..held.len() {
        let is_old = held.state(place) == area::OLD;
        if is_old {
            count += grid::capped_axes(axes, held.levels(place));
        }
    }
    count
}

// The counts of an area.
pub fn result(job: area::JobRecord, cells: &[u32], store: &[i32]) -> Counts
    requires { ValidArea (area_of job cells.now store.now) }
    ensures { counts_in result ≡ counts_of (machine_of (area_of job cells.now store.now)) }
{
    let axes = job.settings.axes as usize;
    let held = area::IndexRecords::first(cells, job.held as usize);
    let old = state_count(&held, area::OLD);
    let active = state_count(&held, area::ACTIVE);
    let wanted = state_count(&held, area::WANTED);
    let ceiling = ceiling_count(axes, &held);
    Counts {
        old,
        active,
        wanted,
        reserved: job.reserved,
        pending: job.pending,
        carried: job.carried,
        mean: job.mean,
        ceiling,
    }
}

// The report of doubles of an area: the recorded mean and pending error, and the largest delivered difference, worked out from the readings.
pub fn doubles(job: area::JobRecord, cells: &[u32], store: &[i32]) -> doubles::Report
    requires { ValidArea (area_of job cells.now store.now) }
    ensures { result ≡ doubles_of (machine_of (area_of job cells.now store.now)) }
{
    let axes = job.settings.axes as usize;
    let held = job.held as usize;
    let records = area::IndexRecords::all(cells);
    let largest = quadrature::largest_difference(axes, held, &records, store);
    doubles::report_of(job.mean, job.pending, largest)
}

// The cross total of an area: its mean as worked from the readings, whatever mean is recorded.
pub fn cross_total(job: area::JobRecord, cells: &[u32], store: &[i32]) -> i64
    requires { ValidArea (area_of job cells.now store.now) }
    ensures { result ≡ cross_of (entries_of (area_of job cells.now store.now)) }
{
    let axes = job.settings.axes as usize;
    let held = job.held as usize;
    let records = area::IndexRecords::all(cells);
    quadrature::combination_sum(axes, held, &records, store)
}
