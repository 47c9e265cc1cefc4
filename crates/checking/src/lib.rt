#![tactic(auto, unfolding(area::specs::Encoding::none, area::specs::Settings::axes_fit, area::specs::Settings::budget_fit, area::specs::Settings::settings_fit, soundness::specs::Test::backward_neighbour_test, soundness::specs::Test::backward_link_test, soundness::specs::Test::forward_link_test, soundness::specs::Test::place_test, soundness::specs::Test::bars_test, soundness::specs::Test::axis_complete_test, soundness::specs::Test::place_complete_test, soundness::specs::Totals::wanted_test, soundness::specs::Totals::block_test, soundness::specs::Totals::job_test, soundness::specs::Totals::held_test))]
// Whether an area is sound. Links are followed and never searched for, so the work grows with what is held. Two passes over the
// places: the second asks for completeness, and reads where the first has tested.
ghost use Rattle.std.specs.Prelude.{◌≡◌, Bool, true, cond, ℕ, ◌+◌, ◌*◌, ◌^◌, ◌<◌, ◌≤◌, leb, nat_abs, length};
ghost use Rattle.sums.specs.Sums.{nat_sum_to};
ghost use Rattle.grid.specs.Index.{level, Within};
ghost use Rattle.area.specs.Settings.{SettingsFit, settings_fit, least_store};
ghost use Rattle.area.specs.Encoding.{area_of};
ghost use Rattle.quadrature.specs.Readings.{record_at};
ghost use Rattle.soundness.specs.Held.{levels_at, backward_link, count_at};
ghost use Rattle.soundness.specs.Clauses.{checked};
ghost use Rattle.soundness.specs.Test.{all_from, any_from, index_test, root_test, backward_neighbour_test, backward_link_test, forward_link_test, axis_test, place_test, places_test, bars_test, axis_complete_test, place_complete_test, all_complete_test};
ghost use Rattle.soundness.specs.Totals.{wanted_test, all_wanted_test, reading_test, block_test, blocks_test, pending_in, carried_in, delivered_count, job_test, numbers_test, held_test};

// Whether a level list is an index of a job with so many axes.
fn index_fits(axes: usize, levels: [u32; 8]) -> bool
    requires { axes ≤ 8 }
    ensures { result ≡ index_test axes levels }
{
    grid::within_ceilings(levels) && levels[axes..].iter().all(|&level| level == 1)
}

// Whether the root is here exactly if this is place 0. The root is the one index without excess.
fn root_fits(held: &area::IndexRecords, place: usize) -> bool
    requires { (place < length held.now) × Within (levels_at held.now place) }
    ensures { result ≡ root_test held.now place }
{
    let is_root = grid::excess_of(held.levels(place)) == 0;
    is_root == (place == 0)
}

// Whether the backward link along an axis names a place behind: the lowered levels, old, and linked back.
fn backward_neighbour_fits(held: &area::IndexRecords, place: usize, axis: usize) -> bool
    requires in_bounds { (place < length held.now) × (axis < 8) }
    requires bound { 1 < level (levels_at held.now place) axis }
    ensures { result ≡ backward_neighbour_test held.now place axis (backward_link held.now place axis) }
{
    let behind = held.link(place, 8 + axis) as usize;
    behind < held.len()
        && held.state(behind) == area::OLD
        && held.link(behind, axis) as usize == place
        && held.levels_are(behind, grid::backward_neighbour(held.levels(place), axis))
}

// Whether the backward link along an axis is right: none at level 1, else to the place behind.
fn backward_link_fits(held: &area::IndexRecords, place: usize, axis: usize) -> bool
    requires { (place < length held.now) × (axis < 8) }
    ensures { result ≡ backward_link_test held.now place axis }
{
    if held.level(place, axis) <= 1 {
        held.link(place, 8 + axis) == area::NONE
    } else {
        backward_neighbour_fits(held, place, axis)
    }
}

// Whether the forward link along an axis is none, or names a held place that names this one back.
fn forward_link_fits(held: &area::IndexRecords, place: usize, axis: usize) -> bool
    requires { (place < length held.now) × (axis < 8) }
    ensures { result ≡ forward_link_test held.now place axis }
{
    let link = held.link(place, axis);
    let ahead = link as usize;
    link == area::NONE || (ahead < held.len() && held.link(ahead, 8 + axis) as usize == place)
}

// Whether the sixteen links of a place are right.
fn links_fit(held: &area::IndexRecords, place: usize) -> bool
    requires { place < length held.now }
    ensures { result ≡ all_from 8 0 (axis_test held.now place) }
{
    (0..8).all(|axis| {
        backward_link_fits(held, place, axis) && forward_link_fits(held, place, axis)
    })
}

// What one place shows of itself: its index, state and links, and that it is the root exactly at place 0.
fn place_fits(axes: usize, held: &area::IndexRecords, place: usize) -> bool
    requires { (axes ≤ 8) × (place < length held.now) }
    ensures { result ≡ place_test axes held.now place }
{
    index_fits(axes, held.levels(place))
        && held.state(place) <= area::OLD
        && root_fits(held, place)
        && links_fit(held, place)
}

// The first pass.
fn places_fit(axes: usize, held: &area::IndexRecords) -> bool
    requires { axes ≤ 8 }
    ensures { result ≡ places_test axes held.now }
{
    (0..held.len()).all(|place| place_fits(axes, held, place))
}

// Whether a wanted place has indicator 0 and none but wanted ones after it.
fn wanted_fits(held: &area::IndexRecords, place: usize) -> bool
    requires { place < length held.now }
    ensures { result ≡ wanted_test held.now place }
{
    let count = held.len();
    let next = place + 1;
    held.state(place) != area::WANTED
        || (held.indicator(place) == 0 && (count <= next || held.state(next) == area::WANTED))
}

// Whether wanted records come last with indicator 0.
fn all_wanted_fit(held: &area::IndexRecords) -> bool
    ensures { result ≡ all_wanted_test held.now }
{
    (0..held.len()).all(|place| wanted_fits(held, place))
}

// Whether a number is a reading.
pub fn is_reading(number: i32) -> bool
    ensures { result ≡ leb (nat_abs number) 1048576 }
{
    number.unsigned_abs() <= 1048576
}

// Whether the readings of a block are in range: their places in the store, of which `reading_test` speaks. All of them are looked at, since a loop that never leaves
// early takes several at a time.
pub fn readings_fit(first: usize, size: usize, store: &[i32]) -> bool
    requires { first + size ≤ length store.now }
    ensures { result ≡ all_from size first (reading_test store.now) }
{
    store[first..first + size]
        .iter()
        .fold(true, |fits, &reading| fits & is_reading(reading))
}

// Whether a scaled mean is in size at most a delivered count times 2^40.
fn mean_fits(count: usize, mean: i64) -> bool
    requires { count ≤ 512 }
    ensures { result ≡ leb (nat_abs mean) (count * 2 ^ 40) }
{
    mean.unsigned_abs() <= count as u64 * (1 << 40)
}

// Whether the settings are in range.
pub fn settings_fit(settings: area::Settings) -> bool
    ensures { result ≡ settings_fit settings }
{
    (1..=8).contains(&settings.axes) && (1..=8192).contains(&settings.budget)
}

// Whether the numbers of the job record are in range and the lent storage is long enough.
fn job_fits(job: area::JobRecord, records: usize, readings: usize) -> bool
    ensures { result ≡ job_test job records readings }
{
    512 <= records
        && area::least_store(job.settings) <= readings
        && settings_fit(job.settings)
        && (1..=512).contains(&job.held)
}

// The held records once the first pass has let them through, with the job record: the second pass, the blocks and the sums rest on it.
#[derive(Drop)]
struct Tested<'a> {
    job: area::JobRecord,
    held: &'a area::IndexRecords<'a>,
    ghost settings: { SettingsFit job.settings },
    ghost few: { length held.now ≤ 512 },
    ghost passed: { places_test job.settings.axes held.now ≡ true },
}

impl<'a> Tested<'a> {
    fn axes(&self) -> usize
        ensures { result ≡ self.now.job.settings.axes }
    {
        self.job.settings.axes as usize
    }

    // Whether axis `other` shows that the index here, raised along `axis`, isn't admissible: the place behind along `other` has no
    // forward link along `axis`, or one to an index that isn't old.
    fn bars(&self, place: usize, axis: usize, other: usize) -> bool
        requires place_in_bounds { (place < length self.now.held.now) × (axis < self.now.job.settings.axes) × (other < self.now.job.settings.axes) }
        ensures { result ≡ bars_test self.now.held.now place axis other }
    {
        if other == axis || self.held.level(place, other) <= 1 {
            return false;
        }
        let behind = self.held.link(place, 8 + other) as usize;
        let beside = self.held.link(behind, axis);
        beside == area::NONE || self.held.state(beside as usize) != area::OLD
    }

    // Whether some axis bars the index here along `axis`.
    fn barred(&self, place: usize, axis: usize) -> bool
        requires place_in_bounds { (place < length self.now.held.now) × (axis < self.now.job.settings.axes) }
        ensures { result ≡ any_from self.now.job.settings.axes 0 (bars_test self.now.held.now place axis) }
    {
        (0..self.axes()).any(|other| self.bars(place, axis, other))
    }

    // Whether the forward neighbour along an axis is held, above the ceiling of levels, or barred.
    fn axis_complete(&self, place: usize, axis: usize) -> bool
        requires place_in_bounds { (place < length self.now.held.now) × (axis < self.now.job.settings.axes) }
        ensures { result ≡ axis_complete_test self.now.job.settings.axes self.now.held.now place axis }
    {
        if self.held.link(place, axis) != area::NONE {
            return true;
        }
        let is_highest = 8 <= self.held.level(place, axis);
        is_highest || self.barred(place, axis)
    }

    // Whether all that the index here makes admissible is held.
    fn place_complete(&self, place: usize) -> bool
        requires place_in_bounds { place < length self.now.held.now }
        ensures { result ≡ place_complete_test self.now.job.settings.axes self.now.held.now place }
    {
        self.held.state(place) != area::OLD
            || 12 <= grid::excess_of(self.held.levels(place))
            || (0..self.axes()).all(|axis| self.axis_complete(place, axis))
    }

    // The second pass.
    fn all_complete(&self) -> bool
        ensures { result ≡ all_complete_test self.now.job.settings.axes self.now.held.now }
    {
        (0..self.held.len()).all(|place| self.place_complete(place))
    }

    // Whether the block of a place lies where the blocks before it end, within the least store, its readings in range once delivered.
    fn block_fits(&self, place: usize, first: usize, count: usize, store: &[i32]) -> bool
        requires place_in_bounds { (place < length self.now.held.now) × (least_store self.now.job.settings ≤ length store.now) }
        requires first_value { (first ≡ nat_sum_to place (count_at self.now.job.settings self.now.held.now)) × (first ≤ 8192) }
        requires count_value { (count ≡ count_at self.now.job.settings self.now.held.now place) × (count ≤ 16384) }
        ensures { result ≡ block_test self.now.job.settings self.now.held.now store.now place }
    {
        self.held.first_reading(place) as usize == first
            && first + count <= area::least_store(self.job.settings)
            && (self.held.state(place) == area::WANTED || readings_fit(first, count, store))
    }

    // Whether the blocks follow each other, within the least store, and come to the readings of the reserved points.
    fn blocks_fit(&self, store: &[i32]) -> bool
        requires { least_store self.now.job.settings ≤ length store.now }
        ensures { result ≡ blocks_test self.now.job.settings self.now.job.reserved self.now.held.now store.now }
    {
        let mut first: usize = 0;
        for place in 0..self.held.len() {
            let count = area::reading_count(self.job.settings, self.held.levels(place));
            if !self.block_fits(place, first, count, store) {
                return false;
            }
            first += count;
        }
        first == area::readings_for(self.job.settings, self.job.reserved as usize)
    }

    // The sum of the indicators of the held places that pass a test.
    fn indicator_sum<F: Fn(usize) -> bool>(&self, passes: F) -> u64
        requires { (p : ℕ) → p < length self.now.held.now → F.pre passes p }
        ensures { (test : ℕ → Bool) → ((p : ℕ) (b : Bool) → p < length self.now.held.now → F.post passes p b → b ≡ test p) → result ≡ nat_sum_to (length self.now.held.now) (λ p. cond (test p) (record_at self.now.held.now p).indicator 0) }
    {
        let mut sum: u64 = 0;
        for place in 0..self.held.len() {
            if passes(place) {
                sum += u64::from(self.held.indicator(place));
            }
        }
        sum
    }

    // The sum of the active indices' indicators.
    fn pending_sum(&self) -> u64
        ensures { result ≡ pending_in self.now.held.now }
    {
        self.indicator_sum(|place| self.held.state(place) == area::ACTIVE)
    }

    // The sum of the indicators of the old indices at a ceiling, which among eight axes are those among the job's (`axes_alike`).
    fn carried_sum(&self) -> u64
        ensures { result ≡ carried_in self.now.job.settings.axes self.now.held.now }
    {
        self.indicator_sum(|place| {
            self.held.state(place) == area::OLD && grid::at_ceiling(self.held.levels(place))
        })
    }

    // How many places are delivered.
    fn delivered_count(&self) -> usize
        ensures { result ≡ delivered_count self.now.held.now }
    {
        (0..self.held.len())
            .filter(|&place| self.held.state(place) != area::WANTED)
            .count()
    }

    // Whether the recorded errors are the sums over the held records, and the recorded mean is in range.
    fn numbers_fit(&self) -> bool
        ensures { result ≡ numbers_test self.now.job self.now.held.now }
    {
        self.pending_sum() == self.job.pending
            && self.carried_sum() == self.job.carried
            && mean_fits(self.delivered_count(), self.job.mean)
    }
}

// Whether the held records are sound.
fn held_fit(job: area::JobRecord, held: &area::IndexRecords, store: &[i32]) -> bool
    requires settings_fit { SettingsFit job.settings × (length held.now ≤ 512) }
    requires store_len { least_store job.settings ≤ length store.now }
    ensures { result ≡ held_test job held.now store.now }
{
    if !places_fit(job.settings.axes as usize, held) {
        return false;
    }
    let tested = Tested { job, held };
    tested.all_complete()
        && all_wanted_fit(held)
        && tested.blocks_fit(store)
        && tested.numbers_fit()
}

// Whether the area is sound and lies in storage that is long enough.
pub fn check(job: area::JobRecord, cells: &[u32], store: &[i32]) -> bool
    ensures { result ≡ checked (area_of job cells.now store.now) }
{
    if !job_fits(job, cells.len() / 27, store.len()) {
        return false;
    }
    let held = area::IndexRecords::first(cells, job.held as usize);
    held_fit(job, &held, store)
}
