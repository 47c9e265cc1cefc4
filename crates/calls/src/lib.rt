#![tactic(auto)]
// The calls start, point, points, deliver, choose, promote, result, doubles and cross total. Each first looks for a cause to refuse; a refused
// call changes nothing.
// The job record, the cells and the store are three parameters, here and in the crates below: deliver changes all three, promote two, the others none, so
// that an area, or an area known to be valid, would be three types, and `ValidArea` a field of each. The calls that only look differ in the cause and the function,
// and are three lines each.
ghost use Rattle.std.specs.Prelude.{◌≡◌, IfOk};
ghost use Rattle.area.specs.Encoding.{area_of, entries_of};
ghost use Rattle.machine.specs.Log.{first_wanted};
ghost use Rattle.machine.specs.Causes.{first_cause, in_range, start_causes};
ghost use Rattle.calls.specs.Cause.{cause_of};
ghost use Rattle.calls.specs.Replies.{reply_of, reply_of_points, reply_of_choose, reply_of_promote, reply_of_result, reply_of_doubles, reply_of_total};
ghost use Rattle.calls.specs.Table.{start, point, points, deliver, choose, promote, result as result_call, doubles, cross_total, answer};
ghost use Rattle.calls.specs.Calls.{call_on, call_result_of, point_cause, deliver_cause, choose_cause, promote_cause, area_cause};

mod cause;

pub use cause::Cause;

// Whether all are readings.
fn in_range(readings: &[i32]) -> bool
    ensures { result ≡ in_range readings.now }
{
    checking::readings_fit(0, readings.len(), readings)
}

// Whether start is refused, in lent storage of so many records and readings, and why.
pub fn start_cause(settings: area::Settings, records: usize, readings: usize) -> Result<(), Cause>
    ensures { cause_of result ≡ first_cause (start_causes (record { records = records; readings = readings }) settings) }
{
    // `checking::settings_fit` asks axes and budget at once; here each has its cause. So with the lengths of what is lent, here, below and in the check.
    let axes_fit = (1..=8).contains(&settings.axes);
    if !axes_fit {
        return Err(Cause::AxesOutOfRange);
    }
    let budget_fits = (1..=8192).contains(&settings.budget);
    if !budget_fits {
        return Err(Cause::BudgetOutOfRange);
    }
    if records < 512 || readings < area::least_store(settings) {
        return Err(Cause::StorageTooShort);
    }
    Ok(())
}

// Whether the storage or the area refuses a call other than start and check.
fn area_cause(job: area::JobRecord, cells: &[u32], store: &[i32]) -> Result<(), Cause>
    ensures { cause_of result ≡ area_cause (area_of job cells.now store.now) }
{
    let few_records = cells.len() / 27 < 512;
    if few_records || store.len() < area::least_store(job.settings) {
        return Err(Cause::StorageTooShort);
    }
    if !checking::check(job, cells, store) {
        return Err(Cause::AreaNotSound);
    }
    Ok(())
}

// The place of the first wanted block, or why point and points are refused.
fn point_cause(
    job: area::JobRecord,
    n: usize,
    room: usize,
    cells: &[u32],
    store: &[i32],
) -> Result<usize, Cause>
    ensures cause { cause_of result ≡ point_cause (area_of job cells.now store.now) n room }
    ensures place { IfOk result (λ p. p ≡ first_wanted (entries_of (area_of job cells.now store.now))) }
{
    let axes = job.settings.axes as usize;
    if room < axes {
        return Err(Cause::StorageTooShort);
    }
    area_cause(job, cells, store)?;
    let held = area::IndexRecords::first(cells, job.held as usize);
    let Some(place) = delivery::first_wanted(&held) else {
        return Err(Cause::NothingWanted);
    };
    let size = grid::block_size(held.levels(place));
    if size <= n {
        return Err(Cause::PointPastBlock);
    }
    Ok(place)
}

// The place of the first wanted block, or why deliver is refused.
fn deliver_cause(
    job: area::JobRecord,
    readings: &[i32],
    cells: &[u32],
    store: &[i32],
) -> Result<usize, Cause>
    ensures cause { cause_of result ≡ deliver_cause (area_of job cells.now store.now) readings.now }
    ensures place { IfOk result (λ p. p ≡ first_wanted (entries_of (area_of job cells.now store.now))) }
{
    area_cause(job, cells, store)?;
    let held = area::IndexRecords::first(cells, job.held as usize);
    let Some(place) = delivery::first_wanted(&held) else {
        return Err(Cause::NothingWanted);
    };
    let count = area::reading_count(job.settings, held.levels(place));
    let miscounted = readings.len() != count;
    if miscounted {
        return Err(Cause::ReadingsMiscounted);
    }
    if !in_range(readings) {
        return Err(Cause::ReadingOutOfRange);
    }
    Ok(place)
}

// Whether choose is refused.
fn choose_cause(job: area::JobRecord, cells: &[u32], store: &[i32]) -> Result<(), Cause>
    ensures { cause_of result ≡ choose_cause (area_of job cells.now store.now) }
{
    area_cause(job, cells, store)?;
    let held = area::IndexRecords::first(cells, job.held as usize);
    // Compared as a place, the number of the held where none is wanted, and no `is_some`: an edit changes what it is compared with.
    let count = held.len();
    let place = delivery::first_wanted(&held).unwrap_or(count);
    let is_wanted = place < count;
    if is_wanted {
        return Err(Cause::BlockWanted);
    }
    Ok(())
}

// Whether promote is refused: as choose is, and then if the place is not that of an active index.
fn promote_cause(
    job: area::JobRecord,
    place: usize,
    cells: &[u32],
    store: &[i32],
) -> Result<(), Cause>
    ensures { cause_of result ≡ promote_cause (area_of job cells.now store.now) place }
{
    choose_cause(job, cells, store)?;
    let held = area::IndexRecords::first(cells, job.held as usize);
    if held.len() <= place || held.state(place) != area::ACTIVE {
        return Err(Cause::PlaceNotActive);
    }
    Ok(())
}

// Starts a job in the place of the old one.
pub fn start(
    job: &mut area::JobRecord,
    settings: area::Settings,
    cells: &mut [u32],
    store: &[i32],
) -> Result<(), Cause>
    ensures { call_result_of (reply_of result) job.new cells.new store.now ≡ call_on (area_of job.old cells.old store.now) (start settings) }
{
    start_cause(settings, cells.len() / 27, store.len())?;
    *job = delivery::start(settings, cells);
    Ok(())
}

// Writes the positions of the n-th point of the first wanted block into the buffer, later bytes untouched.
pub fn point(
    job: area::JobRecord,
    n: usize,
    cells: &[u32],
    store: &[i32],
    buffer: &mut [u8],
) -> Result<(), Cause>
    ensures { record { reply = reply_of result; buffer = buffer.new } ≡ (call_on (area_of job cells.now store.now) (point n buffer.old)).answer }
{
    let place = point_cause(job, n, buffer.len(), cells, store)?;
    let axes = job.settings.axes as usize;
    let held = area::IndexRecords::first(cells, job.held as usize);
    delivery::point(axes, place, n, &held, buffer);
    Ok(())
}

// Writes points of the first wanted block from the n-th on, as many as are left and fit in the buffer, later bytes untouched.
pub fn points(
    job: area::JobRecord,
    n: usize,
    cells: &[u32],
    store: &[i32],
    buffer: &mut [u8],
) -> Result<delivery::PointCounts, Cause>
    ensures { record { reply = reply_of_points result; buffer = buffer.new } ≡ (call_on (area_of job cells.now store.now) (points n buffer.old)).answer }
{
    let place = point_cause(job, n, buffer.len(), cells, store)?;
    let axes = job.settings.axes as usize;
    let held = area::IndexRecords::first(cells, job.held as usize);
    Ok(delivery::points(axes, place, n, &held, buffer))
}

// Delivers the first wanted block.
pub fn deliver(
    job: &mut area::JobRecord,
    readings: &[i32],
    indicator: u32,
    cells: &mut [u32],
    store: &mut [i32],
) -> Result<(), Cause>
    ensures { call_result_of (reply_of result) job.new cells.new store.new ≡ call_on (area_of job.old cells.old store.old) (deliver readings.now indicator) }
{
    let place = deliver_cause(*job, readings, cells, store)?;
    *job = delivery::deliver(*job, place, readings, indicator, cells, store);
    Ok(())
}

// Chooses: met, capped or the place that the rule selects.
pub fn choose(
    job: area::JobRecord,
    cells: &[u32],
    store: &[i32],
) -> Result<promotion::Choice, Cause>
    ensures { answer (reply_of_choose result) ≡ (call_on (area_of job cells.now store.now) choose).answer }
{
    choose_cause(job, cells, store)?;
    Ok(promotion::choose(job, cells, store))
}

// Promotes: the active index at the place is refined, unless that is spent.
pub fn promote(
    job: &mut area::JobRecord,
    place: usize,
    cells: &mut [u32],
    store: &[i32],
) -> Result<promotion::Outcome, Cause>
    ensures { call_result_of (reply_of_promote result) job.new cells.new store.now ≡ call_on (area_of job.old cells.old store.now) (promote place) }
{
    promote_cause(*job, place, cells, store)?;
    let budget = job.settings.budget;
    Ok(promotion::refine(job, place, budget, cells, store))
}

// The counts of the area.
pub fn result(job: area::JobRecord, cells: &[u32], store: &[i32]) -> Result<counting::Counts, Cause>
    ensures { answer (reply_of_result result) ≡ (call_on (area_of job cells.now store.now) result_call).answer }
{
    area_cause(job, cells, store)?;
    Ok(counting::result(job, cells, store))
}

// The report of doubles of the area.
pub fn doubles(job: area::JobRecord, cells: &[u32], store: &[i32]) -> Result<doubles::Report, Cause>
    ensures { answer (reply_of_doubles result) ≡ (call_on (area_of job cells.now store.now) doubles).answer }
{
    area_cause(job, cells, store)?;
    Ok(counting::doubles(job, cells, store))
}

// The scaled mean worked out from the readings, whatever mean is recorded.
pub fn cross_total(job: area::JobRecord, cells: &[u32], store: &[i32]) -> Result<i64, Cause>
    ensures { answer (reply_of_total result) ≡ (call_on (area_of job cells.now store.now) cross_total).answer }
{
    area_cause(job, cells, store)?;
    Ok(counting::cross_total(job, cells, store))
}
