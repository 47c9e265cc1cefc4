#![tactic(auto)]
// The calls over a lent run of index record structs. Each but start makes the call on the records as cells; start reads none. One that changed the
// area stores the records then held, start record 0 alone; a refused call stores none. A job holds at most 512 records, so no more are made
// cells; a call never looks at the others or changes them.
ghost use Rattle.std.specs.Prelude.{◌≡◌, cond, is_ok};
ghost use Rattle.soundness.specs.Clauses.{checked};
ghost use Rattle.calls.specs.Replies.{reply_of, reply_of_points, reply_of_choose, reply_of_promote, reply_of_result, reply_of_doubles, reply_of_total};
ghost use Rattle.calls.specs.Table.{start, point, points, deliver, choose, promote, result as result_call, doubles, cross_total, answer};
ghost use Rattle.calls.specs.Calls.{call_on};
ghost use Rattle.records.specs.Lent.{area_on, call_result_on};

// Each call that reads makes the records cells and calls: one function that takes the call as a closure would save one of its two lines.
mod flat;

pub use flat::Flat;

// How many records start stores back: those that are then held, and none where it is refused. (A function of its own, and no `?`: an edit changes the number of a refusal.)
fn to_store(started: Result<(), calls::Cause>, held: u32) -> usize
    ensures { result ≡ cond (is_ok started) held 0 }
{
    if started.is_ok() { held as usize } else { 0 }
}

// Starts a job in the place of the old one.
pub fn start(
    job: &mut area::JobRecord,
    settings: area::Settings,
    records: &mut [area::IndexRecord],
    store: &[i32],
) -> Result<(), calls::Cause>
    ensures { call_result_on (reply_of result) job.new records.new store.now ≡ call_on (area_on job.old records.old store.now) (start settings) }
{
    let Flat { count, mut words } = Flat::room(records.len());
    let cells = &mut words[..count * 27];
    let started = calls::start(job, settings, cells, store);
    let kept = to_store(started, job.held);
    Flat { count, words }.store_back(kept, records);
    started
}

// Writes the positions of the n-th point of the first wanted block into the buffer, later bytes untouched.
pub fn point(
    job: area::JobRecord,
    n: usize,
    records: &[area::IndexRecord],
    store: &[i32],
    buffer: &mut [u8],
) -> Result<(), calls::Cause>
    ensures { record { reply = reply_of result; buffer = buffer.new } ≡ (call_on (area_on job records.now store.now) (point n buffer.old)).answer }
{
    let flat = Flat::of(records);
    calls::point(job, n, flat.cells(), store, buffer)
}

// Writes points of the first wanted block from the n-th on, as many as are left and fit in the buffer, later bytes untouched.
pub fn points(
    job: area::JobRecord,
    n: usize,
    records: &[area::IndexRecord],
    store: &[i32],
    buffer: &mut [u8],
) -> Result<delivery::PointCounts, calls::Cause>
    ensures { record { reply = reply_of_points result; buffer = buffer.new } ≡ (call_on (area_on job records.now store.now) (points n buffer.old)).answer }
{
    let flat = Flat::of(records);
    calls::points(job, n, flat.cells(), store, buffer)
}

// Delivers the first wanted block.
pub fn deliver(
    job: &mut area::JobRecord,
    readings: &[i32],
    indicator: u32,
    records: &mut [area::IndexRecord],
    store: &mut [i32],
) -> Result<(), calls::Cause>
    ensures { call_result_on (reply_of result) job.new records.new store.new ≡ call_on (area_on job.old records.old store.old) (deliver readings.now indicator) }
{
    let Flat { count, mut words } = Flat::of(records);
    let cells = &mut words[..count * 27];
    calls::deliver(job, readings, indicator, cells, store)?;
    Flat { count, words }.store_back(job.held as usize, records);
    Ok(())
}

// Chooses: met, capped or the place that the rule selects.
pub fn choose(
    job: area::JobRecord,
    records: &[area::IndexRecord],
    store: &[i32],
) -> Result<promotion::Choice, calls::Cause>
    ensures { answer (reply_of_choose result) ≡ (call_on (area_on job records.now store.now) choose).answer }
{
    let flat = Flat::of(records);
    calls::choose(job, flat.cells(), store)
}

// Promotes: the active index at the place is refined, unless that is spent.
pub fn promote(
    job: &mut area::JobRecord,
    place: usize,
    records: &mut [area::IndexRecord],
    store: &[i32],
) -> Result<promotion::Outcome, calls::Cause>
    ensures { call_result_on (reply_of_promote result) job.new records.new store.now ≡ call_on (area_on job.old records.old store.now) (promote place) }
{
    let Flat { count, mut words } = Flat::of(records);
    let cells = &mut words[..count * 27];
    let outcome = calls::promote(job, place, cells, store)?;
    if outcome == promotion::Outcome::Promoted {
        Flat { count, words }.store_back(job.held as usize, records);
    }
    Ok(outcome)
}

// The counts of the area.
pub fn result(
    job: area::JobRecord,
    records: &[area::IndexRecord],
    store: &[i32],
) -> Result<counting::Counts, calls::Cause>
    ensures { answer (reply_of_result result) ≡ (call_on (area_on job records.now store.now) result_call).answer }
{
    let flat = Flat::of(records);
    calls::result(job, flat.cells(), store)
}

// The report of doubles of the area.
pub fn doubles(
    job: area::JobRecord,
    records: &[area::IndexRecord],
    store: &[i32],
) -> Result<doubles::Report, calls::Cause>
    ensures { answer (reply_of_doubles result) ≡ (call_on (area_on job records.now store.now) doubles).answer }
{
    let flat = Flat::of(records);
    calls::doubles(job, flat.cells(), store)
}

// The scaled mean worked out from the readings, whatever mean is recorded.
pub fn cross_total(
    job: area::JobRecord,
    records: &[area::IndexRecord],
    store: &[i32],
) -> Result<i64, calls::Cause>
    ensures { answer (reply_of_total result) ≡ (call_on (area_on job records.now store.now) cross_total).answer }
{
    let flat = Flat::of(records);
    calls::cross_total(job, flat.cells(), store)
}

// Whether the area is sound and lies in storage that is long enough.
pub fn check(job: area::JobRecord, records: &[area::IndexRecord], store: &[i32]) -> bool
    ensures { result ≡ checked (area_on job records.now store.now) }
{
    let flat = Flat::of(records);
    checking::check(job, flat.cells(), store)
}
