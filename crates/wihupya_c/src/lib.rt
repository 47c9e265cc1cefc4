#![tactic(auto)]
// The calls for C: each export calls the library's function of its name and states its clauses again. include/wihupya.h says what they do, and
// Rust calls them by bindings/.
ghost use Rattle.std.specs.Prelude.{◌≡◌};
ghost use Rattle.area.specs.Settings.{settings_of};
ghost use Rattle.area.specs.Encoding.{area_of};
ghost use Rattle.soundness.specs.Clauses.{checked};
ghost use Rattle.area.specs.Records.{run_of};
ghost use Rattle.calls.specs.Table.{start, point, points, deliver, choose, promote, result as result_call, doubles, cross_total};
ghost use Rattle.calls.specs.Calls.{call_on};
ghost use Rattle.wihupya.specs.Words.{job_of};
ghost use Rattle.wihupya.specs.Exports.{number_of, exported, answer_words};

// Whether the area is sound and lies in storage that is long enough.
#[unsafe(no_mangle)]
pub extern "C" fn wihupya_check(job: &[u32; 12], cells: &[u32], store: &[i32]) -> bool
    ensures { result ≡ checked (area_of (job_of job.now) cells.now store.now) }
{
    wihupya::wihupya_check(job, cells, store)
}

// Starts a job.
#[unsafe(no_mangle)]
pub extern "C" fn wihupya_start(
    job: &mut [u32; 12],
    axes: u32,
    threshold: u64,
    budget: u32,
    cells: &mut [u32],
    store: &[i32],
) -> u32
    ensures is { record { number = result; job = job.new; run = run_of cells.new; store = store.now } ≡ exported (call_on (area_of (job_of job.old) cells.old store.now) (start (settings_of axes threshold budget))) }
    ensures refused { (result ≡ 0 → ⊥) → job.new ≡ job.old }
{
    wihupya::wihupya_start(job, axes, threshold, budget, cells, store)
}

// Writes the positions of a point of the first wanted block.
#[unsafe(no_mangle)]
pub extern "C" fn wihupya_point(
    job: &[u32; 12],
    n: usize,
    cells: &[u32],
    store: &[i32],
    buffer: &mut [u8],
) -> u32
    ensures { (result ≡ number_of (call_on (area_of (job_of job.now) cells.now store.now) (point n buffer.old)).answer.reply) × (buffer.new ≡ (call_on (area_of (job_of job.now) cells.now store.now) (point n buffer.old)).answer.buffer) }
{
    wihupya::wihupya_point(job, n, cells, store, buffer)
}

// Writes points of the first wanted block from the n-th on, and how many they are and how many the block has.
#[unsafe(no_mangle)]
pub extern "C" fn wihupya_points(
    job: &[u32; 12],
    n: usize,
    counts: &mut [u32; 2],
    cells: &[u32],
    store: &[i32],
    buffer: &mut [u8],
) -> u32
    ensures { (result ≡ number_of (call_on (area_of (job_of job.now) cells.now store.now) (points n buffer.old)).answer.reply) × (counts.new ≡ answer_words (call_on (area_of (job_of job.now) cells.now store.now) (points n buffer.old)).answer.reply counts.old) × (buffer.new ≡ (call_on (area_of (job_of job.now) cells.now store.now) (points n buffer.old)).answer.buffer) }
{
    wihupya::wihupya_points(job, n, counts, cells, store, buffer)
}

// Delivers the first wanted block.
#[unsafe(no_mangle)]
pub extern "C" fn wihupya_deliver(
    job: &mut [u32; 12],
    readings: &[i32],
    indicator: u32,
    cells: &mut [u32],
    store: &mut [i32],
) -> u32
    ensures is { record { number = result; job = job.new; run = run_of cells.new; store = store.new } ≡ exported (call_on (area_of (job_of job.old) cells.old store.old) (deliver readings.now indicator)) }
    ensures refused { (result ≡ 0 → ⊥) → job.new ≡ job.old }
{
    wihupya::wihupya_deliver(job, readings, indicator, cells, store)
}

// Chooses, and writes 0 met, 3 capped or 4 chosen, and then the place that the rule selects, else 0.
#[unsafe(no_mangle)]
pub extern "C" fn wihupya_choose(
    job: &[u32; 12],
    choice: &mut [u32; 2],
    cells: &[u32],
    store: &[i32],
) -> u32
    ensures { (result ≡ number_of (call_on (area_of (job_of job.now) cells.now store.now) choose).answer.reply) × (choice.new ≡ answer_words (call_on (area_of (job_of job.now) cells.now store.now) choose).answer.reply choice.old) }
{
    wihupya::wihupya_choose(job, choice, cells, store)
}

// Promotes the active index at a place, and writes the outcome: 1 spent, 2 promoted.
#[unsafe(no_mangle)]
pub extern "C" fn wihupya_promote(
    job: &mut [u32; 12],
    place: usize,
    outcome: &mut [u32; 1],
    cells: &mut [u32],
    store: &[i32],
) -> u32
    ensures is { record { number = result; job = job.new; run = run_of cells.new; store = store.now } ≡ exported (call_on (area_of (job_of job.old) cells.old store.now) (promote place)) }
    ensures outcome { outcome.new ≡ answer_words (call_on (area_of (job_of job.old) cells.old store.now) (promote place)).answer.reply outcome.old }
    ensures refused { (result ≡ 0 → ⊥) → job.new ≡ job.old }
{
    wihupya::wihupya_promote(job, place, outcome, cells, store)
}

// The counts of the area.
#[unsafe(no_mangle)]
pub extern "C" fn wihupya_result(
    job: &[u32; 12],
    counts: &mut [u32; 11],
    cells: &[u32],
    store: &[i32],
) -> u32
    ensures { (result ≡ number_of (call_on (area_of (job_of job.now) cells.now store.now) result_call).answer.reply) × (counts.new ≡ answer_words (call_on (area_of (job_of job.now) cells.now store.now) result_call).answer.reply counts.old) }
{
    wihupya::wihupya_result(job, counts, cells, store)
}

// The mean, the pending error and the largest delivered difference as doubles. The caller lends three doubles; here they are their bits, since
// a NaN that was lent has bits of its own, which a refusal leaves.
#[unsafe(no_mangle)]
pub extern "C" fn wihupya_doubles(
    job: &[u32; 12],
    report: &mut [u64; 3],
    cells: &[u32],
    store: &[i32],
) -> u32
    ensures { (result ≡ number_of (call_on (area_of (job_of job.now) cells.now store.now) doubles).answer.reply) × (report.new ≡ answer_words (call_on (area_of (job_of job.now) cells.now store.now) doubles).answer.reply report.old) }
{
    wihupya::wihupya_doubles(job, report, cells, store)
}

// The scaled mean worked out from the readings.
#[unsafe(no_mangle)]
pub extern "C" fn wihupya_cross_total(
    job: &[u32; 12],
    total: &mut [u32; 2],
    cells: &[u32],
    store: &[i32],
) -> u32
    ensures { (result ≡ number_of (call_on (area_of (job_of job.now) cells.now store.now) cross_total).answer.reply) × (total.new ≡ answer_words (call_on (area_of (job_of job.now) cells.now store.now) cross_total).answer.reply total.old) }
{
    wihupya::wihupya_cross_total(job, total, cells, store)
}
