#![tactic(auto)]
// The calls over words, which the crate wihupya_c exports for C and Rust: the proved functions, with nothing asked of what the storage holds. A job record is twelve words
// (specs/Words.antt). The length of cells counts words, 27 to a record; that of the store counts readings. A call but check returns 0
// if it was not refused, else the number of the cause. include/wihupya.h says it for C, and bindings/ for Rust.
ghost use Rattle.std.specs.Prelude.{◌≡◌, [], ◌∷◌, ℕ, ◌+◌, ◌*◌, ◌^◌, ◌<◌, cond, is_ok, IfOk, MatchResult};
ghost use Rattle.area.specs.Settings.{settings_of};
ghost use Rattle.area.specs.Encoding.{area_of};
ghost use Rattle.soundness.specs.Clauses.{checked};
ghost use Rattle.area.specs.Records.{run_of};
ghost use Rattle.doubles.specs.Exact.{NoneNan};
ghost use Rattle.counting.specs.Answer.{counts_in};
ghost use Rattle.machine.specs.Choose.{place};
ghost use Rattle.promotion.specs.Outcomes.{choice_of, outcome_of};
ghost use Rattle.calls.specs.Cause.{cause_of};
ghost use Rattle.calls.specs.Table.{start, point, points, deliver, choose, promote, result as result_call, doubles, cross_total};
ghost use Rattle.calls.specs.Calls.{call_on};
ghost use Rattle.wihupya.specs.Words.{job_of, low_word, high_word, words_of};
ghost use Rattle.wihupya.specs.Exports.{number_of, exported, choice_words, outcome_word, count_words, report_bits, total_words, answer_words};

// Two words as a 64-bit number, and its words again. A type for the pair, with From both ways, is no plainer: each pair stands among other words.
fn wide(low: u32, high: u32) -> u64
    ensures { result ≡ low + high * 2 ^ 32 }
{
    u64::from(low) + u64::from(high) * 4294967296
}

fn low_word(number: u64) -> u32
    ensures { result ≡ low_word number }
{
    (number % 4294967296) as u32
}

fn high_word(number: u64) -> u32
    ensures { result ≡ high_word number }
{
    (number / 4294967296) as u32
}

// A job record as twelve words.
#[derive(Clone, Copy)]
struct JobWords([u32; 12]);

// The words of the job record that is read are the words that it is read from, so that a refused call can leave them.
impl From<JobWords> for area::JobRecord {
    ghost from_gives = { λ words job. (job ≡ job_of words.0) × (words_of (job_of words.0) ≡ words.0) };

    fn from(job: JobWords) -> area::JobRecord {
        let words = job.0;
        area::JobRecord {
            settings: area::Settings {
                axes: words[6],
                threshold: wide(words[0], words[1]),
                budget: words[7],
            },
            held: words[8],
            reserved: words[9],
            pending: wide(words[2], words[3]),
            carried: wide(words[10], words[11]),
            mean: wide(words[4], words[5]).cast_signed(),
        }
    }
}

impl From<area::JobRecord> for JobWords {
    ghost from_gives = { λ job words. words.0 ≡ words_of job };

    fn from(job: area::JobRecord) -> JobWords {
        let mean = job.mean.cast_unsigned();
        JobWords([
            low_word(job.settings.threshold),
            high_word(job.settings.threshold),
            low_word(job.pending),
            high_word(job.pending),
            low_word(mean),
            high_word(mean),
            job.settings.axes,
            job.settings.budget,
            job.held,
            job.reserved,
            low_word(job.carried),
            high_word(job.carried),
        ])
    }
}

// The number of an answer: 0 if the call was not refused, else that of the cause.
fn number_of<T: Drop>(answered: Result<T, calls::Cause>) -> u32
    ensures { result ≡ cause_of answered }
{
    answered.err().map_or(0, u32::from)
}

// The number of an answer, whose words are written into those lent for it; a refusal leaves them.
fn put_answer<T, W: Drop, F: FnOnce(T) -> W>(
    answered: Result<T, calls::Cause>,
    words: F,
    lent: &mut W,
) -> u32
    requires { IfOk answered (λ found. F.pre words found) }
    ensures number { result ≡ cause_of answered }
    ensures words { MatchResult answered (λ found. F.post words found lent.new) (λ cause. lent.new ≡ lent.old) }
{
    match answered {
        Ok(found) => {
            *lent = words(found);
            0
        }
        Err(cause) => u32::from(cause),
    }
}

// The number of an answer, where the job record that the call left is written as words; a refusal leaves them.
// The call stands in each function that makes it: nothing is known afterwards of cells that a closure captures and changes.
fn put_job<T: Drop>(
    answered: Result<T, calls::Cause>,
    left: area::JobRecord,
    words: &mut [u32; 12],
) -> u32
    ensures number { result ≡ cause_of answered }
    ensures words { words.new ≡ cond (is_ok answered) (words_of left) words.old }
{
    if answered.is_ok() {
        let JobWords(changed) = left.into();
        *words = changed;
    }
    number_of(answered)
}

// What points wrote as two words. From is no plainer, here and in the functions below: each is used at one place, and the words would need a type of their own there.
fn wrote_words(found: delivery::PointCounts) -> [u32; 2]
    ensures { result ≡ found.written ∷ found.size ∷ [] }
{
    [found.written, found.size]
}

// A choice as two words: 0 met, 3 capped or 4 chosen, the numbers that the C interface has for it, and then the place that the rule selects, else 0.
fn choice_words(choice: promotion::Choice) -> [u32; 2]
    requires { (p : ℕ) → choice_of choice ≡ place p → p < 2 ^ 32 }
    ensures { result ≡ choice_words (choice_of choice) }
{
    match choice {
        promotion::Choice::Met => [0, 0],
        promotion::Choice::Capped => [3, 0],
        promotion::Choice::Place(place) => [4, place as u32],
    }
}

// The outcome of a promotion as a word: the number that the C interface has for it.
fn outcome_word(outcome: promotion::Outcome) -> u32
    ensures { result ≡ outcome_word (outcome_of outcome) }
{
    match outcome {
        promotion::Outcome::Spent => 1,
        promotion::Outcome::Promoted => 2,
    }
}

// Counts as eleven words.
fn count_words(counts: counting::Counts) -> [u32; 11]
    ensures { result ≡ count_words (counts_in counts) }
{
    let mean = counts.mean.cast_unsigned();
    [
        low_word(counts.pending),
        high_word(counts.pending),
        low_word(mean),
        high_word(mean),
        counts.old,
        counts.active,
        counts.wanted,
        counts.reserved,
        counts.ceiling,
        low_word(counts.carried),
        high_word(counts.carried),
    ]
}

// A report as three doubles, by their bits.
fn report_bits(found: doubles::Report) -> [u64; 3]
    requires { NoneNan found }
    ensures { result ≡ report_bits found }
{
    let mean = f64::to_bits(found.mean);
    let pending = f64::to_bits(found.pending);
    let largest = f64::to_bits(found.largest);
    [mean, pending, largest]
}

// A total as two words.
fn total_words(total: i64) -> [u32; 2]
    ensures { result ≡ total_words total }
{
    let bits = total.cast_unsigned();
    [low_word(bits), high_word(bits)]
}

// Whether the area is sound and lies in storage that is long enough.
pub fn wihupya_check(job: &[u32; 12], cells: &[u32], store: &[i32]) -> bool
    ensures { result ≡ checked (area_of (job_of job.now) cells.now store.now) }
{
    checking::check(JobWords(*job).into(), cells, store)
}

// Starts a job.
pub fn wihupya_start(
    job: &mut [u32; 12],
    axes: u32,
    threshold: u64,
    budget: u32,
    cells: &mut [u32],
    store: &[i32],
) -> u32
    ensures is { record { number = result; job = job.new; run = run_of cells.new; store = store.now } ≡ exported (call_on (area_of (job_of job.old) cells.old store.now) (start (settings_of axes threshold budget))) }
    ensures refused { (result ≡ 0 → ⊥) → job.new ≡ job.old }
{
    let settings = area::Settings {
        axes,
        threshold,
        budget,
    };
    let mut after = area::JobRecord::from(JobWords(*job));
    let started = calls::start(&mut after, settings, cells, store);
    put_job(started, after, job)
}

// Writes the positions of a point of the first wanted block.
pub fn wihupya_point(
    job: &[u32; 12],
    n: usize,
    cells: &[u32],
    store: &[i32],
    buffer: &mut [u8],
) -> u32
    ensures { (result ≡ number_of (call_on (area_of (job_of job.now) cells.now store.now) (point n buffer.old)).answer.reply) × (buffer.new ≡ (call_on (area_of (job_of job.now) cells.now store.now) (point n buffer.old)).answer.buffer) }
{
    number_of(calls::point(JobWords(*job).into(), n, cells, store, buffer))
}

// Writes points of the first wanted block from the n-th on, and how many they are and how many the block has.
pub fn wihupya_points(
    job: &[u32; 12],
    n: usize,
    counts: &mut [u32; 2],
    cells: &[u32],
    store: &[i32],
    buffer: &mut [u8],
) -> u32
    ensures { (result ≡ number_of (call_on (area_of (job_of job.now) cells.now store.now) (points n buffer.old)).answer.reply) × (counts.new ≡ answer_words (call_on (area_of (job_of job.now) cells.now store.now) (points n buffer.old)).answer.reply counts.old) × (buffer.new ≡ (call_on (area_of (job_of job.now) cells.now store.now) (points n buffer.old)).answer.buffer) }
{
    put_answer(
        calls::points(JobWords(*job).into(), n, cells, store, buffer),
        wrote_words,
        counts,
    )
}

// Delivers the first wanted block.
pub fn wihupya_deliver(
    job: &mut [u32; 12],
    readings: &[i32],
    indicator: u32,
    cells: &mut [u32],
    store: &mut [i32],
) -> u32
    ensures is { record { number = result; job = job.new; run = run_of cells.new; store = store.new } ≡ exported (call_on (area_of (job_of job.old) cells.old store.old) (deliver readings.now indicator)) }
    ensures refused { (result ≡ 0 → ⊥) → job.new ≡ job.old }
{
    let mut after = area::JobRecord::from(JobWords(*job));
    let delivered = calls::deliver(&mut after, readings, indicator, cells, store);
    put_job(delivered, after, job)
}

// Chooses, and writes 0 met, 3 capped or 4 chosen, and then the place that the rule selects, else 0.
pub fn wihupya_choose(job: &[u32; 12], choice: &mut [u32; 2], cells: &[u32], store: &[i32]) -> u32
    ensures { (result ≡ number_of (call_on (area_of (job_of job.now) cells.now store.now) choose).answer.reply) × (choice.new ≡ answer_words (call_on (area_of (job_of job.now) cells.now store.now) choose).answer.reply choice.old) }
{
    put_answer(
        calls::choose(JobWords(*job).into(), cells, store),
        choice_words,
        choice,
    )
}

// Promotes the active index at a place, and writes the outcome: 1 spent, 2 promoted.
pub fn wihupya_promote(
    job: &mut [u32; 12],
    place: usize,
    outcome: &mut [u32; 1],
    cells: &mut [u32],
    store: &[i32],
) -> u32
    ensures is { record { number = result; job = job.new; run = run_of cells.new; store = store.now } ≡ exported (call_on (area_of (job_of job.old) cells.old store.now) (promote place)) }
    ensures outcome { outcome.new ≡ answer_words (call_on (area_of (job_of job.old) cells.old store.now) (promote place)).answer.reply outcome.old }
    ensures refused { (result ≡ 0 → ⊥) → job.new ≡ job.old }
{
    let mut after = area::JobRecord::from(JobWords(*job));
    let promoted = calls::promote(&mut after, place, cells, store);
    if let Ok(found) = promoted {
        *outcome = [outcome_word(found)];
    }
    put_job(promoted, after, job)
}

// The counts of the area.
pub fn wihupya_result(job: &[u32; 12], counts: &mut [u32; 11], cells: &[u32], store: &[i32]) -> u32
    ensures { (result ≡ number_of (call_on (area_of (job_of job.now) cells.now store.now) result_call).answer.reply) × (counts.new ≡ answer_words (call_on (area_of (job_of job.now) cells.now store.now) result_call).answer.reply counts.old) }
{
    put_answer(
        calls::result(JobWords(*job).into(), cells, store),
        count_words,
        counts,
    )
}

// The mean, the pending error and the largest delivered difference as doubles. The caller lends three doubles; here they are their bits, since
// a NaN that was lent has bits of its own, which a refusal leaves.
pub fn wihupya_doubles(job: &[u32; 12], report: &mut [u64; 3], cells: &[u32], store: &[i32]) -> u32
    ensures { (result ≡ number_of (call_on (area_of (job_of job.now) cells.now store.now) doubles).answer.reply) × (report.new ≡ answer_words (call_on (area_of (job_of job.now) cells.now store.now) doubles).answer.reply report.old) }
{
    put_answer(
        calls::doubles(JobWords(*job).into(), cells, store),
        report_bits,
        report,
    )
}

// The scaled mean worked out from the readings.
pub fn wihupya_cross_total(
    job: &[u32; 12],
    total: &mut [u32; 2],
    cells: &[u32],
    store: &[i32],
) -> u32
    ensures { (result ≡ number_of (call_on (area_of (job_of job.now) cells.now store.now) cross_total).answer.reply) × (total.new ≡ answer_words (call_on (area_of (job_of job.now) cells.now store.now) cross_total).answer.reply total.old) }
{
    put_answer(
        calls::cross_total(JobWords(*job).into(), cells, store),
        total_words,
        total,
    )
}
