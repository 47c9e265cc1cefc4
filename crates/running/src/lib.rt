#![tactic(auto)]
// A job file's run, from bytes to report.
ghost use Rattle.std.specs.Prelude.{◌≡◌, List, not, ℕ, suc, ◌+◌, ◌-◌, ◌*◌, ◌<◌, ◌≤◌, leb, nat_abs, length, position, Ok, Err, OnOk};
ghost use Rattle.area.specs.Encoding.{area_of, entries_of, machine_of};
ghost use Rattle.machine.specs.Log.{first_wanted};
ghost use Rattle.machine.specs.Choose.{choose};
ghost use Rattle.machine.specs.Causes.{first_cause, start_causes};
ghost use Rattle.machine.specs.Steps.{started, deliver, promote_step};
ghost use Rattle.writing.specs.ValidArea.{ValidArea};
ghost use Rattle.promotion.specs.Outcomes.{choice_of};
ghost use Rattle.calls.specs.Cause.{number_of_cause};
ghost use Rattle.jobfile.specs.Form.{formed, broken, form_of, form_in, entry_count};
ghost use Rattle.jobfile.specs.File.{readings_at, entry_of};
ghost use Rattle.jobfile.specs.Facts.{FormedFile};
ghost use Rattle.running.specs.Execution.{own_lengths, file_settings, start_cause, start_byte, unless_refused, by_choice, execution as execution_of};
ghost use Rattle.reporting.specs.Code.{ending_in, report_values_in};
ghost use Rattle.running.specs.Report.{report_values_of, text_of};
ghost use Rattle.running.specs.Code.{number_of, state_of, ValidExecution, after_delivery, after_step, LeftAtEnd, CountedOn, text_for, answer_in, run_on};

// The buffer is too short for a report. This is no cause of the table, and has no number.
#[derive(Clone, Copy, PartialEq, Eq)]
pub struct TooShort;

// Why a file is refused: a rule of form is broken in one of its parts, or a call refuses. A fault of form has its byte inside the case, where the definition of the
// form has it; here the cause stands alone, as a refusal's line says it.
#[derive(Clone, Copy)]
enum RefusalCause {
    Header,
    Entry,
    Readings,
    Call(calls::Cause),
}

impl From<RefusalCause> for u32 {
    ghost from_gives = { λ cause number. number ≡ number_of cause };

    fn from(cause: RefusalCause) -> u32 {
        match cause {
            RefusalCause::Header => 10,
            RefusalCause::Entry => 12,
            RefusalCause::Readings => 13,
            RefusalCause::Call(cause) => u32::from(cause),
        }
    }
}

// A refusal: its cause, and the byte that it names.
#[derive(Clone, Copy)]
struct Refusal {
    cause: RefusalCause,
    byte: usize,
}

impl From<jobfile::FormError> for Refusal {
    ghost from_gives = { λ error refusal. form_in (Err error) ≡ broken (record { number = number_of refusal.cause; byte = refusal.byte }) };

    fn from(error: jobfile::FormError) -> Refusal {
        match error {
            jobfile::FormError::Header(byte) => Refusal {
                cause: RefusalCause::Header,
                byte,
            },
            jobfile::FormError::Entry(byte) => Refusal {
                cause: RefusalCause::Entry,
                byte,
            },
            jobfile::FormError::Readings(byte) => Refusal {
                cause: RefusalCause::Readings,
                byte,
            },
        }
    }
}

// Reads readings from the file's bytes into a block, which they fill.
fn read_block(bytes: &[u8], from: usize, block: &mut [i32])
    requires { from + 4 * length block.old ≤ length bytes.now }
    ensures { block.new ≡ readings_at bytes.now (length block.old) from }
{
    for (n, reading) in block.iter_mut().enumerate() {
        *reading = jobfile::signed_at(bytes, from + 4 * n);
    }
}

// Which reading is the first that is out of range.
fn first_out_of_range(readings: &[i32]) -> Option<usize>
    ensures { result ≡ position (λ x. not (leb (nat_abs x) 1048576)) readings.now }
{
    readings
        .iter()
        .position(|reading| !checking::is_reading(*reading))
}

// A run under way: the file's bytes and the number of its entries, how many of them are delivered, and the area, with a block through which
// readings go. 512 records, and 8,192 readings for the store and for a block. What holds of it (`ValidExecution`) is a clause of its methods and no ghost
// field: of a run that was refused it is not said. The arrays are those of the program, which has no heap.
#[derive(Drop)]
struct Execution<'a> {
    bytes: &'a [u8],
    entries: usize,
    used: usize,
    job: area::JobRecord,
    cells: [u32; 13824],
    store: [i32; 8192],
    block: [i32; 8192],
}

impl<'a> Execution<'a> {
    // Starts the job, in an area of its own.
    fn start(settings: area::Settings, bytes: &'a [u8]) -> Execution<'a>
        requires { FormedFile bytes.now × (first_cause (start_causes own_lengths settings) ≡ 0) }
        ensures is { (state_of result ≡ started settings) × (result.used ≡ 0) }
        ensures valid { ValidExecution bytes.now result }
    {
        let mut cells = [0u32; 13824];
        let job = delivery::start(settings, &mut cells);
        Execution {
            bytes,
            entries: jobfile::four_at(bytes, 16) as usize,
            used: 0,
            job,
            cells,
            store: [0i32; 8192],
            block: [0i32; 8192],
        }
    }

    // Delivers the next entry as the first wanted block, which is that at `place`.
    fn deliver_entry(&mut self, place: usize) -> Result<(), Refusal>
        requires { ValidExecution self.old.bytes.now self.old × (place ≡ first_wanted (entries_of (area_of self.old.job self.old.cells self.old.store))) × (place < self.old.job.held) × (self.old.used < self.old.entries) }
        ensures is { (n : ℕ) → unless_refused self.old.bytes.now (state_of self.old) self.old.used (execution_of self.old.bytes.now n (deliver (state_of self.old) (entry_of self.old.bytes.now self.old.used).readings (entry_of self.old.bytes.now self.old.used).indicator) (self.old.used + 1)) ≡ after_delivery self.old.bytes.now n self.new result }
        ensures valid { OnOk result (ValidExecution self.old.bytes.now self.new) }
        ensures used { OnOk result (self.new.used ≡ self.old.used + 1) }
    {
        let bytes = self.bytes;
        let job = self.job;
        let at = 24 + 12 * self.used;
        let cells = &mut self.cells[..];
        let store = &mut self.store[..];
        let block = &mut self.block[..];
        let indicator = jobfile::four_at(bytes, at);
        let count = jobfile::four_at(bytes, at + 4) as usize;
        let from = jobfile::four_at(bytes, at + 8) as usize;
        let held = area::IndexRecords::first(cells, job.held as usize);
        let size = area::reading_count(job.settings, held.levels(place));
        if count != size {
            return Err(Refusal {
                cause: RefusalCause::Call(calls::Cause::ReadingsMiscounted),
                byte: at + 4,
            });
        }
        let readings = &mut block[..count];
        read_block(bytes, from, readings);
        if let Some(bad) = first_out_of_range(readings) {
            return Err(Refusal {
                cause: RefusalCause::Call(calls::Cause::ReadingOutOfRange),
                byte: from + 4 * bad,
            });
        }
        self.job = delivery::deliver(job, place, readings, indicator, cells, store);
        self.used += 1;
        Ok(())
    }

    // Chooses, and promotes the place that is chosen; met, capped and spent end the run.
    fn promote(&mut self) -> Option<reporting::Ending>
        requires { ValidExecution self.old.bytes.now self.old × (length (entries_of (area_of self.old.job self.old.cells self.old.store)) ≤ first_wanted (entries_of (area_of self.old.job self.old.cells self.old.store))) }
        ensures is { (n : ℕ) → by_choice (choose (state_of self.old).log) (state_of self.old) self.old.used (λ p. execution_of self.old.bytes.now n (promote_step (state_of self.old) p) self.old.used) ≡ after_step self.old.bytes.now n self.new (Ok result) }
        ensures valid { ValidExecution self.old.bytes.now self.new }
        ensures left { LeftAtEnd self.old self.new (Ok result) }
        ensures used { CountedOn self.old self.new (Ok result) }
    {
        let budget = self.job.settings.budget;
        let job = &mut self.job;
        let cells = &mut self.cells[..];
        let store = &self.store[..];
        match promotion::choose(*job, cells, store) {
            promotion::Choice::Met => Some(reporting::Ending::Met),
            promotion::Choice::Capped => Some(reporting::Ending::Capped),
            promotion::Choice::Place(place) => {
                match promotion::refine(job, place, budget, cells, store) {
                    promotion::Outcome::Spent => Some(reporting::Ending::Spent),
                    promotion::Outcome::Promoted => None,
                }
            }
        }
    }

    // One step: the next entry is delivered while a block is wanted, else it chooses, and promotes the place that is chosen.
    fn step(&mut self) -> Result<Option<reporting::Ending>, Refusal>
        requires { ValidExecution self.old.bytes.now self.old }
        ensures is { (n : ℕ) → execution_of self.old.bytes.now (suc n) (state_of self.old) self.old.used ≡ after_step self.old.bytes.now n self.new result }
        ensures valid { OnOk result (ValidExecution self.old.bytes.now self.new) }
        ensures left { LeftAtEnd self.old self.new result }
        ensures used { CountedOn self.old self.new result }
    {
        let held = area::IndexRecords::first(&self.cells, self.job.held as usize);
        if let Some(place) = delivery::first_wanted(&held) {
            if self.entries <= self.used {
                return Ok(Some(reporting::Ending::Short));
            }
            self.deliver_entry(place)?;
            return Ok(None);
        }
        Ok(self.promote())
    }

    // The figures of a run that has ended.
    fn report_values(&self, ending: reporting::Ending) -> reporting::ReportValues
        requires { ValidExecution self.now.bytes.now self.now }
        ensures { report_values_in result ≡ report_values_of (ending_in ending) (state_of self.now) (self.now.entries - self.now.used) }
    {
        let counts = counting::result(self.job, &self.cells, &self.store);
        reporting::ReportValues {
            axes: self.job.settings.axes,
            old: counts.old,
            active: counts.active,
            wanted: counts.wanted,
            reserved: counts.reserved,
            pending: counts.pending,
            carried: counts.carried,
            ceiling: counts.ceiling,
            scaled: counts.mean,
            unused: (self.entries - self.used) as u32,
            ending,
        }
    }
}

// Executes a file of the right form that start accepts. Every step but the last delivers an entry or makes an index old, at most 512 of each, so
// that a run ends within 1,025 steps.
fn execute(settings: area::Settings, bytes: &[u8]) -> Result<reporting::ReportValues, Refusal>
    requires { (form_of bytes.now ≡ formed) × (settings ≡ file_settings bytes.now) × (start_cause bytes.now ≡ 0) }
    ensures { text_for result ≡ text_of bytes.now }
{
    let mut execution = Execution::start(settings, bytes);
    for _ in 0..1025u32 {
        if let Some(ending) = execution.step()? {
            return Ok(execution.report_values(ending));
        }
    }
    unreachable!()
}

// What a file's header starts its job with.
fn file_settings(bytes: &[u8]) -> area::Settings
    requires { 24 ≤ length bytes.now }
    ensures { result ≡ file_settings bytes.now }
{
    area::Settings {
        axes: jobfile::four_at(bytes, 0),
        threshold: jobfile::eight_at(bytes, 8),
        budget: jobfile::four_at(bytes, 4),
    }
}

// A refusal of start, with the field of the header that it names.
fn start_refusal(cause: calls::Cause) -> Refusal
    ensures cause { number_of result.cause ≡ number_of_cause cause }
    ensures byte { result.byte ≡ start_byte (number_of_cause cause) }
{
    let byte = match cause {
        calls::Cause::AxesOutOfRange => 0,
        _ => 4,
    };
    Refusal {
        cause: RefusalCause::Call(cause),
        byte,
    }
}

// Runs a job file: the figures of its report, or why it is refused.
fn run_file(bytes: &[u8]) -> Result<reporting::ReportValues, Refusal>
    ensures { text_for result ≡ text_of bytes.now }
{
    jobfile::parse(bytes)?;
    let settings = file_settings(bytes);
    calls::start_cause(settings, 512, 8192).map_err(start_refusal)?;
    execute(settings, bytes)
}

// Runs a job file, and writes its report, or the line of its refusal, at the beginning of the buffer. 512 bytes suffice.
pub fn run(bytes: &[u8], report: &mut [u8]) -> Result<usize, TooShort>
    ensures { record { answer = answer_in bytes.now result; buffer = report.new } ≡ run_on bytes.now report.old }
{
    if report.len() < 512 {
        return Err(TooShort);
    }
    match run_file(bytes) {
        Ok(values) => Ok(reporting::put_report(values, report)),
        Err(refusal) => Ok(reporting::put_refusal(u32::from(refusal.cause), refusal.byte, report)),
    }
}

// The text that a job file gives, at the beginning of a buffer that is long enough for every one.
pub fn text<'a>(bytes: &[u8], buffer: &'a mut [u8; 512]) -> &'a [u8]
    ensures { result.now ≡ text_of bytes.now }
{
    match run(bytes, buffer) {
        Ok(count) => &buffer[..count],
        Err(TooShort) => unreachable!(),
    }
}
