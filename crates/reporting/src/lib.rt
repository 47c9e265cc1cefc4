#![tactic(auto)]
// A report's text, and its copy in a lent buffer.
ghost use Rattle.std.specs.Prelude.{◌≡◌, ℕ, List, [], ◌∷◌, ◌++◌, ◌+◌, ◌<◌, ◌≤◌, length, take, drop};
ghost use Rattle.reporting.specs.Decimal.{decimal, signed_decimal};
ghost use Rattle.reporting.specs.Text.{line, end_word, ending_word, report_text, refusal_text};
ghost use Rattle.reporting.specs.Code.{ending_in, report_values_in, count_lines, sum_lines};

use std::marker::Model;

// How a run ends.
#[derive(Clone, Copy, PartialEq, Eq)]
pub enum Ending {
    Met,
    Capped,
    Spent,
    Short,
}

impl Ending {
    // What the last line says of it, as bytes: a report is bytes in a lent buffer, and so are the definitions of its text.
    fn word(self) -> &'static [u8]
        ensures is { result.now ≡ ending_word (ending_in self) }
        ensures few { length result.now ≤ 6 }
    {
        match self {
            Ending::Met => b"met",
            Ending::Capped => b"capped",
            Ending::Spent => b"spent",
            Ending::Short => b"short",
        }
    }
}

// A report's figures, in its order.
#[derive(Clone, Copy, PartialEq, Eq)]
pub struct ReportValues {
    pub axes: u32,
    pub old: u32,
    pub active: u32,
    pub wanted: u32,
    pub reserved: u32,
    pub pending: u64,
    pub carried: u64,
    pub ceiling: u32,
    pub scaled: i64,
    pub unused: u32,
    pub ending: Ending,
}

// A text that grows at its end. Every report and every refusal has room (`TextFacts.report_room`, `refusal_room`): an array with its length, since there is no heap. How much
// room is left is a clause of each method, which takes another number of bytes.
#[derive(Drop)]
struct Text {
    bytes: [u8; 512],
    len: usize,
}

impl Model for Text {
    ghost Value = { List ℕ };

    ghost view = { λ t. take t.len t.bytes };

    ghost invariant = { λ t. t.len ≤ 512 };
}

// A number that a line says.
trait Decimal: Copy {
    ghost digits: { Self → List ℕ };

    fn push_to(self, text: &mut Text)
        requires { length text.old + 21 ≤ 512 }
        ensures is { text.new ≡ text.old ++ digits self }
        ensures near { length text.new ≤ length text.old + 21 };
}

impl Decimal for u32 {
    ghost digits = { decimal };

    fn push_to(self, text: &mut Text) {
        text.push_number(u64::from(self));
    }
}

impl Decimal for u64 {
    ghost digits = { decimal };

    fn push_to(self, text: &mut Text) {
        text.push_number(self);
    }
}

impl Decimal for i64 {
    ghost digits = { signed_decimal };

    fn push_to(self, text: &mut Text) {
        if self < 0 {
            text.push(b'-');
        }
        text.push_number(self.unsigned_abs());
    }
}

impl Text {
    // An empty text.
    fn new() -> Text
        ensures { result ≡ [] }
    {
        Text {
            bytes: [0; 512],
            len: 0,
        }
    }

    // One byte more.
    fn push(&mut self, byte: u8)
        requires { length self.old < 512 }
        ensures { self.new ≡ self.old ++ byte ∷ [] }
    {
        self.bytes[self.len] = byte;
        self.len += 1;
    }

    // A word's letters.
    fn push_word(&mut self, word: &[u8])
        requires { length self.old + length word.now ≤ 512 }
        ensures { self.new ≡ self.old ++ word.now }
    {
        let end = self.len + word.len();
        self.bytes[self.len..end].copy_from_slice(word);
        self.len = end;
    }

    // A number's digits. By hand: a `write!` of the number was tried, and the proof didn't close, since std promises the text only where its answer
    // is Ok, and no contract says that it is.
    fn push_number(&mut self, n: u64)
        requires { length self.old + 20 ≤ 512 }
        ensures is { self.new ≡ self.old ++ decimal n }
        ensures near { length self.new ≤ length self.old + 20 }
    {
        if 10 <= n {
            self.push_number(n / 10);
        }
        self.push(b'0' + (n % 10) as u8);
    }

    // A line that says a number.
    fn push_line<N: Decimal>(&mut self, word: &[u8], n: N)
        requires { (length word.now ≤ 8) × (length self.old + 31 ≤ 512) }
        ensures is { self.new ≡ self.old ++ line word.now (N.digits n) }
        ensures near { length self.new ≤ length self.old + 31 }
    {
        self.push_word(word);
        self.push(b' ');
        n.push_to(self);
        self.push(b'\n');
    }

    // The last line of a run.
    fn push_ending(&mut self, ending: Ending)
        requires { length self.old + 31 ≤ 512 }
        ensures { self.new ≡ self.old ++ line end_word (ending_word (ending_in ending)) }
    {
        self.push_word(b"end ");
        self.push_word(ending.word());
        self.push(b'\n');
    }

    // The first five lines of a report.
    fn push_counts(&mut self, values: ReportValues)
        requires { length self.old + 155 ≤ 512 }
        ensures is { self.new ≡ self.old ++ count_lines (report_values_in values) }
        ensures near { length self.new ≤ length self.old + 155 }
    {
        self.push_line(b"axes", values.axes);
        self.push_line(b"old", values.old);
        self.push_line(b"active", values.active);
        self.push_line(b"wanted", values.wanted);
        self.push_line(b"reserved", values.reserved);
    }

    // The last six lines of a report.
    fn push_sums(&mut self, values: ReportValues)
        requires { length self.old + 186 ≤ 512 }
        ensures { self.new ≡ self.old ++ sum_lines (report_values_in values) }
    {
        self.push_line(b"pending", values.pending);
        self.push_line(b"carried", values.carried);
        self.push_line(b"ceiling", values.ceiling);
        self.push_line(b"scaled", values.scaled);
        self.push_line(b"unused", values.unused);
        self.push_ending(values.ending);
    }

    // The text at the beginning of a buffer, and its length. A type of 512 bytes would ask more of callers, who lend buffers of any length above.
    fn copy_to(&self, buffer: &mut [u8]) -> usize
        requires { 512 ≤ length buffer.old }
        ensures bytes { buffer.new ≡ self.now ++ drop (length self.now) buffer.old }
        ensures count { result ≡ length self.now }
    {
        buffer[..self.len].copy_from_slice(&self.bytes[..self.len]);
        self.len
    }
}

// Writes a report at the beginning of the buffer, and gives its length.
pub fn put_report(values: ReportValues, buffer: &mut [u8]) -> usize
    requires { 512 ≤ length buffer.old }
    ensures bytes { buffer.new ≡ report_text (report_values_in values) ++ drop (length (report_text (report_values_in values))) buffer.old }
    ensures count { result ≡ length (report_text (report_values_in values)) }
{
    let mut text = Text::new();
    text.push_counts(values);
    text.push_sums(values);
    text.copy_to(buffer)
}

// Writes a refusal at the beginning of the buffer, and gives its length. It has the number of a cause, since this crate knows no calls.
pub fn put_refusal(number: u32, byte: usize, buffer: &mut [u8]) -> usize
    requires { 512 ≤ length buffer.old }
    ensures bytes { buffer.new ≡ refusal_text number byte ++ drop (length (refusal_text number byte)) buffer.old }
    ensures count { result ≡ length (refusal_text number byte) }
{
    let mut text = Text::new();
    text.push_word(b"refused ");
    text.push_number(u64::from(number));
    text.push_word(b" at ");
    text.push_number(byte as u64);
    text.push(b'\n');
    text.copy_to(buffer)
}
