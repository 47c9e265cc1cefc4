#![tactic(auto)]
// The job file: its form, tested field by field in byte order before anything else, and reading its fields in place.
ghost use Rattle.std.specs.Prelude.{◌≡◌, ℕ, ◌+◌, ◌<◌, ◌≤◌, length, take, drop};
ghost use Rattle.jobfile.specs.Bytes.{four, eight, signed_four};
ghost use Rattle.jobfile.specs.Form.{Form as FileForm, formed, header_form, entry_count, table_form, readings_form, form_of, form_in, table_in};

// The part in which a rule of form is broken, with the byte named. `form_in` (specs/Form.antt) gives the number of each case.
#[derive(Clone, Copy, PartialEq, Eq)]
pub enum FormError {
    Header(usize),
    Entry(usize),
    Readings(usize),
}

// N bytes, from a byte on.
fn bytes_at<const N: usize>(bytes: &[u8], from: usize) -> [u8; N]
    requires { from + N ≤ length bytes.now }
    ensures { result ≡ take N (drop from bytes.now) }
{
    bytes[from..from + N].try_into().unwrap()
}

// Four bytes as a number. It and the next are one call each: the contracts name what they give, `four` and `eight`.
pub fn four_at(bytes: &[u8], from: usize) -> u32
    requires { from + 4 ≤ length bytes.now }
    ensures { result ≡ four bytes.now from }
{
    u32::from_le_bytes(bytes_at(bytes, from))
}

// Eight bytes as a number.
pub fn eight_at(bytes: &[u8], from: usize) -> u64
    requires { from + 8 ≤ length bytes.now }
    ensures { result ≡ eight bytes.now from }
{
    u64::from_le_bytes(bytes_at(bytes, from))
}

// Four bytes as a number in two's complement.
pub fn signed_at(bytes: &[u8], from: usize) -> i32
    requires { from + 4 ≤ length bytes.now }
    ensures { result ≡ signed_four bytes.now from }
{
    four_at(bytes, from).cast_signed()
}

// The header: the fields before the entry count have no rule, so that only the end of the file can cut them off.
fn header_form(bytes: &[u8]) -> Result<(), FormError>
    ensures { form_in result ≡ header_form bytes.now formed }
{
    let size = bytes.len();
    if size < 20 {
        return Err(FormError::Header(size));
    }
    if 512 < four_at(bytes, 16) {
        return Err(FormError::Header(16));
    }
    if size < 24 {
        return Err(FormError::Header(size));
    }
    if four_at(bytes, 20) != 24 {
        return Err(FormError::Header(20));
    }
    Ok(())
}

// Entry i of the table, with `before` readings in those passed: how many these and its own are. At most 8,192 in all, so no more in this one.
fn entry_form(bytes: &[u8], entries: usize, i: usize, before: usize) -> Result<usize, FormError>
    requires { (entries ≡ entry_count bytes.now) × (entries ≤ 512) × (i < entries) × (before ≤ 8192) }
    ensures { (next : ℕ → FileForm) → table_in result next ≡ table_form bytes.now 1 i before next }
{
    let size = bytes.len();
    let from = 24 + 12 * i;
    let cut_off = FormError::Entry(size);
    if size < from + 8 {
        return Err(cut_off);
    }
    let count = four_at(bytes, from + 4) as usize;
    let many = 8192 < before + count;
    if count < 1 || many {
        return Err(FormError::Entry(from + 4));
    }
    if size < from + 12 {
        return Err(cut_off);
    }
    let first = 24 + 12 * entries + 4 * before;
    if four_at(bytes, from + 8) as usize != first {
        return Err(FormError::Entry(from + 8));
    }
    Ok(before + count)
}

// The whole table: how many readings its entries count.
fn table_form(bytes: &[u8], entries: usize) -> Result<usize, FormError>
    requires { (entries ≡ entry_count bytes.now) × (entries ≤ 512) }
    ensures { (next : ℕ → FileForm) → table_in result next ≡ table_form bytes.now entries 0 0 next }
{
    let mut before = 0;
    for i in 0..entries {
        before = entry_form(bytes, entries, i, before)?;
    }
    Ok(before)
}

// So many readings from a byte on, in a file of so many bytes that reaches that byte: only its length can break their rules.
fn readings_form(size: usize, total: usize, from: usize) -> Result<(), FormError>
    requires { (total ≤ 8192) × (from ≤ 6168) × (from ≤ size) }
    ensures { form_in result ≡ readings_form size total from }
{
    let end = from + 4 * total;
    if size < end {
        return Err(FormError::Readings(size));
    }
    if end < size {
        return Err(FormError::Readings(end));
    }
    Ok(())
}

// The form of a file, whatever it holds.
pub fn parse(bytes: &[u8]) -> Result<(), FormError>
    ensures { form_in result ≡ form_of bytes.now }
{
    header_form(bytes)?;
    let entries = four_at(bytes, 16) as usize;
    let total = table_form(bytes, entries)?;
    readings_form(bytes.len(), total, 24 + 12 * entries)
}
