// The index records that a call looks at, as cells.
ghost use Rattle.std.specs.Prelude.{◌≡◌, ◌*◌, ◌≤◌, [], length, min, take};
ghost use Rattle.area.specs.Records.{records_of, run_of};
ghost use Rattle.records.specs.Lent.{over, over_run, front};

// As many records as a job can hold.
const MOST: usize = 512;

// Records as cells: so many of them, 27 words to a record. There is room for 512 since no job holds more; that there are no more is a clause, since anyone may make one.
// The words are an array with the number beside it, since the library has fixed memory and no heap. A call that writes takes both out: with the array in the struct this was
// tried, and a proof did not learn what was written to a part of it.
#[derive(Clone, Copy)]
pub struct Flat {
    pub count: usize,
    pub words: [u32; 13824],
}

// The records, into the cells.
fn serialize(records: &[area::IndexRecord], cells: &mut [u32])
    requires { length records.now * 27 ≤ length cells.old }
    ensures { run_of cells.new ≡ over_run (length records.now) records.now (run_of cells.old) }
{
    for (place, record) in records.iter().enumerate() {
        area::store(cells, place, *record);
    }
}

// The records that cells hold, into as many others.
fn deserialize(records: &mut [area::IndexRecord], held: &area::IndexRecords)
    requires { length records.old ≡ length held.now }
    ensures { records.new ≡ held.now }
{
    for (place, record) in records.iter_mut().enumerate() {
        *record = held.record(place);
    }
}

impl Flat {
    // Room for so many records, or for 512 where that is less.
    pub(crate) fn room(count: usize) -> Flat
        ensures { result.count ≡ min count 512 }
    {
        Flat {
            count: count.min(MOST),
            words: [0; 13824],
        }
    }

    // The records that a call looks at: the first 512 at most.
    pub(crate) fn of(records: &[area::IndexRecord]) -> Flat
        ensures count { result.count ≡ min (length records.now) 512 }
        ensures front { front result.count result.words ≡ take result.count records.now }
    {
        let mut flat = Flat::room(records.len());
        serialize(&records[..flat.count], &mut flat.words);
        flat
    }

    // The cells of the records.
    pub(crate) fn cells(&self) -> &[u32]
        requires { self.now.count ≤ 512 }
        ensures { run_of result.now ≡ record { records = front self.now.count self.now.words; rest = [] } }
    {
        &self.words[..self.count * 27]
    }

    // Stores so many of the records back, or all where that is more.
    pub(crate) fn store_back(&self, held: usize, records: &mut [area::IndexRecord])
        requires { (self.now.count ≤ 512) × (self.now.count ≤ length records.old) }
        ensures { records.new ≡ over (min held self.now.count) (records_of self.now.words) records.old }
    {
        let n = held.min(self.count);
        let held = area::IndexRecords::first(&self.words, n);
        deserialize(&mut records[..n], &held);
    }
}
