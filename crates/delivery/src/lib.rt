#![tactic(auto)]
// Start, point, points and deliver as the calls do them once nothing refuses: deliver asks for a valid area, the others for room and ranges.
// The public calls are those of the crate `calls`.
ghost use Rattle.std.specs.Prelude.{◌≡◌, true, ◌++◌, ◌+◌, ◌*◌, ◌<◌, ◌≤◌, pos, length, take, drop, unwrap_or, IfSome};
ghost use Rattle.std.proofs.lemmas.List.Edits.{sets};
ghost use Rattle.grid.specs.Index.{Within};
ghost use Rattle.grid.specs.Block.{block, block_size, point_of};
ghost use Rattle.area.specs.Settings.{reading_count};
ghost use Rattle.area.specs.Records.{run_of, stored};
ghost use Rattle.area.specs.Encoding.{area_of, entries_of};
ghost use Rattle.quadrature.specs.Readings.{record_at};
ghost use Rattle.machine.specs.Log.{first_wanted, wanted_index};
ghost use Rattle.machine.specs.Points.{points_fitting, positions_of, written_over};
ghost use Rattle.machine.specs.Areas.{deliver_on};
ghost use Rattle.machine.specs.Causes.{in_range};
ghost use Rattle.writing.specs.Changes.{root_record};
ghost use Rattle.writing.specs.Heads.{heads_of};
ghost use Rattle.writing.specs.ValidArea.{ValidArea};

// Writes the root's record, wanted, and gives the job record of a job that was just started.
pub fn start(settings: area::Settings, cells: &mut [u32]) -> area::JobRecord
    requires { 27 ≤ length cells.old }
    ensures job { result ≡ record { settings = settings; held = 1; reserved = 1; pending = 0; carried = 0; mean = pos 0 } }
    ensures run { run_of cells.new ≡ stored (run_of cells.old) 0 root_record }
{
    let root = area::IndexRecord {
        levels: [1u32; 8],
        state: area::WANTED,
        indicator: 0,
        first: 0,
        links: [area::NONE; 16],
    };
    area::store(cells, 0, root);
    area::JobRecord {
        settings,
        held: 1,
        reserved: 1,
        pending: 0,
        carried: 0,
        mean: 0,
    }
}

// The place of the first wanted record, if one is wanted.
pub fn first_wanted(held: &area::IndexRecords) -> Option<usize>
    ensures place { unwrap_or result (length held.now) ≡ first_wanted (heads_of held.now) }
    ensures within { IfSome result (λ p. p < length held.now) }
{
    (0..held.len()).find(|&place| held.state(place) == area::WANTED)
}

// Writes the first positions of a point from a byte on, by the library's copy; the other bytes stay.
fn put_point(axes: usize, point: [u8; 8], from: usize, buffer: &mut [u8])
    requires { (axes ≤ 8) × (from + axes ≤ length buffer.old) }
    ensures { buffer.new ≡ sets buffer.old from (take axes point) }
{
    buffer[from..from + axes].copy_from_slice(&point[..axes]);
}

// Writes the positions of the n-th point of the block at a place.
pub fn point(axes: usize, place: usize, n: usize, records: &area::IndexRecords, buffer: &mut [u8])
    requires place_in_bounds { (place < length records.now) × (axes ≤ 8) × (axes ≤ length buffer.old) }
    requires within { Within (record_at records.now place).levels × (n < block_size (record_at records.now place).levels) }
    ensures { buffer.new ≡ take axes (point_of (record_at records.now place).levels n) ++ drop axes buffer.old }
{
    put_point(axes, grid::point_of(records.levels(place), n), 0, buffer);
}

// Writes so many points of a block, from its n-th on, one after the other; later bytes stay.
fn put_points(axes: usize, levels: [u32; 8], n: usize, count: usize, buffer: &mut [u8])
    requires { (axes ≤ 8) × (count * axes ≤ length buffer.old) × Within levels × (n + count ≤ block_size levels) }
    ensures { buffer.new ≡ sets buffer.old 0 (positions_of axes (take count (drop n (block levels)))) }
{
    for written in 0..count {
        let point = grid::point_of(levels, n + written);
        put_point(axes, point, written * axes, buffer);
    }
}

// How many points a call wrote, and how many the block has.
#[derive(Clone, Copy)]
pub struct PointCounts {
    pub written: u32,
    pub size: u32,
}

// Writes the points of the block at a place, from the n-th on: as many as are left and have room.
pub fn points(
    axes: usize,
    place: usize,
    n: usize,
    records: &area::IndexRecords,
    buffer: &mut [u8],
) -> PointCounts
    requires place_in_bounds { (place < length records.now) × (1 ≤ axes) × (axes ≤ 8) }
    requires within { Within (record_at records.now place).levels × (n < block_size (record_at records.now place).levels) }
    ensures counts { (result.written ≡ length (points_fitting axes (record_at records.now place).levels n (length buffer.old))) × (result.size ≡ block_size (record_at records.now place).levels) }
    ensures bytes { buffer.new ≡ written_over (positions_of axes (points_fitting axes (record_at records.now place).levels n (length buffer.old))) buffer.old }
{
    let index = records.levels(place);
    let size = grid::block_size(index);
    let count = (buffer.len() / axes).min(size - n);
    put_points(axes, index, n, count, buffer);
    PointCounts {
        written: count as u32,
        size: size as u32,
    }
}

// Stores readings from `first` on; the others stay.
fn put_readings(first: usize, readings: &[i32], store: &mut [i32])
    requires { first + length readings.now ≤ length store.old }
    ensures { store.new ≡ sets store.old first readings.now }
{
    for (n, reading) in readings.iter().enumerate() {
        store[first + n] = *reading;
    }
}

// Delivers the first wanted block, which is that at `place`.
pub fn deliver(
    job: area::JobRecord,
    place: usize,
    readings: &[i32],
    indicator: u32,
    cells: &mut [u32],
    store: &mut [i32],
) -> area::JobRecord
    requires valid_area { ValidArea (area_of job cells.old store.old) × (place ≡ first_wanted (entries_of (area_of job cells.old store.old))) × (place < job.held) }
    requires readings_len { (length readings.now ≡ reading_count job.settings (wanted_index (entries_of (area_of job cells.old store.old)))) × (in_range readings.now ≡ true) }
    ensures is { area_of result cells.new store.new ≡ deliver_on (area_of job cells.old store.old) readings.now indicator }
    ensures valid { ValidArea (area_of result cells.new store.new) }
{
    let axes = job.settings.axes as usize;
    let first = area::IndexRecords::all(cells).first_reading(place) as usize;
    put_readings(first, readings, store);
    writing::set_state(place, area::ACTIVE, indicator, cells);
    let records = area::IndexRecords::all(cells);
    let levels = records.levels(place);
    let difference = quadrature::scaled_difference(axes, levels, &records, store);
    area::JobRecord {
        pending: job.pending + u64::from(indicator),
        mean: job.mean + difference,
        ..job
    }
}
