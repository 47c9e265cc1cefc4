#![tactic(auto)]
// The figures of an area, the points of its blocks and the search among its records, each an export by itself as C calls it, so that a program in another language can compare them: only the
// comparison links them, and the library for callers (`wihupya`) does not have them.
// Nothing asks a caller outside for what is required here, so the comparison hands over areas that meet it.
ghost use Rattle.std.specs.Prelude.{◌≡◌, cond, ◌&&◌, ◌+◌, ◌*◌, ◌<◌, ◌≤◌, length};
ghost use Rattle.grid.specs.Index.{Within};
ghost use Rattle.grid.specs.Block.{block_size, point_of};
ghost use Rattle.grid.specs.Difference.{scaled_difference, scaled_mean};
ghost use Rattle.grid.specs.Tensor.{tensor_rule};
ghost use Rattle.grid.specs.Coefficient.{coefficient as coefficient_of, same_levels};
ghost use Rattle.area.specs.Records.{records_of, held_in, levels_of};
ghost use Rattle.area.specs.Encoding.{place_of};
ghost use Rattle.area.specs.Packed.{fits_byte};
ghost use Rattle.quadrature.specs.Readings.{record_at, stored_reading};
ghost use Rattle.quadrature.specs.Ready.{Ready, AllReady};
ghost use Rattle.quadrature.specs.Linked.{delivered_in, Linked};

// The difference of the index at a place, times 2^20.
#[unsafe(no_mangle)]
pub extern "C" fn figures_difference(axes: usize, place: usize, cells: &[u32], store: &[i32]) -> i64
    requires { (place * 27 + 27 ≤ length cells.now) × Ready axes (records_of cells.now) store.now (record_at (records_of cells.now) place).levels }
    ensures { result ≡ scaled_difference (record_at (records_of cells.now) place).levels (stored_reading (records_of cells.now) store.now) }
{
    let records = area::IndexRecords::all(cells);
    quadrature::scaled_difference(axes, records.levels(place), &records, store)
}

// The full tensor rule of the index at a place, times 2^20.
#[unsafe(no_mangle)]
pub extern "C" fn figures_tensor_rule(
    axes: usize,
    place: usize,
    cells: &[u32],
    store: &[i32],
) -> i64
    requires { (place * 27 + 27 ≤ length cells.now) × Ready axes (records_of cells.now) store.now (record_at (records_of cells.now) place).levels }
    ensures { result ≡ tensor_rule (record_at (records_of cells.now) place).levels (stored_reading (records_of cells.now) store.now) }
{
    let records = area::IndexRecords::all(cells);
    quadrature::tensor_rule(axes, records.levels(place), &records, store)
}

// The combination coefficient of the index at a place.
#[unsafe(no_mangle)]
pub extern "C" fn figures_coefficient(axes: usize, held: usize, place: usize, cells: &[u32]) -> i64
    requires { Linked axes (held_in cells.now held) × (held * 27 ≤ length cells.now) × (place < held) }
    ensures { result ≡ coefficient_of (delivered_in (held_in cells.now held)) (record_at (held_in cells.now held) place).levels }
{
    let records = area::IndexRecords::first(cells, held);
    quadrature::coefficient(axes, &records, place)
}

// The sum of the differences of the delivered indices, times 2^20.
#[unsafe(no_mangle)]
pub extern "C" fn figures_difference_total(
    axes: usize,
    held: usize,
    cells: &[u32],
    store: &[i32],
) -> i64
    requires { AllReady axes held (records_of cells.now) store.now }
    ensures { result ≡ scaled_mean (delivered_in (held_in cells.now held)) (stored_reading (records_of cells.now) store.now) }
{
    let records = area::IndexRecords::all(cells);
    quadrature::difference_total(axes, held, &records, store)
}

// The n-th point of the block of the index at a place, from 0: its positions on all eight axes.
#[unsafe(no_mangle)]
pub extern "C" fn figures_point(place: usize, n: usize, point: &mut [u8; 8], cells: &[u32])
    requires { (place * 27 + 27 ≤ length cells.now) × Within (record_at (records_of cells.now) place).levels × (n < block_size (record_at (records_of cells.now) place).levels) }
    ensures { point.new ≡ point_of (record_at (records_of cells.now) place).levels n }
{
    let records = area::IndexRecords::all(cells);
    *point = grid::point_of(records.levels(place), n);
}

// The first held place with these levels, or NONE: the held records are packed, then searched.
#[tactic(auto, using(quadrature::proofs::Held::held_length))]
#[unsafe(no_mangle)]
pub extern "C" fn figures_search(held: usize, levels: &[u32; 8], cells: &[u32]) -> usize
    requires { (held * 27 ≤ length cells.now) × (held ≤ 512) }
    ensures { result ≡ place_of (levels_of (held_in cells.now held)) levels.now }
{
    let records = area::IndexRecords::first(cells, held);
    let mut words = area::HeldWords::none();
    words.hold(&records);
    words
        .lookup(&records, *levels)
        .unwrap_or(area::NONE as usize)
}

// Whether two level lists have the same word, 1 or 0; 2 where a level of one is larger than a byte. C has numbers for the three.
#[unsafe(no_mangle)]
pub extern "C" fn figures_same_word(left: &[u32; 8], right: &[u32; 8]) -> u32
    requires { (length left.now ≡ 8) × (length right.now ≡ 8) }
    ensures { result ≡ cond (fits_byte left.now && fits_byte right.now) (cond (same_levels left.now right.now) 1 0) 2 }
{
    let Some(first) = area::pack(*left) else {
        return 2;
    };
    let Some(second) = area::pack(*right) else {
        return 2;
    };
    u32::from(first == second)
}
