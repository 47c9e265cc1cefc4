#![tactic(auto)]
// Numbers over storage: the difference of an index, its full tensor rule, its combination coefficient, the sum of differences, the
// largest of them, and the sum of coefficient times full tensor rule, which is the same mean worked out another way.
// An index is reached along forward links, from the root or, for a coefficient, from the index itself: in a sound area they name
// every held neighbour.
ghost use Rattle.std.specs.Prelude.{◌≡◌, ◌+◌, ◌*◌, ◌-◌, ◌^◌, ◌<◌, ◌≤◌, pos, nat_abs, ◌*ℤ◌, length, get_or, take, drop};
ghost use Rattle.rule.specs.Points.{new_count};
ghost use Rattle.grid.specs.Index.{level as level_of, Within};
ghost use Rattle.grid.specs.Terms.{IsReading};
ghost use Rattle.grid.specs.Difference.{units, scaled_difference, scaled_mean};
ghost use Rattle.grid.specs.Largest.{largest_difference};
ghost use Rattle.grid.specs.Tensor.{tensor_sum, tensor_rule};
ghost use Rattle.grid.specs.Coefficient.{raised_on, marks, coefficient as coefficient_of};
ghost use Rattle.grid.specs.Cross.{cross_total};
ghost use Rattle.area.specs.Lookup.{lookup_in};
ghost use Rattle.quadrature.specs.Readings.{record_at, stored_reading};
ghost use Rattle.quadrature.specs.Ready.{Ready, WalkInvariant, AllReady};
ghost use Rattle.quadrature.specs.Linked.{delivered_in, subset_term, Linked};
ghost use Rattle.quadrature.specs.Parts.{left_at, points_left, walk_left, delivered_difference, combined_rule};

// What the walks of an index that is ready go by: every record that they come to is delivered. They take it by reference, so that no
// call copies the levels. Where a walk stands on its way, the axis, the place and the rank (`WalkInvariant`), is a clause: it is another at each step.
#[derive(Drop)]
struct Walk<'a> {
    axes: usize,
    target: &'a [u32; 8],
    records: &'a area::IndexRecords<'a>,
    store: &'a [i32],
    ghost ready: { Ready axes records.now store.now target.now },
}

impl<'a> Walk<'a> {
    // The reading with a rank in the block of the record at a place, times a weight.
    fn weighted_reading(&self, place: usize, rank: usize, weight: i64) -> i64
        requires place_in_bounds { (place < length self.now.records.now) × ((record_at self.now.records.now place).first + rank < length self.now.store.now) }
        requires weight_bound { (nat_abs weight ≤ 2 ^ 20) × IsReading (get_or self.now.store.now ((record_at self.now.records.now place).first + rank) (pos 0)) }
        ensures { result ≡ weight *ℤ get_or self.now.store.now ((record_at self.now.records.now place).first + rank) (pos 0) }
    {
        let at = self.records.first_reading(place) as usize + rank;
        weight * i64::from(self.store[at])
    }

    // Goes through the levels of an axis from `level` on: the record at `place` stands at that level there, and at level 1 on the later
    // axes. Past the last axis it takes the reading.
    #[cycle(level_walk_point_walk)]
    fn level_walk(&self, axis: usize, level: u32, place: usize, rank: usize, weight: i64) -> i64
        requires stands { WalkInvariant self.now.records.now self.now.target.now axis place rank }
        requires axis_le_axes { (axis ≤ self.now.axes) × (axis < self.now.axes → level ≡ level_of (record_at self.now.records.now place).levels axis) }
        requires target_bound { nat_abs weight * 2 ^ units (drop axis self.now.target.now) ≤ 2 ^ 20 }
        ensures { result ≡ weight *ℤ walk_left self.now.axes self.now.target.now axis level (left_at self.now.records.now self.now.store.now axis place rank) }
    {
        if axis < self.axes {
            let top = self.target[axis];
            let inner = weight * rule::difference_weight(top, level);
            let here = self.point_walk(axis, level, 0, place, rank, inner);
            if level < top {
                let next = self.records.link(place, axis) as usize;
                let rest = self.level_walk(axis, level + 1, next, rank, weight);
                here + rest
            } else {
                here
            }
        } else {
            self.weighted_reading(place, rank, weight)
        }
    }

    // Goes through the new points of a level from `point` on, in the order of the block's walk; below each, the next axis. It calls
    // itself only where a point is left, so that no call is spent on finding the end.
    #[cycle(level_walk_point_walk)]
    fn point_walk(
        &self,
        axis: usize,
        level: u32,
        point: usize,
        place: usize,
        rank: usize,
        weight: i64,
    ) -> i64
        requires stands { WalkInvariant self.now.records.now self.now.target.now axis place rank }
        requires axis_lt_axes { (axis < self.now.axes) × (level ≡ level_of (record_at self.now.records.now place).levels axis) × (point < new_count level) }
        requires target_bound { nat_abs weight * new_count level * 2 ^ units (drop (axis + 1) self.now.target.now) ≤ 2 ^ 20 }
        ensures { result ≡ weight *ℤ points_left (new_count level - point) point level (drop (axis + 1) self.now.target.now) (left_at self.now.records.now self.now.store.now axis place rank) }
    {
        let count = rule::new_count(level);
        let below = rank * count + point;
        let here = self.level_walk(axis + 1, 1, place, below, weight);
        let next = point + 1;
        if next < count {
            let rest = self.point_walk(axis, level, next, place, rank, weight);
            here + rest
        } else {
            here
        }
    }

    // The full tensor rule on the axes from `axis` on, in the units of their levels: below each new point of a level it is that of the
    // later axes. The record at `place` stands at level 1 on the axis.
    fn tensor_sum(&self, axis: usize, place: usize, rank: usize) -> i64
        requires stands { WalkInvariant self.now.records.now self.now.target.now axis place rank }
        requires axis_le_axes { (axis ≤ self.now.axes) × (axis < self.now.axes → level_of (record_at self.now.records.now place).levels axis ≡ 1) }
        ensures { result ≡ tensor_sum (drop axis self.now.target.now) (left_at self.now.records.now self.now.store.now axis place rank) }
    {
        if self.axes <= axis {
            return self.weighted_reading(place, rank, 1);
        }
        let top = self.target[axis];
        let mut total: i64 = 0;
        let mut at = place;
        for level in 1..=top {
            let count = rule::new_count(level);
            let mut sum: i64 = 0;
            for point in 0..count {
                let below = rank * count + point;
                sum += self.tensor_sum(axis + 1, at, below);
            }
            total += rule::whole_weight(top, level) * sum;
            if level < top {
                at = self.records.link(at, axis) as usize;
            }
        }
        total
    }

    // A sum in the units of the index, brought to the scale 2^20.
    fn scaled(&self, sum: i64) -> i64
        requires { nat_abs (pos (2 ^ (20 - units self.now.target.now)) *ℤ sum) ≤ 2 ^ 40 }
        ensures { result ≡ pos (2 ^ (20 - units self.now.target.now)) *ℤ sum }
    {
        let units = unit_sum(*self.target);
        sum * (1i64 << (20 - units))
    }
}

// The units of an index's axes, together.
fn unit_sum(target: [u32; 8]) -> u32
    requires { Within target }
    ensures { result ≡ units target }
{
    let mut units: u32 = 0;
    for level in target {
        if 1 < level {
            units += level;
        }
    }
    units
}

// The difference of an index, times 2^20.
pub fn scaled_difference(
    axes: usize,
    target: [u32; 8],
    records: &area::IndexRecords,
    store: &[i32],
) -> i64
    requires { Ready axes records.now store.now target }
    ensures is { result ≡ scaled_difference target (stored_reading records.now store.now) }
    ensures small { nat_abs result ≤ 2 ^ 40 }
{
    let walk = Walk {
        axes,
        target: &target,
        records,
        store,
    };
    let sum = walk.level_walk(0, 1, 0, 0, 1);
    walk.scaled(sum)
}

// The full tensor rule of an index, times 2^20.
pub fn tensor_rule(
    axes: usize,
    target: [u32; 8],
    records: &area::IndexRecords,
    store: &[i32],
) -> i64
    requires { Ready axes records.now store.now target }
    ensures is { result ≡ tensor_rule target (stored_reading records.now store.now) }
    ensures small { nat_abs result ≤ 2 ^ 40 }
{
    let walk = Walk {
        axes,
        target: &target,
        records,
        store,
    };
    let sum = walk.tensor_sum(0, 0, 0);
    walk.scaled(sum)
}

// The place of the index raised by one on a subset of the axes, found along forward links. That the held are linked is a clause of the three functions of a coefficient,
// each of which hands all of its arguments on to the next: a type would only rename them.
fn raised_place(axes: usize, held: &area::IndexRecords, place: usize, mask: u8) -> Option<usize>
    requires { Linked axes held.now × (place < length held.now) × (mask < 2 ^ axes) }
    ensures { result ≡ lookup_in held.now (raised_on (record_at held.now place).levels (marks 8 mask)) }
{
    let mut at = place;
    for axis in 0..axes {
        if (mask >> axis) & 1 == 1 {
            at = held.link(at, axis) as usize;
            if held.len() <= at {
                return None;
            }
        }
    }
    Some(at)
}

// +1 for an even and -1 for an odd subset where the index raised on it is delivered, else 0.
fn subset_term(axes: usize, held: &area::IndexRecords, place: usize, mask: u8) -> i64
    requires { Linked axes held.now × (place < length held.now) × (mask < 2 ^ axes) }
    ensures { result ≡ subset_term held.now (record_at held.now place).levels mask }
{
    match raised_place(axes, held, place, mask) {
        Some(at) => {
            let is_wanted = held.state(at) == area::WANTED;
            if is_wanted {
                0
            } else {
                grid::subset_sign(mask)
            }
        }
        None => 0,
    }
}

// The combination coefficient of the index at a place, over the delivered indices among the held.
pub fn coefficient(axes: usize, held: &area::IndexRecords, place: usize) -> i64
    requires { Linked axes held.now × (place < length held.now) }
    ensures is { result ≡ coefficient_of (delivered_in held.now) (record_at held.now place).levels }
    ensures small { nat_abs result ≤ 256 }
{
    let subsets = 1usize << axes;
    let mut sum: i64 = 0;
    for mask in 0..subsets {
        sum += subset_term(axes, held, place, mask as u8);
    }
    sum
}

// The difference of the index at a place, times 2^20; 0 while the index is wanted. This and `combined_rule` keep single parameters,
// as their public callers have them: what is known of the index differs from place to place, and becomes a `Walk` where it is delivered.
fn delivered_difference(
    axes: usize,
    place: usize,
    records: &area::IndexRecords,
    store: &[i32],
) -> i64
    requires { (place < length records.now) × (1 ≤ (record_at records.now place).state → Ready axes records.now store.now (record_at records.now place).levels) }
    ensures is { result ≡ delivered_difference records.now store.now place }
    ensures small { nat_abs result ≤ 2 ^ 40 }
{
    if records.state(place) == area::WANTED {
        0
    } else {
        scaled_difference(axes, records.levels(place), records, store)
    }
}

// The sum of the differences of the delivered indices among the held, times 2^20. It and the two other sums are each one call
// of its callers, so that what they go by, the held among all records and that these are ready and linked, is a clause and no type. This and the combination sum add
// terms of other sizes (`small`), which one function for both would have to be told.
pub fn difference_total(
    axes: usize,
    held: usize,
    records: &area::IndexRecords,
    store: &[i32],
) -> i64
    requires { AllReady axes held records.now store.now }
    ensures is { result ≡ scaled_mean (delivered_in (take held records.now)) (stored_reading records.now store.now) }
    ensures small { nat_abs result ≤ length (delivered_in (take held records.now)) * 2 ^ 40 }
{
    let mut total: i64 = 0;
    for place in 0..held {
        total += delivered_difference(axes, place, records, store);
    }
    total
}

// The largest difference of the delivered indices among the held, times 2^20: largest in size, with its sign, of the lowest place
// among equals. It goes from the last place down, so that an equal one at a lower place takes over; the 0 of a wanted index takes
// over only from 0. Whole numbers only: no double is ever compared. (A loop and no `max_by_key`: two edits change what it compares.)
pub fn largest_difference(
    axes: usize,
    held: usize,
    records: &area::IndexRecords,
    store: &[i32],
) -> i64
    requires { AllReady axes held records.now store.now }
    ensures is { result ≡ largest_difference (delivered_in (take held records.now)) (stored_reading records.now store.now) }
    ensures small { nat_abs result ≤ 2 ^ 40 }
{
    let mut largest: i64 = 0;
    for place in (0..held).rev() {
        let difference = delivered_difference(axes, place, records, store);
        let so_far = largest.unsigned_abs();
        let here = difference.unsigned_abs();
        let takes_over = so_far <= here;
        if takes_over {
            largest = difference;
        }
    }
    largest
}

// The full tensor rule of the index at a place, times its combination coefficient and 2^20; 0 while the index is wanted.
fn combined_rule(
    axes: usize,
    held: usize,
    place: usize,
    records: &area::IndexRecords,
    store: &[i32],
) -> i64
    requires linked { Linked axes (take held records.now) × (held ≤ length records.now) × (place < held) }
    requires ready { 1 ≤ (record_at records.now place).state → Ready axes records.now store.now (record_at records.now place).levels }
    ensures is { result ≡ combined_rule (take held records.now) records.now store.now place }
    ensures small { nat_abs result ≤ 2 ^ 48 }
{
    let state = records.state(place);
    if state == area::WANTED {
        0
    } else {
        let full = tensor_rule(axes, records.levels(place), records, store);
        coefficient(axes, &records.front(held), place) * full
    }
}

// The sum over the delivered indices among the held of coefficient times full tensor rule, times 2^20.
pub fn combination_sum(axes: usize, held: usize, records: &area::IndexRecords, store: &[i32]) -> i64
    requires { AllReady axes held records.now store.now × Linked axes (take held records.now) }
    ensures is { result ≡ cross_total (delivered_in (take held records.now)) (stored_reading records.now store.now) }
    ensures small { nat_abs result ≤ length (delivered_in (take held records.now)) * 2 ^ 48 }
{
    let mut total: i64 = 0;
    for place in 0..held {
        total += combined_rule(axes, held, place, records, store);
    }
    total
}
