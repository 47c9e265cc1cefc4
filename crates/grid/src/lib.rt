#![tactic(auto)]
// Indices by value: ceilings, neighbours, blocks and their points, subsets of the axes as masks.
// An index is its eight levels and no type of its own, since a forward neighbour may pass a ceiling and is asked all the same; an axis and a number of axes are
// plain numbers. So `Within levels`, `axis < 8` and `axes ≤ 8` are clauses: each caller has them at hand, and a type would be made for one call. So is that a point's
// number is below its block's size.
ghost use Rattle.std.specs.Prelude.{◌≡◌, ◌≤◌, ◌<◌};
ghost use Rattle.grid.specs.Index.{level, excess, Within, within, forward, backward, capped_axes, at_ceiling};
ghost use Rattle.grid.specs.Block.{turned, block_size, point_of};
ghost use Rattle.grid.specs.Coefficient.{sign, marks};

// The excess of an index within the ceilings.
pub fn excess_of(levels: [u32; 8]) -> u32
    requires { Within levels }
    ensures { result ≡ excess levels }
{
    let mut sum: u32 = 0;
    for level in levels {
        sum += level - 1;
    }
    sum
}

// Whether each level is 1 to 8 and the excess at most 12; exact for any levels.
pub fn within_ceilings(levels: [u32; 8]) -> bool
    ensures { result ≡ within levels }
{
    let mut excess: u32 = 0;
    for level in levels {
        if !(1..=8).contains(&level) {
            return false;
        }
        excess += level - 1;
    }
    excess <= 12
}

// Along how many axes the forward neighbour of an index passes a ceiling: along all if its excess is 12, else where its level is 8.
pub fn capped_axes(axes: usize, levels: [u32; 8]) -> u32
    requires { (axes ≤ 8) × Within levels }
    ensures { (result ≡ capped_axes axes levels) × (result ≤ 8) }
{
    if 12 <= excess_of(levels) {
        return axes as u32;
    }
    levels[..axes].iter().filter(|level| 8 <= **level).count() as u32
}

// Whether an index is at a ceiling. An index of fewer axes is asked as one of eight, which comes to the same.
pub fn at_ceiling(levels: [u32; 8]) -> bool
    requires { Within levels }
    ensures { result ≡ at_ceiling 8 levels }
{
    12 <= excess_of(levels) || levels.iter().any(|level| 8 <= *level)
}

// How many points the block of an index has.
pub fn block_size(levels: [u32; 8]) -> usize
    requires { Within levels }
    ensures { result ≡ block_size levels }
{
    let mut size: usize = 1;
    for level in levels {
        size *= rule::new_count(level);
    }
    size
}

// On an axis with `count` new points, the number of the one visited q-th, where the earlier axes' point has this rank: the axis rises if
// the rank is even and falls if it is odd.
fn number_visited(rank: usize, count: usize, q: usize) -> usize
    requires { q < count }
    ensures { (result ≡ turned rank count q) × (result < count) }
{
    let rises = rank % 2 == 0;
    if rises { q } else { count - 1 - q }
}

// The positions of the n-th point of a block, from 0, in reflected order: axis 1 slowest and rising, and each later axis rising or falling
// as the rank of the earlier axes' point is even or odd. The axes at level 1 stand at the centre.
pub fn point_of(levels: [u32; 8], n: usize) -> [u8; 8]
    requires { Within levels × (n < block_size levels) }
    ensures { result ≡ point_of levels n }
{
    let mut point = [0u8; 8];
    let mut left = n;
    let mut size = block_size(levels);
    let mut rank: usize = 0;
    for (axis, &level) in levels.iter().enumerate() {
        let count = rule::new_count(level);
        size /= count;
        let q = left / size;
        point[axis] = rule::new_point(level, number_visited(rank, count, q));
        rank = rank * count + q;
        left %= size;
    }
    point
}

// The forward neighbour along an axis: the level list copied with one level raised.
pub fn forward_neighbour(levels: [u32; 8], axis: usize) -> [u32; 8]
    requires { (axis < 8) × (level levels axis ≤ 8) }
    ensures { result ≡ forward levels axis }
{
    let mut neighbour = levels;
    neighbour[axis] = levels[axis] + 1;
    neighbour
}

// The backward neighbour along an axis: the level list copied with one level lowered.
pub fn backward_neighbour(levels: [u32; 8], axis: usize) -> [u32; 8]
    requires { (axis < 8) × (1 < level levels axis) }
    ensures { result ≡ backward levels axis }
{
    let mut neighbour = levels;
    neighbour[axis] = levels[axis] - 1;
    neighbour
}

// +1 for an even and -1 for an odd subset; bit a of the mask marks axis a + 1. Shifts and masks test each axis, as the scope document has it, and no count of ones.
pub fn subset_sign(mask: u8) -> i64
    ensures { result ≡ sign (marks 8 mask) }
{
    let mut odd = false;
    for axis in 0u8..8 {
        if (mask >> axis) & 1 == 1 {
            odd = !odd;
        }
    }
    if odd { -1 } else { 1 }
}
