#![tactic(auto)]
// The rule along one axis: how many points are new at a level, where they lie, and what they weigh.
ghost use Rattle.std.specs.Prelude.{◌≡◌, ◌≤◌, ◌<◌};
ghost use Rattle.rule.specs.Points.{new_count, new_point};
ghost use Rattle.rule.specs.Weights.{whole_weight, difference_weight};

// How many points are new at a level.
pub fn new_count(level: u32) -> usize
    requires { level ≤ 8 }
    ensures { result ≡ new_count level }
{
    match level {
        0 => 0,
        1 => 1,
        2 => 2,
        _ => 1usize << (level - 2),
    }
}

// The position of the n-th new point of a level, from 0.
pub fn new_point(level: u32, n: usize) -> u8
    requires { (1 ≤ level) × (level ≤ 8) × (n < new_count level) }
    ensures { result ≡ new_point level n }
{
    match level {
        0..=1 => 64,
        2 => 128 * (n as u8),
        _ => (2 * (n as u8) + 1) << (8 - level),
    }
}

// The weight, in the whole rule of level `rule`, of a point that was new at level `point`: 0 where the rule has no such point. Level 1:
// a whole one. From 2 up, in units of 2^-rule: both ends 1, every other point 2.
pub fn whole_weight(rule: u32, point: u32) -> i64
    ensures { result ≡ whole_weight rule point }
{
    if point == 0 || rule < point {
        return 0;
    }
    match rule {
        0..=1 => 1,
        2.. => match point {
            2 => 1,
            _ => 2,
        },
    }
}

// The weight, in the difference rule of level `rule`, of a point that was new at level `point`: 0 where the rule has no such point.
// Level 1: a whole one. In units of 2^-rule, level 2: ends 1, centre -2; from 3 up: new points 2, ends -1, all others -2.
pub fn difference_weight(rule: u32, point: u32) -> i64
    ensures { result ≡ difference_weight rule point }
{
    if point == 0 || rule < point {
        return 0;
    }
    match rule {
        0..=1 => 1,
        2 => match point {
            2 => 1,
            _ => -2,
        },
        3.. => match point {
            2 => -1,
            _ => { if point == rule { 2 } else { -2 } }
        },
    }
}
