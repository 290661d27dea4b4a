// Document 01, "Layout": the least counts that conditions b, c and d leave. The last comes of powers, each other of a climb from the one behind it.
#![tactic(auto)]

ghost use Rattle.std.specs.Prelude.{◌≡◌, ◌+◌, ◌*◌, ◌-◌, ◌^◌, ◌<◌, ◌≤◌};
ghost use Rattle.counting.specs.Cap.{cap};
ghost use Rattle.climbing.specs.Climb.{held, Least, Climbed, Cut, Asked, Short};

// The least count of the last generation, by condition d.
pub fn last_count(e: u64, v: u64) -> u64
    requires { (3 ≤ e) × (e ≤ 15) × (2 ≤ v) × (v < cap) }
    ensures { Least (λ x. e ^ x - 1) v 0 result }
{
    let square = e * e;
    let mut x: u64 = 0;
    let mut p = square;
    while p <= v {
        p *= square;
        x += 2;
    }
    if v * e < p {
        return x + 1;
    }
    x + 2
}

// The least number whose product with b is at least need.
pub fn least_factor(b: u64, need: u64) -> u64
    requires { (0 < b) × (0 < need) × (need ≤ cap) }
    ensures { Cut b need result }
{
    (need - 1) / b + 1
}

// The patterns of low + d groups: those of at most d written places, and those of d + 1 before the value of the last is chosen. Those go up by `scale`,
// b values for each of low + d + 1 groups, over d + 2.
#[derive(Clone, Copy)]
struct Sum {
    d: u64,
    all: u64,
    more: u64,
    scale: u64,
}

// One place up, by Pascal's rule; low stands here for the promise.
fn grow(b: u64, low: u64, s: Sum) -> Sum
    requires b_nonzero { (0 < b) × (low ≤ 255) × ((s.all + s.more) * b < cap) }
    requires climbed { Climbed b low s.d s.all s.more s.scale }
    ensures { (result.d ≡ s.d + 1) × Climbed b low result.d result.all result.more result.scale }
{
    let all = s.all + (s.all + s.more) * b;
    let more = s.more * s.scale / (s.d + 2);
    let scale = s.scale + b;
    let d = s.d + 1;
    Sum {
        d,
        all,
        more,
        scale,
    }
}

// Where d places above low do not reach need, one more does.
fn reached(low: u64, need: u64, s: Sum) -> u64
    requires { (low ≤ 255) × (s.d ≤ cap) }
    ensures { (s.all < need → result ≡ low + s.d + 1) × (need ≤ s.all → result ≡ low + s.d) }
{
    if s.all < need {
        return low + s.d + 1;
    }
    low + s.d
}

// The climb from a sum on. Equal ranges take at most 15 places.
fn climb_on(b: u64, low: u64, need: u64, cut: u64, start: Sum) -> u64
    requires asked { Asked b low need cut }
    requires climbed { (Climbed b low start.d start.all start.more start.scale) × Short b low need start.d }
    ensures { Least (held b 0 low) need low result }
{
    let mut s = start;
    while s.all + s.more < cut {
        s = grow(b, low, s);
    }
    reached(low, need, s)
}

// The least count above low that has need patterns with low groups zero, the one with no written place among them.
pub fn climb(b: u64, low: u64, need: u64, cut: u64) -> u64
    requires { Asked b low need cut }
    ensures { Least (held b 0 low) need low result }
{
    let mut s = Sum {
        d: 0,
        all: 1,
        more: low,
        scale: (low + 1) * b,
    };
    // So few turns are laid out one behind the other by the compiler, and each divides by a constant.
    for _ in 0..16 {
        if cut <= s.all + s.more {
            return reached(low, need, s);
        }
        s = grow(b, low, s);
    }
    climb_on(b, low, need, cut, s)
}
