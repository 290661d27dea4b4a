// Numbers as a processor has them: a byte in 64 bits, a run of ones, and how many ones a word has.
#![tactic(auto)]

ghost use Rattle.std.specs.Prelude.{◌≡◌, ◌-◌, ◌^◌, ◌<◌, ◌≤◌};
ghost use Rattle.std.specs.Int.Count as Count;

// A byte as a number of 64 bits.
pub fn wide(x: u8) -> u64
    ensures { (result ≡ x) × (result < 256) }
{
    x as u64
}

// n ones.
pub fn low_ones(n: usize) -> u64
    requires { n < 64 }
    ensures { result ≡ 2 ^ n - 1 }
{
    (1 << n) - 1
}

// How many bits are 1.
pub fn ones(x: u64) -> u64
    ensures { (result ≡ Count.ones x) × (result ≤ 64) }
{
    u64::count_ones(x) as u64
}
