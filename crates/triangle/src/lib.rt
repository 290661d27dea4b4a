// Document 02, §4: "take C(n, k) from a stored triangle of 1,891 numbers, rows 0 to 60".
#![tactic(auto)]

mod entries;

ghost use Rattle.std.specs.Prelude.{◌≡◌, ◌≤◌};
ghost use Rattle.code.specs.Count.{choose};

// The last row that is stored.
pub const LAST_ROW: u64 = 60;

// C(n, k), looked up.
pub fn stored(n: u64, k: u64) -> u64
    requires { (n ≤ 60) × (k ≤ n) }
    ensures { result ≡ choose n k }
{
    entries::entry(n * (n + 1) / 2 + k)
}
