// The tables of a shape, from the units on the sides of the network.
ghost use Rattle.std.specs.Prelude.{◌≡◌, ℕ, ◌+◌, ◌*◌, ◌<◌, ◌≤◌, false, length, if◌then◌else◌, nat_lt, slice_index_or};
ghost use Rattle.search.specs.Networks.{units};
ghost use Rattle.draw.specs.Tables.{straight, doubled};

use crate::bends::{Bends, STRAIGHT};
use embedding::tables::table;

/// The bends of each leg, two for each unit over its sides; none past the last leg.
pub fn bends_of(flow: &[u16], count: usize) -> [Bends; 256]
    requires few { count ≤ 256 }
    requires flow { 2 * count ≤ length flow.now }
    requires small { (k : ℕ) → k < 2 * count → units flow.now k ≤ 1000 }
    ensures { (i : ℕ) → slice_index_or result i straight ≡ (if nat_lt i count then doubled (units flow.now (2 * i + 1)) (units flow.now (2 * i)) else straight) }
{
    table(
        count,
        STRAIGHT,
        |i| Bends {
            left: 2 * flow[2 * i + 1],
            right: 2 * flow[2 * i],
        },
    )
}

/// Which angles are large: those through which a unit goes. The sides of the angles begin at `ends`.
pub fn large_of(flow: &[u16], ends: usize) -> [bool; 512]
    requires few { ends ≤ 512 }
    requires flow { length flow.now ≡ ends + 2 * ends }
    ensures { (e : ℕ) → slice_index_or result e false ≡ (if nat_lt e ends then nat_lt 0 (units flow.now (ends + 2 * e)) else false) }
{
    table(ends, false, |e| flow[ends + 2 * e] > 0)
}
