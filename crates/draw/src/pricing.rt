// The price of bends.
ghost use Rattle.std.specs.Prelude.{◌≡◌, ℕ, ◌+◌, ◌*◌, ◌<◌, ◌≤◌, [], length, slice_index_or};
ghost use Rattle.duality.specs.Sums.{times};
ghost use Rattle.shape.specs.Shapes.{shape_price};
ghost use Rattle.draw.specs.Tables.{straight, shape_of};

use crate::bends::Bends;
use embedding::cave::Cave;
use price::{Price, Tariff};

// So many times a price. The count is at most that of the bends of a leg, two numbers of 16 bits.
fn multiply<P: Price>(price: P, count: u32) -> P
    requires count { count ≤ 131070 }
    requires small { P.Price.ops.size price ≤ 1000 }
    ensures value { result ≡ times P.Price.ops.zero P.Price.ops.plus count price }
    ensures small { P.Price.ops.size result ≤ 1000 * count }
{
    let mut total = P::zero();
    for k in 0..count {
        total = total.add(price);
    }
    total
}

/// The price of all bends of legs: a sum over the legs, of which each bend costs what the tariff tells.
pub fn price_bends<T: Tariff>(tariff: &T, cave: &Cave, bends: &[Bends]) -> T::Price
    requires all { length cave.now.legs.now ≤ length bends.now }
    requires few { (i : ℕ) → i < length cave.now.legs.now → (slice_index_or bends.now i straight).left + (slice_index_or bends.now i straight).right ≤ 4000 }
    ensures { result ≡ shape_price T.Price.Price.ops (T.Tariff.rate tariff.now) cave.now.legs.now (shape_of [] bends.now) }
{
    let mut total = <T::Price as Price>::zero();
    for (i, leg) in cave.legs.iter().enumerate() {
        let bend = tariff.bend_price(leg.weight, leg.wet);
        total = total.add(multiply(bend, bends[i].total()));
    }
    total
}
