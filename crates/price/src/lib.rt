// Prices of any kind, and tariffs that tell the price of a bend.
#![tactic(auto)]

ghost use Rattle.std.specs.Prelude.{◌≡◌, ℕ, ◌+◌, ◌^◌, ◌≤◌, true, ◌+ℤ◌, unsigned_abs};
ghost use Rattle.price.specs.Laws.{Ops, Laws};
ghost use Rattle.price.specs.Amounts.{plain_ops, ranked_ops};
ghost use Rattle.price.specs.Rates.{plain_rate, ranked_rate};
ghost use Rattle.std.proofs.Common.{rules};
ghost use Rattle.price.specs.Lex.{ranked_laws};

/// A kind of price: an ordered commutative group in which each price has a size.
/// Sums are exact while the sizes added come to at most 2^40.
/// The methods are not those of `Add`, `Neg` and `PartialOrd`, whose contracts are ghost members of their own:
/// each would need a law here that ties it to `ops`, and each sum in generic code a proof by that law.
pub trait Price: Copy {
    ghost ops: { Ops Self };

    /// The price of nothing.
    fn zero() -> Self
        ensures { result ≡ ops.zero };

    /// The sum of two prices.
    fn add(self, other: Self) -> Self
        requires { ops.size self + ops.size other ≤ 2 ^ 40 }
        ensures { result ≡ ops.plus self other };

    /// The price that makes zero with this one.
    fn neg(self) -> Self
        requires { ops.size self ≤ 2 ^ 40 }
        ensures { result ≡ ops.minus self };

    /// Whether this price is at most the other.
    fn at_most(self, other: Self) -> bool
        ensures { result ≡ ops.leq self other };

    ghost laws: { Laws ops };
}

/// A whole number.
#[derive(Clone, Copy, Debug, Default, PartialEq, Eq, PartialOrd, Ord, Hash)]
pub struct Plain {
    pub value: i64,
}

impl Price for Plain {
    ghost ops = { plain_ops };

    ghost laws = { Prim.search rules };

    fn zero() -> Plain {
        Plain { value: 0 }
    }

    fn add(self, other: Plain) -> Plain {
        Plain {
            value: self.value + other.value,
        }
    }

    fn neg(self) -> Plain {
        Plain { value: -self.value }
    }

    fn at_most(self, other: Plain) -> bool {
        self.value <= other.value
    }
}

/// Two whole numbers, of which the first decides.
#[derive(Clone, Copy, Debug, Default, PartialEq, Eq, PartialOrd, Ord, Hash)]
pub struct Ranked {
    pub first: i64,
    pub second: i64,
}

impl Price for Ranked {
    ghost ops = { ranked_ops };

    ghost laws = { ranked_laws };

    fn zero() -> Ranked {
        Ranked {
            first: 0,
            second: 0,
        }
    }

    fn add(self, other: Ranked) -> Ranked {
        Ranked {
            first: exact_sum(self.first, other.first),
            second: exact_sum(self.second, other.second),
        }
    }

    fn neg(self) -> Ranked {
        Ranked {
            first: -self.first,
            second: -self.second,
        }
    }

    fn at_most(self, other: Ranked) -> bool {
        self <= other
    }
}

// The sum of two numbers that are small enough; with the sums written out in `add` the proof did not close.
fn exact_sum(a: i64, b: i64) -> i64
    requires { unsigned_abs a + unsigned_abs b ≤ 2 ^ 40 }
    ensures { result ≡ a +ℤ b }
{
    a + b
}

/// What one bend costs, by the weight of its leg and its wet flag.
/// No price that it tells is below zero, and none is of a size over 1,000 where the weight is at most 1,000.
pub trait Tariff {
    type Price: Price;

    ghost rate: { Self → ℕ → ℕ → Self.Price };

    /// The price of one bend.
    fn bend_price(&self, weight: u32, wet: u32) -> Self::Price
        ensures { result ≡ rate self.now weight wet };

    ghost low: { (t : Self) (weight wet : ℕ) → Self.Price.Price.ops.leq Self.Price.Price.ops.zero (rate t weight wet) ≡ true };

    ghost small: { (t : Self) (weight wet : ℕ) → weight ≤ 1000 → Self.Price.Price.ops.size (rate t weight wet) ≤ 1000 };
}

/// A bend costs the weight of its leg.
#[derive(Clone, Copy, Debug, Default, PartialEq, Eq, PartialOrd, Ord, Hash)]
pub struct PlainTariff;

impl Tariff for PlainTariff {
    type Price = Plain;

    ghost rate = { λ _. plain_rate };

    ghost low = { Prim.search rules };

    ghost small = { Prim.search rules };

    fn bend_price(&self, weight: u32, _wet: u32) -> Plain
        ensures { result ≡ plain_rate weight _wet }
    {
        Plain {
            value: weight as i64,
        }
    }
}

/// A bend costs the weight of its leg, and any bend on a wet leg more than all on dry ones.
#[derive(Clone, Copy, Debug, Default, PartialEq, Eq, PartialOrd, Ord, Hash)]
pub struct RankedTariff;

impl Tariff for RankedTariff {
    type Price = Ranked;

    ghost rate = { λ _. ranked_rate };

    ghost low = { Prim.search rules };

    ghost small = { Prim.search rules };

    fn bend_price(&self, weight: u32, wet: u32) -> Ranked
        ensures { result ≡ ranked_rate weight wet }
    {
        if wet == 1 {
            Ranked {
                first: weight as i64,
                ..Ranked::zero()
            }
        } else {
            Ranked {
                second: weight as i64,
                ..Ranked::zero()
            }
        }
    }
}
