// Numbers in pairs: 2k and 2k + 1, as the two ends of a leg, or the two sides of an arc.
#![tactic(auto)]

ghost use Rattle.std.specs.Prelude.{◌≡◌};
ghost use Rattle.pairs.specs.Pairs.{twin as twin_of};

/// The other number of a pair.
pub fn twin(i: usize) -> usize
    ensures { result ≡ twin_of i }
{
    if i % 2 == 0 { i + 1 } else { i - 1 }
}
