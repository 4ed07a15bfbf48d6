// Tables over plain numbers: the cycles of a permutation, and tallies by key.
#![tactic(auto)]

ghost use Rattle.std.specs.Prelude.{◌≡◌, ℕ, ◌+◌, ◌^◌, ◌<◌, ◌≤◌, length, slice_index, slice_set};
ghost use Rattle.embedding.specs.Laws.{Permutes};
ghost use Rattle.embedding.specs.Tables.{Holds};
ghost use Rattle.cycles.specs.Cycles.{at as at_of, cycle_name, named_below, tallied};

use embedding::tables::fill;

// Gives a number its name, and tells the next one on its cycle.
fn name_one(steps: &[usize], names: &mut [usize], at: usize, name: usize) -> usize
    requires stepped { at < length steps.now }
    requires room { at < length names.old }
    ensures next { result ≡ slice_index steps.now at }
    ensures named { names.new ≡ slice_set names.old at name }
{
    names[at] = name;
    steps[at]
}

// Gives all numbers on the cycle of e the name e, where no lower number is on it.
fn name_cycle(steps: &[usize], n: usize, names: &mut [usize], e: usize)
    requires permutes { Permutes (at_of steps.now) n }
    requires stepped { n ≤ length steps.now }
    requires room { n ≤ length names.old }
    requires inside { e < n }
    requires lower { Holds 0 (named_below steps.now n e) names.old n }
    requires unnamed { slice_index names.old e ≡ n }
    ensures { Holds 0 (named_below steps.now n (e + 1)) names.new n }
{
    let mut at = e;
    // The count only bounds the walk, so that it is seen to end.
    for k in 0..n {
        at = name_one(steps, names, at, e);
        if at == e {
            return;
        }
    }
}

/// Names each number below n by the least number of its cycle; each cycle is walked once.
pub fn name_cycles(steps: &[usize], n: usize, names: &mut [usize])
    requires permutes { Permutes (at_of steps.now) n }
    requires stepped { n ≤ length steps.now }
    requires room { n ≤ length names.old }
    ensures { Holds 0 (cycle_name steps.now n) names.new n }
{
    // No name yet is n: each number has a name at the end, and an Option would stay in the type of the table.
    fill(names, n, |_| n);
    // By number, since a walk writes the names of other numbers.
    for e in 0..n {
        if names[e] == n {
            name_cycle(steps, n, names, e);
        }
    }
}

// One more at a key.
fn count_one(tallies: &mut [usize], v: usize)
    requires inside { v < length tallies.old }
    requires small { slice_index tallies.old v < 2 ^ 63 }
    ensures { tallies.new ≡ slice_set tallies.old v (slice_index tallies.old v + 1) }
{
    tallies[v] += 1;
}

/// Counts the chosen numbers below n by their keys, into places that hold 0.
pub fn tally(keys: &[usize], chosen: &[bool], n: usize, tallies: &mut [usize])
    requires keyed { n ≤ length keys.now }
    requires chosen { n ≤ length chosen.now }
    requires inside { (k : ℕ) → k < n → slice_index keys.now k < length tallies.old }
    requires blank { Holds 0 (λ _. 0) tallies.old (length tallies.old) }
    ensures { Holds 0 (tallied keys.now chosen.now n) tallies.new (length tallies.old) }
{
    // By number, as the contract counts; both slices may be longer than n.
    for k in 0..n {
        if chosen[k] {
            count_one(tallies, keys[k]);
        }
    }
}
