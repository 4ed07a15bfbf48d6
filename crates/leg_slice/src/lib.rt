// Ranges of legs struck and amended in place, in the front of a slice.
#![tactic(auto)]

ghost use Rattle.std.specs.Prelude.{◌≡◌, ◌-◌, ◌≤◌, map, length, take};
ghost use Rattle.survey.specs.Model.{struck, amended, with_attributes};

use survey::leg::{Attributes, Leg};

/// Up to so many legs behind a range are copied down faster than they are turned past it.
const FEW: usize = 512;

/// Removes legs `start` to `end - 1` of the first `count`: the legs after them move down.
pub fn strike(legs: &mut [Leg], count: usize, start: usize, end: usize)
    requires { (start ≤ end) × ((end ≤ count) × (count ≤ length legs.old)) }
    ensures { take (count - (end - start)) legs.new ≡ struck (take count legs.old) start end }
{
    // Either way the work grows with the legs behind the range; to turn a short range past many takes less than to copy them.
    let (range, behind) = (end - start, count - end);
    let turns = range.max(FEW) < behind;
    if turns {
        legs[start..count].rotate_left(range);
    } else {
        legs.copy_within(end..count, start);
    }
}

// Sets the attributes of each leg.
fn amend_all(legs: &mut [Leg], attributes: Attributes)
    ensures { legs.new ≡ map (with_attributes attributes) legs.old }
{
    for leg in legs {
        *leg = leg.with_attributes(attributes);
    }
}

/// Sets the attributes of legs `start` to `end - 1`.
pub fn amend(legs: &mut [Leg], start: usize, end: usize, attributes: Attributes)
    requires { (start ≤ end) × (end ≤ length legs.old) }
    ensures { legs.new ≡ amended legs.old start end attributes }
{
    amend_all(&mut legs[start..end], attributes);
}
