// Accepted changes played again into a list of legs.
#![tactic(auto)]

ghost use Rattle.std.specs.Prelude.{◌≡◌, ◌+◌, ◌<◌, ◌≤◌, true, length, take};
ghost use Rattle.survey.specs.Model.{strike_legs, amend_legs};
ghost use Rattle.replay.specs.Replay.{changed, replayed};

use leg_slice;
use survey::checks;
use survey::leg::{Attributes, Change, Leg};

// Strikes a range of the first `count` legs, if it is one: how many legs are left in front.
fn strike(legs: &mut [Leg], count: usize, start: usize, end: usize) -> usize
    requires { count ≤ length legs.old }
    ensures within { result ≤ count }
    ensures list { take result legs.new ≡ strike_legs (take count legs.old) true start end }
{
    if checks::check_strike(count, true, start, end).is_err() {
        return count;
    }
    leg_slice::strike(legs, count, start, end);
    count - (end - start)
}

// Amends a range of the first `count` legs, if it is one.
fn amend(legs: &mut [Leg], count: usize, start: usize, end: usize, attributes: Attributes)
    requires { count ≤ length legs.old }
    ensures { take count legs.new ≡ amend_legs (take count legs.old) true start end attributes }
{
    if checks::check_amend(count, true, start, end, attributes).is_ok() {
        leg_slice::amend(legs, start, end, attributes);
    }
}

// Makes one change among the first `count` legs: how many there are then.
fn apply(legs: &mut [Leg], count: usize, change: Change) -> usize
    requires { count < length legs.old }
    ensures within { result ≤ count + 1 }
    ensures list { take result legs.new ≡ changed (take count legs.old) change }
{
    match change {
        Change::Enter(leg) => {
            legs[count] = leg;
            count + 1
        }
        Change::Strike { start, end } => strike(legs, count, start, end),
        Change::Amend {
            start,
            end,
            attributes,
        } => {
            amend(legs, count, start, end, attributes);
            count
        }
    }
}

/// Plays the changes into the front of `legs`, in one pass: how many legs that makes.
pub fn replay(changes: &[Change], legs: &mut [Leg]) -> usize
    requires { length changes.now ≤ length legs.old }
    ensures within { result ≤ length changes.now }
    ensures list { take result legs.new ≡ replayed changes.now }
{
    let mut count = 0;
    for change in changes {
        count = apply(legs, count, *change);
    }
    count
}
