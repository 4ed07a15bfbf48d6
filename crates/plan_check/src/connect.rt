// Which legs are joined to leg 0: visits spread over the stations until nothing changes.
ghost use Rattle.std.specs.Prelude.{◌≡◌, ◌<◌, true, false, not, length, slice_set};
ghost use Rattle.std.specs.Bool.{beq};
ghost use Rattle.survey.specs.Model.{valid_legs};
ghost use Rattle.embedding.specs.Walks.{below};
ghost use Rattle.embedding.specs.Plans.{first_apart as first_apart_of};
ghost use Rattle.plan_check.specs.Visits.{visited_at, Sound, Closed, open_legs};

use survey::leg::Leg;

// Just one of the two stations of a leg is visited.
fn is_half_visited(visited: &[bool], leg: &Leg) -> bool
    requires { (leg.now.from < length visited.now) × (leg.now.to < length visited.now) }
    ensures { result ≡ not (beq (visited_at visited.now leg.now.from) (visited_at visited.now leg.now.to)) }
{
    visited[leg.from as usize] != visited[leg.to as usize]
}

// Visits both stations of a leg.
fn visit_both(visited: &mut [bool], leg: &Leg)
    requires { (leg.now.from < length visited.old) × (leg.now.to < length visited.old) }
    ensures { visited.new ≡ slice_set (slice_set visited.old leg.now.from true) leg.now.to true }
{
    visited[leg.from as usize] = true;
    visited[leg.to as usize] = true;
}

// Visits both stations of each leg that has one of them visited; false where there is none.
fn spread(legs: &[Leg], visited: &mut [bool]) -> bool
    requires valid { valid_legs legs.now ≡ true }
    requires long { length visited.old ≡ 10000 }
    requires sound { Sound legs.now visited.old }
    ensures sound { Sound legs.now visited.new }
    ensures more { result ≡ true → open_legs legs.now visited.new < open_legs legs.now visited.old }
    ensures done { result ≡ false → Closed legs.now visited.new }
{
    let mut changed = false;
    for leg in legs {
        if is_half_visited(visited, leg) {
            visit_both(visited, leg);
            changed = true;
        }
    }
    changed
}

// The stations of all legs that are joined to leg 0 are visited.
fn visit_joined(legs: &[Leg]) -> [bool; 10000]
    requires valid { valid_legs legs.now ≡ true }
    requires some { 0 < length legs.now }
    ensures sound { Sound legs.now result }
    ensures closed { Closed legs.now result }
{
    let mut visited = [false; 10000];
    visit_both(&mut visited, &legs[0]);
    while spread(legs, &mut visited) {}
    visited
}

/// The lowest leg that is not joined to leg 0, if there is one.
pub fn first_apart(legs: &[Leg]) -> Option<usize>
    requires valid { valid_legs legs.now ≡ true }
    requires some { 0 < length legs.now }
    ensures { result ≡ below (length legs.now) (first_apart_of legs.now) }
{
    let visited = visit_joined(legs);
    (0..legs.len()).find(|&i| !visited[legs[i].from as usize])
}
