// Directions round the stations: which are sources, which are sinks, and which are not bimodal.
#![tactic(auto)]

ghost use Rattle.std.specs.Prelude.{◌≡◌, ◌≤◌, false, length, nat_eq};
ghost use Rattle.survey.specs.Ends.{ends, station};
ghost use Rattle.embedding.specs.Walks.{below};
ghost use Rattle.embedding.specs.Demands.{source, sink, turns_over};
ghost use Rattle.embedding.specs.Plans.{first_mixed as first_mixed_of};
ghost use Rattle.embedding.specs.Tables.{Holds};
ghost use Rattle.directions.specs.Tallies.{chosen_at};

use cycles::tally;
use embedding::cave::Cave;
use embedding::tables::table;
use rotation::Rotation;

// Counts the chosen ends by their stations, into places that hold 0. The caller lends the table, so that it stands once.
fn tally_stations(cave: &Cave, chosen: &[bool], tallies: &mut [usize])
    requires room { ends cave.now.legs.now ≤ length chosen.now }
    requires long { length tallies.old ≡ 10000 }
    requires blank { Holds 0 (λ _. 0) tallies.old 10000 }
    ensures { Holds 0 (chosen_at cave.now.legs.now chosen.now) tallies.new 10000 }
{
    tally(&cave.stations(), chosen, cave.ends(), tallies);
}

// Which ends stand where no end is chosen.
fn without(cave: &Cave, chosen: &[bool]) -> [bool; 512]
    requires { ends cave.now.legs.now ≤ length chosen.now }
    ensures { Holds false (λ e. nat_eq (chosen_at cave.now.legs.now chosen.now (station cave.now.legs.now e)) 0) result (ends cave.now.legs.now) }
{
    let mut tallies = [0; 10000];
    tally_stations(cave, chosen, &mut tallies);
    table(cave.ends(), false, |e| {
        tallies[cave.station(e) as usize] == 0
    })
}

/// Which ends stand at a source: a station all of whose ends are outgoing.
pub fn sources(cave: &Cave) -> [bool; 512]
    ensures { Holds false (source cave.now.legs.now) result (ends cave.now.legs.now) }
{
    let incoming: [bool; 512] = table(cave.ends(), false, |e| e % 2 == 1);
    without(cave, &incoming)
}

/// Which ends stand at a sink: a station all of whose ends are incoming.
pub fn sinks(cave: &Cave) -> [bool; 512]
    ensures { Holds false (sink cave.now.legs.now) result (ends cave.now.legs.now) }
{
    let outgoing: [bool; 512] = table(cave.ends(), false, |e| e % 2 == 0);
    without(cave, &outgoing)
}

// After which ends the direction changes.
fn turns(rotation: &Rotation) -> [bool; 512]
    ensures { Holds false (turns_over rotation.now.cave.legs.now) result (ends rotation.now.cave.legs.now) }
{
    table(rotation.cave.ends(), false, |e| {
        e % 2 != rotation.next(e) % 2
    })
}

/// The lowest end whose station is not bimodal, if there is one.
pub fn first_mixed(rotation: &Rotation) -> Option<usize>
    ensures { result ≡ below (ends rotation.now.cave.legs.now) (first_mixed_of rotation.now.cave.legs.now) }
{
    let cave = rotation.cave;
    let mut changes = [0; 10000];
    tally_stations(&cave, &turns(rotation), &mut changes);
    (0..cave.ends()).find(|&e| changes[cave.station(e) as usize] > 2)
}
