// The ends of a list of legs.
ghost use Rattle.std.specs.Prelude.{◌≡◌, ◌<◌, ◌≤◌, length};
ghost use Rattle.survey.specs.Ends.{ends, station, bearing};
ghost use Rattle.embedding.specs.Tables.{Holds};

use crate::tables::fill;
use survey::leg::Leg;

/// The station at which an end stands.
pub fn end_station(legs: &[Leg], e: usize) -> u32
    requires { e < ends legs.now }
    ensures { result ≡ station legs.now e }
{
    let leg = &legs[e / 2];
    if e % 2 == 0 { leg.from } else { leg.to }
}

/// The bearing of an end, seen from its station.
pub fn end_bearing(legs: &[Leg], e: usize) -> u32
    requires { e < ends legs.now }
    ensures { result ≡ bearing legs.now e }
{
    let leg = &legs[e / 2];
    if e % 2 == 0 {
        leg.bearing
    } else {
        leg.far_bearing()
    }
}

/// The station of each end, as a table.
pub fn fill_stations(legs: &[Leg], stations: &mut [usize])
    requires few { length legs.now ≤ 256 }
    requires space { ends legs.now ≤ length stations.old }
    ensures { Holds 0 (station legs.now) stations.new (ends legs.now) }
{
    fill(stations, 2 * legs.len(), |e| end_station(legs, e) as usize);
}
