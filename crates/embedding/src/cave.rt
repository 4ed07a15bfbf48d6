// The legs of a cave, and the ends of its legs.
ghost use Rattle.std.specs.Prelude.{◌≡◌, ◌<◌, ◌≤◌, true, length};
ghost use Rattle.survey.specs.Ends.{ends as ends_of, station as station_of, bearing as bearing_of};
ghost use Rattle.survey.specs.Model.{valid_legs};
ghost use Rattle.embedding.specs.Tables.{Holds};

use crate::ends::{end_bearing, end_station, fill_stations};
use survey::leg::Leg;

/// A list of at most 256 legs that a survey can hold.
#[derive(Clone, Copy, Debug)]
pub struct Cave<'a> {
    pub legs: &'a [Leg],
    ghost valid: { valid_legs legs.now ≡ true },
    ghost few: { length legs.now ≤ 256 },
}

impl<'a> Cave<'a> {
    /// The number of ends.
    pub fn ends(&self) -> usize
        ensures { result ≡ ends_of self.now.legs.now }
    {
        2 * self.legs.len()
    }

    /// The station at which an end stands.
    pub fn station(&self, e: usize) -> u32
        requires { e < ends_of self.now.legs.now }
        ensures at { result ≡ station_of self.now.legs.now e }
        ensures within { result < 10000 }
    {
        end_station(self.legs, e)
    }

    /// The bearing of an end, seen from its station.
    pub fn bearing(&self, e: usize) -> u32
        requires { e < ends_of self.now.legs.now }
        ensures at { result ≡ bearing_of self.now.legs.now e }
        ensures within { result < 3600 }
    {
        end_bearing(self.legs, e)
    }

    /// The station of each end, as a table.
    pub fn stations(&self) -> [usize; 512]
        ensures { Holds 0 (station_of self.now.legs.now) result (ends_of self.now.legs.now) }
    {
        let mut stations = [0; 512];
        fill_stations(self.legs, &mut stations);
        stations
    }
}
