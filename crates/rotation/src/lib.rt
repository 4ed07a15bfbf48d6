// Rotations: for each end of a cave, the one that follows it clockwise round its station.
#![tactic(auto)]

ghost use Rattle.std.specs.Prelude.{◌≡◌, ◌<◌, ◌≤◌, length, None};
ghost use Rattle.survey.specs.Ends.{ends, station, stations as stations_of};
ghost use Rattle.embedding.specs.Rotation.{gap, next};
ghost use Rattle.embedding.specs.Tables.{Holds};
ghost use Rattle.rotation.specs.Chains.{last_end, end_before};

mod rotations;

use embedding::cave::Cave;
pub use embedding::ends;
pub use rotations::Rotation;

/// The clockwise gap from one bearing to another, 1 to 3,600.
pub fn bearing_gap(from: u32, to: u32) -> u32
    requires { (from < 3600) × (to < 3600) }
    ensures { result ≡ gap from to }
{
    if from < to {
        to - from
    } else {
        to + 3600 - from
    }
}

// Links each end to the end before it at its station, in 16 bits to keep the tables small, and leaves the last end of each station in places that hold none.
fn link(cave: &Cave, lasts: &mut [Option<u16>]) -> [Option<u16>; 512]
    requires long { 10000 ≤ length lasts.old }
    requires blank { Holds None (λ _. None) lasts.old 10000 }
    ensures long { length lasts.new ≡ length lasts.old }
    ensures lasts { Holds None (last_end cave.now.legs.now (ends cave.now.legs.now)) lasts.new 10000 }
    ensures befores { Holds None (end_before cave.now.legs.now) result (ends cave.now.legs.now) }
{
    let mut befores = [None; 512];
    // By end: its number is what is stored.
    for e in 0..cave.ends() {
        let s = cave.station(e) as usize;
        befores[e] = lasts[s];
        lasts[s] = Some(e as u16);
    }
    befores
}

// The end that follows e, found along the chain of its station.
fn nearest(cave: &Cave, befores: &[Option<u16>], last: Option<u16>, e: usize) -> usize
    requires linked { Holds None (end_before cave.now.legs.now) befores.now (ends cave.now.legs.now) }
    requires room { ends cave.now.legs.now ≤ length befores.now }
    requires inside { e < ends cave.now.legs.now }
    requires last { last ≡ last_end cave.now.legs.now (ends cave.now.legs.now) (station cave.now.legs.now e) }
    ensures { result ≡ next cave.now.legs.now e }
{
    let from = cave.bearing(e);
    let mut best = e;
    let mut least = 3600;
    let mut rest = last;
    while let Some(end) = rest {
        let k = end as usize;
        let gap = bearing_gap(from, cave.bearing(k));
        if gap < least {
            best = k;
            least = gap;
        }
        rest = befores[k];
    }
    best
}

// The ends that have none before them at their station.
fn count_firsts(cave: &Cave, befores: &[Option<u16>]) -> usize
    requires linked { Holds None (end_before cave.now.legs.now) befores.now (ends cave.now.legs.now) }
    requires room { ends cave.now.legs.now ≤ length befores.now }
    ensures { result ≡ stations_of cave.now.legs.now }
{
    (0..cave.ends()).filter(|&e| befores[e].is_none()).count()
}

/// The number of stations.
pub fn count_stations(cave: &Cave) -> usize
    ensures { result ≡ stations_of cave.now.legs.now }
{
    let mut lasts = [None; 10000];
    let befores = link(cave, &mut lasts);
    count_firsts(cave, &befores)
}
