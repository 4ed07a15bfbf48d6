// The rotation of a cave as a table.
ghost use Rattle.std.specs.Prelude.{◌≡◌, ◌<◌, length};
ghost use Rattle.survey.specs.Ends.{ends};
ghost use Rattle.embedding.specs.Rotation.{next as next_of};
ghost use Rattle.embedding.specs.Tables.{Holds};

use crate::{link, nearest};
use embedding::cave::Cave;
use embedding::tables::table;

/// A cave, and for each of its ends the one that follows it at its station.
#[derive(Drop)]
pub struct Rotation<'a> {
    pub cave: Cave<'a>,
    nexts: [usize; 512],
    ghost full: { length nexts ≡ 512 },
    ghost follows: { Holds 0 (next_of cave.legs.now) nexts (ends cave.legs.now) },
}

impl<'a> Rotation<'a> {
    /// The rotation of a cave. A station of d ends costs d × d comparisons.
    pub fn new(cave: Cave<'a>) -> Rotation<'a>
        ensures { result.cave.legs.now ≡ cave.entry.legs.now }
    {
        let mut lasts = [None; 10000];
        let befores = link(&cave, &mut lasts);
        let nexts = table(cave.ends(), 0, |e| {
            nearest(&cave, &befores, lasts[cave.station(e) as usize], e)
        });
        Rotation { cave, nexts }
    }

    /// The end that follows another.
    pub fn next(&self, e: usize) -> usize
        requires { e < ends self.now.cave.legs.now }
        ensures follows { result ≡ next_of self.now.cave.legs.now e }
        ensures within { result < ends self.now.cave.legs.now }
    {
        self.nexts[e]
    }

    /// The end that follows each end, as a table.
    pub fn nexts(&self) -> &[usize]
        ensures follow { Holds 0 (next_of self.now.cave.legs.now) result.now (ends self.now.cave.legs.now) }
        ensures long { length result.now ≡ 512 }
    {
        &self.nexts
    }
}
