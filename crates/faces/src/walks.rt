// The faces of a cave as tables.
ghost use Rattle.std.specs.Prelude.{◌≡◌, ◌<◌, false, length, pos};
ghost use Rattle.survey.specs.Ends.{ends};
ghost use Rattle.embedding.specs.Rotation.{face_step, face as face_of, faces as faces_of, angle_face as angle_face_of};
ghost use Rattle.embedding.specs.Demands.{source_switch, demand};
ghost use Rattle.embedding.specs.Tables.{Holds};

use crate::{count_faces, face_demand, fill_angle_faces, fill_source_switches};
use cycles::{name_cycles, tally};
use embedding::tables::table;
use pairs::twin;
use rotation::Rotation;

/// A cave in rotation, and the face of each of its ends.
#[derive(Drop)]
pub struct Faces<'a> {
    pub rotation: Rotation<'a>,
    names: [usize; 512],
    ghost full: { length names ≡ 512 },
    ghost named: { Holds 0 (face_of rotation.cave.legs.now) names (ends rotation.cave.legs.now) },
}

// One step of the face walk from each end: out along its leg, and on by the end that follows there.
fn steps(rotation: &Rotation) -> [usize; 512]
    ensures { Holds 0 (face_step rotation.now.cave.legs.now) result (ends rotation.now.cave.legs.now) }
{
    table(rotation.cave.ends(), 0, |e| rotation.next(twin(e)))
}

impl<'a> Faces<'a> {
    /// The faces of a cave, each walked once.
    pub fn new(rotation: Rotation<'a>) -> Faces<'a>
        ensures { result.rotation.cave.legs.now ≡ rotation.entry.cave.legs.now }
    {
        let mut names = [0; 512];
        name_cycles(&steps(&rotation), rotation.cave.ends(), &mut names);
        Faces { rotation, names }
    }

    /// The face of an end, named by the lowest end on it.
    pub fn face(&self, e: usize) -> usize
        requires { e < ends self.now.rotation.cave.legs.now }
        ensures named { result ≡ face_of self.now.rotation.cave.legs.now e }
        ensures within { result < ends self.now.rotation.cave.legs.now }
    {
        self.names[e]
    }

    /// The number of faces.
    pub fn count(&self) -> usize
        ensures { result ≡ faces_of self.now.rotation.cave.legs.now }
    {
        count_faces(self.rotation.cave.legs, &self.names)
    }

    /// The face in which the angle of an end lies: that of the end after it.
    pub fn angle_face(&self, e: usize) -> usize
        requires { e < ends self.now.rotation.cave.legs.now }
        ensures named { result ≡ angle_face_of self.now.rotation.cave.legs.now e }
        ensures within { result < ends self.now.rotation.cave.legs.now }
    {
        self.face(self.rotation.next(e))
    }

    /// The angle of an end is a source switch.
    pub fn is_source_switch(&self, e: usize) -> bool
        requires { e < ends self.now.rotation.cave.legs.now }
        ensures { result ≡ source_switch self.now.rotation.cave.legs.now e }
    {
        (e % 2 == 0) & (self.rotation.next(e) % 2 == 0)
    }

    /// The demand of each face, at the end that names it, given the face that is the outer one.
    pub fn demands(&self, outer: usize) -> [i64; 512]
        ensures { Holds (pos 0) (demand self.now.rotation.cave.legs.now outer) result (ends self.now.rotation.cave.legs.now) }
    {
        let n = self.rotation.cave.ends();
        let legs = self.rotation.cave.legs;
        let nexts = self.rotation.nexts();
        let mut angles = [0; 512];
        let mut switches = [false; 512];
        let mut tallies = [0; 512];
        fill_angle_faces(legs, nexts, &self.names, &mut angles);
        fill_source_switches(legs, nexts, &mut switches);
        tally(&angles, &switches, n, &mut tallies);
        table(n, 0, |f| face_demand(tallies[f], f == outer))
    }

    /// The demand of the face of one end, where the face of another is the outer one.
    pub fn demand_of(&self, outer: usize, end: usize) -> i64
        requires outer { outer < ends self.now.rotation.cave.legs.now }
        requires inside { end < ends self.now.rotation.cave.legs.now }
        ensures { result ≡ demand self.now.rotation.cave.legs.now (face_of self.now.rotation.cave.legs.now outer) (face_of self.now.rotation.cave.legs.now end) }
    {
        let demands = self.demands(self.face(outer));
        demands[self.face(end)]
    }
}
