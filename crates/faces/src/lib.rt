// Faces of an embedding: the face of each end, and the demand of each face.
#![tactic(auto)]

ghost use Rattle.std.specs.Prelude.{◌≡◌, ◌<◌, ◌≤◌, false, ◌&&◌, length, pos, ◌+ℤ◌, ◌-ℤ◌, if◌then◌else◌, ◌==◌, slice_index};
ghost use Rattle.survey.specs.Ends.{ends, outgoing};
ghost use Rattle.embedding.specs.Rotation.{next, face, faces as faces_of, angle_face};
ghost use Rattle.embedding.specs.Demands.{source_switch};
ghost use Rattle.embedding.specs.Tables.{Holds};

mod walks;

use embedding::tables::fill;
use survey::leg::Leg;
pub use walks::Faces;

// The end names its face.
fn names_itself(faces: &[usize], e: usize) -> bool
    requires { e < length faces.now }
    ensures { result ≡ (slice_index faces.now e == e) }
{
    faces[e] == e
}

/// The number of faces, given the face of each end.
pub fn count_faces(legs: &[Leg], faces: &[usize]) -> usize
    requires few { length legs.now ≤ 256 }
    requires named { Holds 0 (face legs.now) faces.now (ends legs.now) }
    requires room { ends legs.now ≤ length faces.now }
    ensures { result ≡ faces_of legs.now }
{
    (0..2 * legs.len())
        .filter(|&e| names_itself(faces, e))
        .count()
}

// The face in which the angle of an end lies: that of the end after it.
fn angle_at(nexts: &[usize], faces: &[usize], e: usize) -> usize
    requires after { e < length nexts.now }
    requires inside { e < length faces.now }
    requires place { slice_index nexts.now e < length faces.now }
    ensures { result ≡ slice_index faces.now (slice_index nexts.now e) }
{
    faces[nexts[e]]
}

/// The face in which the angle of each end lies.
pub fn fill_angle_faces(legs: &[Leg], nexts: &[usize], faces: &[usize], angles: &mut [usize])
    requires few { length legs.now ≤ 256 }
    requires follow { Holds 0 (next legs.now) nexts.now (ends legs.now) }
    requires room { ends legs.now ≤ length nexts.now }
    requires named { Holds 0 (face legs.now) faces.now (ends legs.now) }
    requires places { ends legs.now ≤ length faces.now }
    requires space { ends legs.now ≤ length angles.old }
    ensures { Holds 0 (angle_face legs.now) angles.new (ends legs.now) }
{
    fill(angles, 2 * legs.len(), |e| angle_at(nexts, faces, e));
}

// An end and the one after it are both outgoing.
fn both_outgoing(nexts: &[usize], e: usize) -> bool
    requires { e < length nexts.now }
    ensures { result ≡ (outgoing e && outgoing (slice_index nexts.now e)) }
{
    (e % 2 == 0) & (nexts[e] % 2 == 0)
}

/// Which angles are source switches.
pub fn fill_source_switches(legs: &[Leg], nexts: &[usize], switches: &mut [bool])
    requires few { length legs.now ≤ 256 }
    requires follow { Holds 0 (next legs.now) nexts.now (ends legs.now) }
    requires room { ends legs.now ≤ length nexts.now }
    requires space { ends legs.now ≤ length switches.old }
    ensures { Holds false (source_switch legs.now) switches.new (ends legs.now) }
{
    fill(switches, 2 * legs.len(), |e| both_outgoing(nexts, e));
}

// The demand of a face with so many source switches.
fn face_demand(switches: usize, outer: bool) -> i64
    requires { switches ≤ 512 }
    ensures { result ≡ (if outer then pos switches +ℤ pos 1 else pos switches -ℤ pos 1) }
{
    if outer {
        switches as i64 + 1
    } else {
        switches as i64 - 1
    }
}
