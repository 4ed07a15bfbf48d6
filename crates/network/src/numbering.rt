// The numbers of the nodes: faces by the ends that name them, then sources and sinks by their lowest ends.
ghost use Rattle.std.specs.Prelude.{◌≡◌, ◌≤◌, false, length};
ghost use Rattle.survey.specs.Ends.{ends};
ghost use Rattle.embedding.specs.Rotation.{faces as faces_of};
ghost use Rattle.embedding.specs.Tables.{Holds};
ghost use Rattle.shape.specs.Shapes.{switch};
ghost use Rattle.shape.specs.Nodes.{face_node, lowest_at, switch_node, nodes as nodes_of};
ghost use Rattle.network.specs.Tables.{rank, lowest_from};

use directions::{sinks, sources};
use embedding::cave::Cave;
use embedding::tables::table;
use faces::Faces;

// For each number below n how many marked ones are lower; and how many are marked in all.
fn fill_ranks(marks: &[bool], n: usize, ranks: &mut [usize]) -> usize
    requires marked { n ≤ length marks.now }
    requires room { n ≤ length ranks.old }
    ensures each { Holds 0 (rank marks.now) ranks.new n }
    ensures total { result ≡ rank marks.now n }
{
    let mut total = 0;
    // By number: the total runs on from place to place.
    for k in 0..n {
        ranks[k] = total;
        if marks[k] {
            total += 1;
        }
    }
    total
}

/// The node of the face of each end.
pub fn number_faces(faces: &Faces) -> [u16; 512]
    ensures { Holds 0 (face_node faces.now.rotation.cave.legs.now) result (ends faces.now.rotation.cave.legs.now) }
{
    let n = faces.rotation.cave.ends();
    let marks: [bool; 512] = table(n, false, |e| faces.face(e) == e);
    let mut ranks = [0; 512];
    fill_ranks(&marks, n, &mut ranks);
    table(n, 0, |e| ranks[faces.face(e)] as u16)
}

/// Which ends stand at a source or a sink.
pub fn switches(cave: &Cave) -> [bool; 512]
    ensures { Holds false (switch cave.now.legs.now) result (ends cave.now.legs.now) }
{
    let sources = sources(cave);
    let sinks = sinks(cave);
    table(cave.ends(), false, |e| sources[e] | sinks[e])
}

// The lowest end of each station, into places that hold the number of ends. A station without ends, which nobody asks for,
// keeps that number: an Option would only have to be unwrapped. The caller lends the table, so that it stands once.
fn fill_firsts(cave: &Cave, firsts: &mut [usize])
    requires all { length firsts.old ≡ 10000 }
    requires blank { Holds 0 (λ _. ends cave.now.legs.now) firsts.old 10000 }
    ensures { Holds 0 (lowest_from cave.now.legs.now 0) firsts.new 10000 }
{
    // By end, the last first, so that the lowest stays.
    for e in (0..cave.ends()).rev() {
        firsts[cave.station(e) as usize] = e;
    }
}

// The lowest end at the station of each end.
fn lowest(cave: &Cave) -> [usize; 512]
    ensures { Holds 0 (lowest_at cave.now.legs.now) result (ends cave.now.legs.now) }
{
    let n = cave.ends();
    let mut firsts = [n; 10000];
    fill_firsts(cave, &mut firsts);
    table(n, 0, |e| firsts[cave.station(e) as usize])
}

/// The node of the source or sink at which each end stands, and the number of all nodes, given the number of faces.
pub fn number_switches(cave: &Cave, switches: &[bool], faces: usize) -> ([u16; 512], usize)
    requires switches { Holds false (switch cave.now.legs.now) switches.now (ends cave.now.legs.now) }
    requires places { ends cave.now.legs.now ≤ length switches.now }
    requires faces { faces ≡ faces_of cave.now.legs.now }
    ensures nodes { Holds 0 (switch_node cave.now.legs.now) result.0 (ends cave.now.legs.now) }
    ensures count { result.1 ≡ nodes_of cave.now.legs.now }
{
    let n = cave.ends();
    let lowest = lowest(cave);
    let marks: [bool; 512] = table(n, false, |e| (lowest[e] == e) & switches[e]);
    let mut ranks = [0; 512];
    let count = fill_ranks(&marks, n, &mut ranks);
    let nodes = table(n, 0, |e| (faces + ranks[lowest[e]]) as u16);
    (nodes, faces + count)
}
