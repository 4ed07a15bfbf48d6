// The nodes of a plan's network: its faces, then its sources and sinks.
ghost use Rattle.std.specs.Prelude.{◌≡◌, ◌<◌, false, length};
ghost use Rattle.survey.specs.Ends.{ends};
ghost use Rattle.embedding.specs.Tables.{Holds};
ghost use Rattle.shape.specs.Shapes.{switch};
ghost use Rattle.shape.specs.Nodes.{face_node, switch_node, nodes as nodes_of};

use crate::numbering::{number_faces, number_switches, switches};
use faces::Faces;

/// The faces of a cave, and the number of each node: that of the face of each end, and that of the source or sink at
/// which it stands, if it does.
#[derive(Drop)]
pub struct Nodes<'a> {
    pub faces: Faces<'a>,
    face_nodes: [u16; 512],
    switches: [bool; 512],
    switch_nodes: [u16; 512],
    pub count: usize,
    ghost full_faces: { length face_nodes ≡ 512 },
    ghost full_switches: { length switches ≡ 512 },
    ghost full_nodes: { length switch_nodes ≡ 512 },
    ghost by_face: { Holds 0 (face_node faces.rotation.cave.legs.now) face_nodes (ends faces.rotation.cave.legs.now) },
    ghost switched: { Holds false (switch faces.rotation.cave.legs.now) switches (ends faces.rotation.cave.legs.now) },
    ghost by_switch: { Holds 0 (switch_node faces.rotation.cave.legs.now) switch_nodes (ends faces.rotation.cave.legs.now) },
    ghost counted: { count ≡ nodes_of faces.rotation.cave.legs.now },
}

impl<'a> Nodes<'a> {
    /// The nodes over these faces.
    pub fn new(faces: Faces<'a>) -> Nodes<'a>
        ensures { result.faces.rotation.cave.legs.now ≡ faces.entry.rotation.cave.legs.now }
    {
        let cave = faces.rotation.cave;
        let switches = switches(&cave);
        let face_nodes = number_faces(&faces);
        let (switch_nodes, count) = number_switches(&cave, &switches, faces.count());
        Nodes {
            faces,
            face_nodes,
            switches,
            switch_nodes,
            count,
        }
    }

    /// The node of the face of an end.
    pub fn of_face(&self, e: usize) -> u16
        requires { e < ends self.now.faces.rotation.cave.legs.now }
        ensures { result ≡ face_node self.now.faces.rotation.cave.legs.now e }
    {
        self.face_nodes[e]
    }

    /// An end stands at a source or a sink.
    pub fn is_switch(&self, e: usize) -> bool
        requires { e < ends self.now.faces.rotation.cave.legs.now }
        ensures { result ≡ switch self.now.faces.rotation.cave.legs.now e }
    {
        self.switches[e]
    }

    /// The node of the source or sink at which an end stands.
    pub fn of_switch(&self, e: usize) -> u16
        requires { e < ends self.now.faces.rotation.cave.legs.now }
        ensures { result ≡ switch_node self.now.faces.rotation.cave.legs.now e }
    {
        self.switch_nodes[e]
    }
}
