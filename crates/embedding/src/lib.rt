// The embedding of a cave in the plane: ends in rotation round their stations, and the faces between them.
#![tactic(auto)]

ghost use Rattle.embedding.specs.Laws.{EmbeddingStands};

pub mod cave;
pub mod ends;
pub mod outer;
pub mod tables;

/// For every list that a survey can hold: rotations permute the ends of each station, face walks close and part the
/// ends into faces that their names tell apart, each angle lies in one face, and joined legs are found.
pub fn embedding_stands()
    ensures { EmbeddingStands }
{}
