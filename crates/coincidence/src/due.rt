// What is left to draw from relations and pairs.
use words::Letter;

// What a relation or pair asks for: an edge that is missing, as its node, its letter and where it
// leads; or two nodes that are one, behind the node and letter at which the two sides end.
#[derive(Clone, Copy)]
pub enum Due {
    Nothing,
    Edge(usize, Letter, usize),
    Join(usize, Letter, usize, usize),
}
