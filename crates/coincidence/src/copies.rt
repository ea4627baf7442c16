// Edges as a word graph.
ghost use Rattle.std.specs.Prelude.{◌≡◌, ℕ, ◌<◌, length, IfOk};

use crate::edges::Edges;
use ports::NoMemory;
use std::alloc::Global;
use word_graph::WordGraph;
use words::Letter;

/// The edges as a word graph of its own. Refused only where memory is wanting.
pub fn word_graph(edges: &Edges, alloc: Global) -> Result<WordGraph, NoMemory>
    ensures { IfOk result (λ g. g ≡ edges.now.graph) }
{
    let letters = edges.letters();
    let nodes = edges.nodes();
    let mut graph = WordGraph::new(alloc, letters, nodes)?;
    for node in 0..nodes {
        for number in 0..letters {
            let letter = Letter::new(number as u8);
            if let Some(to) = edges.target(node, letter) {
                graph.set_target(node, letter, to);
            }
        }
    }
    Ok(graph)
}
