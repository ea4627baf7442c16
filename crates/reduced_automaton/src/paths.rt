// Paths in a graph of which it is known how long they can be.
ghost use Rattle.std.specs.Prelude.{◌≡◌, ◌≤◌, ◌<◌, ◌↔◌, length, map, IsTrue};
ghost use Rattle.theory.specs.Graph.{target as target_of};
ghost use Rattle.reduced_automaton.specs.Automaton.{Allows, AreDepths};
ghost use Rattle.reduced_automaton.specs.Framings.{AreLayers, frame_paths};
ghost use Rattle.reduced_automaton.specs.Paths.{narrowed};
ghost use Rattle.rewriting.specs.Tables.{edges};

use crate::depths::allows;
use crate::frames::Frame;
use rewriting::IndexAutomaton;
use std::marker::Model;
use words::Letter;

/// Paths to the ends of a graph, which contracts see, and of which it is known how long they can
/// be.
pub trait KnownPaths {
    ghost use Rattle.std.specs.Prelude.{◌≡◌, ◌<◌, ◌≤◌, ◌↔◌, ℕ, Option, IsTrue, length};
    ghost use Rattle.theory.specs.Graph.{target as target_of};
    ghost use Rattle.reduced_automaton.specs.Automaton.{Allows};
    ghost use Rattle.reduced_automaton.specs.Paths.{AreIn, GoesOn, Paths};

    /// The paths.
    ghost paths: { Self → Paths };

    /// Up to which length they are known, if not of each length.
    ghost known: { Self → Option ℕ };

    /// How many letters there are.
    fn letters(&self) -> usize
        ensures count { result ≡ (paths self.now).letters }
        ensures few { result ≤ 256 }
        ensures graph { AreIn (paths self.now) };

    /// Where the edge of the letter leads from the node. `None` exactly where there is no such
    /// edge.
    fn target(&self, node: usize, letter: Letter) -> Option<usize>
        ensures { result ≡ target_of (paths self.now).graph node letter };

    /// Whether a word of just so many letters leads from the node to an end.
    fn goes_on(&self, node: usize, count: usize) -> bool
        requires node { node < length (paths self.now).graph }
        requires known { Allows (known self.now) count }
        ensures { IsTrue result ↔ GoesOn (paths self.now) node count };
}

/// All paths of a table, by the greatest length of one from each node.
#[derive(Drop)]
pub struct AllPaths<'a> {
    graph: &'a IndexAutomaton,
    depths: &'a [Option<usize>],
}

impl<'a> Model for AllPaths<'a> {
    ghost use Rattle.std.specs.Prelude.{ℕ, List, Option};
    ghost use Rattle.reduced_automaton.specs.Automaton.{AreDepths};
    ghost use Rattle.rewriting.specs.Tables.{Moves, edges};

    ghost Value = { Moves × List (Option ℕ) };

    ghost view = { λ s. (s.graph.now, s.depths.now) };

    ghost invariant = { λ s. AreDepths s.graph.now.letters (edges s.graph.now) s.depths.now };
}

impl<'a> AllPaths<'a> {
    /// The paths of this table by these lengths.
    pub fn new(graph: &'a IndexAutomaton, depths: &'a [Option<usize>]) -> AllPaths<'a>
        requires { AreDepths graph.now.letters (edges graph.now) depths.now }
        ensures { result ≡ (graph.now, depths.now) }
    {
        AllPaths { graph, depths }
    }
}

impl<'a> KnownPaths for AllPaths<'a> {
    ghost use Rattle.std.specs.Prelude.{None};
    ghost use Rattle.reduced_automaton.specs.Paths.{all_paths};
    ghost use Rattle.rewriting.specs.Tables.{edges};

    ghost paths = { λ s. all_paths s.0.letters (edges s.0) };

    ghost known = { λ s. None };

    fn letters(&self) -> usize {
        self.graph.letters()
    }

    fn target(&self, node: usize, letter: Letter) -> Option<usize> {
        self.graph.target(node, letter)
    }

    fn goes_on(&self, node: usize, count: usize) -> bool {
        let _letters = self.graph.letters();
        let depths = self.depths;
        allows(depths[node], count)
    }
}

/// The node to which the edge of the letter leads. `None` exactly where there is no such edge, or
/// the letter is none of the first `letters`.
pub fn target_within(
    graph: &IndexAutomaton,
    letters: usize,
    node: usize,
    letter: Letter,
) -> Option<usize>
    ensures { result ≡ target_of (narrowed letters (edges graph.now)) node letter }
{
    if letters <= letter.number() {
        return None;
    }
    graph.target(node, letter)
}

/// The paths of a frame, by the layers that have been found.
#[derive(Drop)]
pub struct FramePaths<'a> {
    graph: &'a IndexAutomaton,
    frame: &'a Frame,
    layers: &'a [Vec<bool>],
}

impl<'a> Model for FramePaths<'a> {
    ghost use Rattle.std.specs.Prelude.{◌≤◌, Bool, List, map};
    ghost use Rattle.reduced_automaton.specs.Framings.{AreLayers, frame_paths};
    ghost use Rattle.rewriting.specs.Tables.{Moves, edges};
    ghost use Rattle.reduced_automaton.specs.declared.frames.Frame.{Frame};

    ghost Value = { Moves × Frame × List (List Bool) };

    ghost view = { λ s. (s.graph.now, s.frame.now, map (λ v. v.items) s.layers.now) };

    ghost invariant = { λ s. (s.frame.now.letters ≤ s.graph.now.letters)
        × AreLayers (frame_paths (edges s.graph.now) s.frame.now)
        (map (λ v. v.items) s.layers.now) };
}

impl<'a> FramePaths<'a> {
    /// The paths of this frame by these layers.
    pub fn new(
        graph: &'a IndexAutomaton,
        frame: &'a Frame,
        layers: &'a [Vec<bool>],
    ) -> FramePaths<'a>
        requires few { frame.now.letters ≤ graph.now.letters }
        requires layers { AreLayers (frame_paths (edges graph.now) frame.now)
            (map (λ v. v.items) layers.now) }
        ensures { result ≡ (graph.now, frame.now, map (λ v. v.items) layers.now) }
    {
        FramePaths {
            graph,
            frame,
            layers,
        }
    }
}

impl<'a> KnownPaths for FramePaths<'a> {
    ghost use Rattle.std.specs.Prelude.{◌-◌, length, Some};
    ghost use Rattle.reduced_automaton.specs.Framings.{frame_paths};
    ghost use Rattle.rewriting.specs.Tables.{edges};

    ghost paths = { λ s. frame_paths (edges s.0) s.1 };

    ghost known = { λ s. Some (length s.2 - 1) };

    fn letters(&self) -> usize {
        let _letters = self.graph.letters();
        self.frame.letters
    }

    fn target(&self, node: usize, letter: Letter) -> Option<usize> {
        target_within(self.graph, self.frame.letters, node, letter)
    }

    fn goes_on(&self, node: usize, count: usize) -> bool {
        let layers = self.layers;
        layers[count].as_slice()[node]
    }
}
