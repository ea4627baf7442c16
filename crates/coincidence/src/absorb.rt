// One node becomes another, edge by edge.
ghost use Rattle.std.specs.Prelude.{◌≡◌, ℕ, ◌<◌, length, OnOk};
ghost use Rattle.coincidence.specs.Absorbing.{IsMerge, IsRedirected, IsMoved, IsAbsorbed, KeepsRest, absorbing_of};

use crate::cosets::Cosets;
use ports::NoMemory;
use words::Letter;

// Two nodes that become one: the one that is lost, and the one that is kept in its place.
#[derive(Clone, Copy)]
pub struct Merge {
    pub lost: usize,
    pub kept: usize,
}

impl Cosets {
    // The edges of the letter into the lost node lead to the one that is kept. Refused only where
    // memory is wanting.
    fn redirect(&mut self, merge: Merge, letter: Letter) -> Result<(), NoMemory>
        requires { IsMerge self.old.edges.graph merge }
        ensures ok { OnOk result
            (IsRedirected (absorbing_of self.old) (absorbing_of self.new) merge letter) }
        ensures rest { OnOk result (KeepsRest self.old self.new) }
    {
        while let Some(source) = self.edges.first_source(merge.lost, letter) {
            let _letters = self.edges.letters();
            self.pending.push_edge(source, letter)?;
            self.edges.remove_edge(source, letter);
            self.edges.set_edge(source, letter, merge.kept);
        }
        let _letters = self.edges.letters();
        Ok(())
    }

    // The edge of the letter from the lost node starts at the one that is kept, or where that has
    // one itself, their ends are to be one. Refused only where memory is wanting.
    fn move_edge(&mut self, merge: Merge, letter: Letter) -> Result<(), NoMemory>
        requires { IsMerge self.old.edges.graph merge }
        ensures ok { OnOk result
            (IsMoved (absorbing_of self.old) (absorbing_of self.new) merge letter) }
        ensures rest { OnOk result (KeepsRest self.old self.new) }
    {
        let _letters = self.edges.letters();
        let Some(to) = self.edges.target(merge.lost, letter) else {
            return Ok(());
        };
        self.edges.remove_edge(merge.lost, letter);
        match self.edges.target(merge.kept, letter) {
            None => {
                self.pending.push_edge(merge.kept, letter)?;
                self.edges.set_edge(merge.kept, letter, to);
            }
            Some(other) => self.queue.push((to, other))?,
        }
        Ok(())
    }

    /// All edges into the lost node lead to the one that is kept, and all edges from it start
    /// there. Where both have an edge of one letter, the ends are to be one. Refused only where
    /// memory is wanting.
    pub fn absorb(&mut self, merge: Merge) -> Result<(), NoMemory>
        requires { IsMerge self.old.edges.graph merge }
        ensures ok { OnOk result
            (IsAbsorbed (absorbing_of self.old) (absorbing_of self.new) merge) }
        ensures rest { OnOk result (KeepsRest self.old self.new) }
    {
        let letters = self.edges.letters();
        for number in 0..letters {
            let letter = Letter::new(number as u8);
            self.redirect(merge, letter)?;
            self.move_edge(merge, letter)?;
        }
        Ok(())
    }
}
