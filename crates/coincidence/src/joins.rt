// Nodes that become one.
ghost use Rattle.std.specs.Prelude.{◌≡◌, ◌<◌, length, option_map, IfOk, OnOk, IfSome, IfNone};
ghost use Rattle.std.specs.Option.{ForSome};
ghost use Rattle.theory.specs.Congruence.{Congruence};
ghost use Rattle.theory.specs.Graph.{PathsRelate};
ghost use Rattle.coincidence.specs.Absorbing.{IsMerge, goes};
ghost use Rattle.coincidence.specs.Cosets.{IsGathered, IsWhole};
ghost use Rattle.coincidence.specs.Live.{IsOn};
ghost use Rattle.coincidence.specs.Merged.{MergedNodes};
ghost use Rattle.coincidence.specs.Joining.{AreAllOne, HaveClasses, HaveEntries, AreTaken, IsJoined, IsLost, IsMarkMoved, KeepsNodes};

use crate::absorb::Merge;
use crate::cosets::Cosets;
use crate::replaced::{make_room, representative};
use ports::NoMemory;

// The mark of the lost node goes to the one that is kept.
fn move_mark(marked: &mut Vec<bool>, merge: Merge)
    requires less { merge.kept < merge.lost }
    requires inside { merge.lost < length marked.old.items }
    ensures { IsMarkMoved marked.old.items marked.new.items merge }
{
    if marked[merge.lost] {
        marked[merge.lost] = false;
        marked[merge.kept] = true;
    }
}

// The node, or the one that is kept in its place.
fn kept_for(node: usize, merge: Merge) -> usize
    ensures { result ≡ goes merge node }
{
    if node == merge.lost { merge.kept } else { node }
}

// Where the node has gone.
fn gone(at: Option<usize>, merge: Merge) -> Option<usize>
    ensures { result ≡ option_map (goes merge) at }
{
    match at {
        None => None,
        Some(node) => Some(kept_for(node, merge)),
    }
}

impl Cosets {
    // The nodes that are kept for the next pair of the queue, which are two; the lesser stays so.
    // Pairs of which one node is kept are dropped before it.
    fn next_merge(&mut self) -> Option<Merge>
        requires { HaveClasses self.old }
        ensures none { IfNone result (AreAllOne self.old) }
        ensures less { IfSome result (λ merge. merge.kept < merge.lost) }
        ensures some { IfSome result (AreTaken self.old self.new) }
        ensures rest { KeepsNodes self.old self.new }
    {
        while let Some((p, q)) = self.queue.pop() {
            let s = representative(&self.live, &mut self.replaced_by, p);
            let t = representative(&self.live, &mut self.replaced_by, q);
            if s != t {
                let lost = s.max(t);
                let kept = s.min(t);
                return Some(Merge { lost, kept });
            }
        }
        None
    }

    // The lost node lives no more: the other is kept in its place, and has its mark. The order is
    // cut where the lost one was found.
    fn lose(&mut self, merge: Merge)
        requires merge { IsMerge self.old.edges.graph merge }
        requires entries { HaveEntries self.old }
        ensures { IsLost self.old self.new merge }
    {
        self.live[merge.lost] = false;
        self.replaced_by[merge.lost] = merge.kept;
        self.order.cut(merge.lost);
        move_mark(&mut self.marked, merge);
    }

    /// The least merging under which two nodes are one. It tells where a node has gone, marks go
    /// with their nodes, and edges that are new are pending. Each node that is lost is replaced by
    /// the one that is kept; how others were replaced before does not matter. Refused only where
    /// memory is wanting.
    pub fn merge(
        &mut self,
        x: usize,
        y: usize,
        at: Option<usize>,
    ) -> Result<Option<usize>, NoMemory>
        requires whole { (c : Congruence) × IsWhole c self.old }
        requires x { IsOn self.old.live.items x }
        requires y { IsOn self.old.live.items y }
        requires at { ForSome at (IsOn self.old.live.items) }
        ensures { IfOk result (IsJoined self.old self.new x y at) }
    {
        make_room(&mut self.replaced_by, self.live.len())?;
        self.queue.clear();
        self.queue.push((x, y))?;
        let mut to = at;
        while let Some(merge) = self.next_merge() {
            self.absorb(merge)?;
            self.lose(merge);
            to = gone(to, merge);
        }
        Ok(to)
    }

    /// Makes two live nodes one, with all that follows by letters. Marks go with their nodes.
    /// Refused only where memory is wanting.
    pub fn identify(&mut self, x: usize, y: usize) -> Result<(), NoMemory>
        requires whole { (c : Congruence) × IsWhole c self.old }
        requires x { IsOn self.old.live.items x }
        requires y { IsOn self.old.live.items y }
        ensures whole { OnOk result ((c : Congruence) → IsWhole c self.old → IsWhole c self.new) }
        ensures relates { OnOk result (PathsRelate self.new.edges.graph
            (MergedNodes self.old.edges.graph x y)) }
        ensures gathered { OnOk result (IsGathered self.old self.new) }
    {
        self.merge(x, y, None)?;
        Ok(())
    }
}
