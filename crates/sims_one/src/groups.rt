// Groups of parts, which run one after another.
ghost use Rattle.sims_one.specs.Parts.{Runs};

use crate::parts::Part;
use ports::Gate;
use workers::Crew;

// A part, its number, and whether it has run.
#[derive(Drop)]
pub(crate) struct Numbered<P> {
    pub(crate) number: usize,
    pub(crate) part: P,
    pub(crate) ran: bool,
}

impl<P: Part> Numbered<P> {
    // Runs the part.
    fn run(&mut self)
        ensures { Runs P.Part self.old self.new }
    {
        self.ran = self.part.run().is_ok();
    }
}

// Runs of the parts of a group, the first one first, until one finds no memory. Each passes the
// gate before.
#[derive(Drop)]
pub(crate) struct InTurn<'a, G> {
    pub(crate) gate: &'a G,
}

impl<'a, P: Part, G: Gate> Crew<Numbered<P>> for InTurn<'a, G> {
    ghost use Rattle.sims_one.specs.Parts.{IsFresh, Runs};

    ghost is_ready = { λ _. IsFresh };

    ghost makes = { λ _. Runs P.Part };

    fn work(&self, group: &mut [Numbered<P>]) {
        for i in (0..group.len()).rev() {
            let numbered = &mut group[i];
            self.gate.pass(numbered.number);
            numbered.run();
            if !numbered.ran {
                return;
            }
        }
    }
}
