// A coset table by single definitions and a coincidence.
ghost use Rattle.std.specs.Prelude.{◌≡◌, false, true, [], ◌∷◌, ◌<◌, OnOk};
ghost use Rattle.theory.specs.Congruence.{IsRightSided};

use crate::helpers::right_congruence;
use coincidence::Table;
use ports::NoMemory;
use presentation::Congruence;
use std::alloc::Global;
use std::process::Abort;
use words::Letter;

// The letter `a` leads from the root to node 1, and from there to node 2.
fn define_line(rt: &impl Abort, table: &mut Table) -> Result<(), NoMemory>
    requires letters { 0 < table.old.congruence.presentation.letters }
    requires live { table.old.live ≡ true ∷ [] }
    requires ok { table.old.failed ≡ false }
    ensures letters { OnOk result (table.new.congruence.presentation.letters
        ≡ table.old.congruence.presentation.letters) }
    ensures live { OnOk result (table.new.live ≡ true ∷ true ∷ true ∷ []) }
    ensures ok { OnOk result (table.new.failed ≡ false) }
{
    let a = Letter::new(0);
    assert!(rt; table.target(0, a).is_none());
    assert!(rt; table.define(0, a)? == 1);
    assert!(rt; table.target(1, a).is_none());
    assert!(rt; table.define(1, a)? == 2);
    Ok(())
}

// The end of the line and the root become one: the root keeps its number and the edge.
fn keeps_the_root(rt: &impl Abort, table: &mut Table) -> Result<bool, NoMemory>
    requires letters { 0 < table.old.congruence.presentation.letters }
    requires live { table.old.live ≡ true ∷ [] }
    requires ok { table.old.failed ≡ false }
{
    define_line(rt, table)?;
    table.identify(2, 0)?;
    let a = Letter::new(0);
    let leads_back = table.target(1, a) == Some(0) && table.first_source(0, a) == Some(1);
    let is_lost = table.target(2, a).is_none() && table.first_source(2, a).is_none();
    Ok(leads_back && is_lost)
}

// Whether a line of the congruence's table does.
fn closes(rt: &impl Abort, alloc: Global, congruence: &Congruence) -> Result<bool, NoMemory>
    requires { IsRightSided congruence.now.congruence }
{
    assert!(rt; congruence.presentation().letters() > 0);
    let mut table = Table::new(alloc, congruence)?;
    let closed = keeps_the_root(rt, &mut table);
    drop(table);
    closed
}

#[test]
fn a_line_is_closed_to_a_cycle(rt: HostRuntime) {
    let congruence = right_congruence(rt.alloc(), &[("aaa", "")]).expect(&rt, "a congruence");
    assert!(rt; closes(&rt, rt.alloc(), &congruence) == Ok(true));
}
