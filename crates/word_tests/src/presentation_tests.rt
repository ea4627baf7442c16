// The room of a presentation, which is twice that of a script, and words that semigroups lack.
use presentation::{AddFault, MOST_RELATIONS, Presentation};
use std::alloc::Global;
use std::test::Fail;
use words::{Alphabet, Letter, Word};

// What is added to a presentation over `ab`.
#[derive(Clone, Copy)]
enum Addition {
    // That the empty word is the empty word.
    Relation,
    // That `a` is an identity.
    Identity,
    // That `a` is a zero.
    Zero,
    // That `a` and `b` are inverse.
    Inverse,
    // That `a` is inverse to itself, with `b` in place of the empty word.
    Involution,
}

// What the presentation answers. It has two letters, or nothing is added.
fn answer(
    alloc: Global,
    presentation: &mut Presentation,
    addition: Addition,
) -> Result<(), AddFault> {
    if presentation.letters() < 2 {
        return Ok(());
    }
    let (a, b) = (Letter::new(0), Letter::new(1));
    match addition {
        Addition::Relation => presentation.add(Word::new(alloc), Word::new(alloc)),
        Addition::Identity => presentation.add_identity(a),
        Addition::Zero => presentation.add_zero(a),
        Addition::Inverse => presentation.add_inverse(a, b, None),
        Addition::Involution => presentation.add_inverse(a, a, Some(b)),
    }
}

// The presentation over `ab`, with so many relations where it is a monoid.
fn with_relations(alloc: Global, monoid: bool, count: usize) -> Result<Presentation, Fail> {
    let alphabet = Alphabet::new(alloc, b"ab")?;
    let mut presentation = Presentation::new(alloc, alphabet, monoid);
    for _ in 0..count {
        presentation.add(Word::new(alloc), Word::new(alloc))?;
    }
    Ok(presentation)
}

// Whether it is a monoid, how many relations it has, what is added, and the answer.
const ADDITIONS: [(bool, usize, Addition, Result<(), AddFault>); 13] = [
    (true, 8191, Addition::Relation, Ok(())),
    (true, 8192, Addition::Relation, Err(AddFault::TooMany)),
    (true, 8189, Addition::Identity, Ok(())),
    (true, 8190, Addition::Identity, Err(AddFault::TooMany)),
    (true, 8189, Addition::Zero, Ok(())),
    (true, 8190, Addition::Zero, Err(AddFault::TooMany)),
    (true, 8190, Addition::Inverse, Ok(())),
    (true, 8191, Addition::Inverse, Err(AddFault::TooMany)),
    (true, 8191, Addition::Involution, Ok(())),
    (true, 8192, Addition::Involution, Err(AddFault::TooMany)),
    (false, 0, Addition::Relation, Err(AddFault::EmptyWord)),
    (false, 0, Addition::Inverse, Err(AddFault::EmptyWord)),
    (false, 0, Addition::Involution, Ok(())),
];

#[test]
fn adds_up_to_8192_relations(rt: HostRuntime) -> Result<(), Fail> {
    for (i, (monoid, count, addition, want)) in ADDITIONS.iter().enumerate() {
        let mut presentation = with_relations(rt.alloc(), *monoid, *count)?;
        let got = answer(rt.alloc(), &mut presentation, *addition);
        assert_eq!(rt; got, *want, "case {i}");
        assert!(rt; presentation.relations().len() <= MOST_RELATIONS);
    }
    Ok(())
}
