// The checker of chains, on steps that are given.
use crate::helpers::{presented, word};
use chains::{ChainStep, check, words_of};
use presentation::Presentation;
use std::alloc::Global;
use std::process::Abort;

// The place, the number of the relation, and whether it is read forward.
type Step = (usize, usize, bool);

// The chain of the steps.
fn chain_of(alloc: Global, steps: &[Step]) -> Option<Vec<ChainStep>> {
    let mut chain = Vec::new(alloc);
    for (place, relation, forward) in steps {
        let step = ChainStep {
            place: *place,
            relation: *relation,
            forward: *forward,
        };
        chain.push(step).ok()?;
    }
    Some(chain)
}

// Whether the steps lead from one text to the other.
fn leads(
    alloc: Global,
    presentation: &Presentation,
    from: &str,
    steps: &[Step],
    to: &str,
) -> Option<bool> {
    let from = word(alloc, presentation.alphabet(), from)?;
    let to = word(alloc, presentation.alphabet(), to)?;
    let chain = chain_of(alloc, steps)?;
    check(alloc, presentation, &from, &chain, &to).ok()
}

// A text, steps, another text, and whether they lead there.
type Row<'a> = (&'a str, &'a [Step], &'a str, bool);

// Steps by ab = ba and bbb = 1. The last six do not fit.
const CHAINS: [Row<'static>; 12] = [
    ("aab", &[(1, 0, true), (0, 0, true)], "baa", true),
    ("baa", &[(0, 0, false), (1, 0, false)], "aab", true),
    ("aab", &[(1, 0, true), (0, 0, true)], "aba", false),
    ("baa", &[(3, 1, false)], "baab^3", true),
    ("ab", &[], "ab", true),
    ("ab", &[], "ba", false),
    ("aab", &[(0, 0, true)], "aab", false),
    ("aab", &[(1, 0, false)], "aab", false),
    ("aab", &[(2, 0, true)], "aab", false),
    ("aab", &[(4, 1, false)], "aab", false),
    ("aab", &[(1, 2, true)], "aab", false),
    ("aab", &[(usize::MAX, 0, true)], "aab", false),
];

// Each row tells whether its steps lead there.
fn check_rows(rt: &impl Abort, alloc: Global, presentation: &Presentation, rows: &[Row]) {
    for (i, (from, steps, to, want)) in rows.iter().enumerate() {
        assert!(rt;
            leads(alloc, presentation, from, steps, to) == Some(*want),
            "chain {i}"
        );
    }
}

// The same over those relations.
fn check_chains(rt: &impl Abort, alloc: Global, rows: &[Row]) {
    let relations = [("ab", "ba"), ("bbb", "")];
    let monoid = presented(alloc, "ab", true, &relations).expect(rt, "a monoid");
    check_rows(rt, alloc, &monoid, rows);
}

#[test]
fn steps_lead_from_word_to_word(rt: HostRuntime) {
    check_chains(&rt, rt.alloc(), &CHAINS);
}

// How many words the chain has from a text on; the inner `None` where a step does not fit.
fn count_words(
    alloc: Global,
    presentation: &Presentation,
    from: &str,
    steps: &[Step],
) -> Option<Option<usize>> {
    let from = word(alloc, presentation.alphabet(), from)?;
    let chain = chain_of(alloc, steps)?;
    let words = words_of(alloc, presentation, &from, &chain).ok()?;
    Some(words.map(|words| words.len()))
}

#[test]
fn words_are_given_where_all_steps_fit(rt: HostRuntime) {
    let commuting = presented(rt.alloc(), "ab", true, &[("ab", "ba")]).expect(&rt, "a monoid");
    for (steps, want) in [
        ([(1, 0, true), (0, 0, true)], Some(3)),
        ([(1, 0, true), (1, 0, true)], None),
    ] {
        assert!(rt; count_words(rt.alloc(), &commuting, "aab", &steps) == Some(want));
    }
}
