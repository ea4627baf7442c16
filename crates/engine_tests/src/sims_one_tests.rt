// Tables of low index, one after another.
ghost use Rattle.std.specs.Prelude.{◌≡◌};

use crate::helpers::presented;
use presentation::Presentation;
use sims_one::Sims;
use std::alloc::Global;
use std::process::Abort;
use table_texts::{print_table, read_table};
use word_graph::WordGraph;

// Has the search go on behind the table of a text.
fn resume(alloc: Global, presentation: &Presentation, sims: &mut Sims, text: &str) -> Option<()>
    requires { sims.old.presentation ≡ presentation.now.presentation }
{
    let table = read_table(alloc, presentation.letters(), text.as_bytes()).ok()?;
    if table.is_standard() {
        sims.resume(&table).ok()
    } else {
        None
    }
}

// Whether the next table is that of the text.
fn is_next(alloc: Global, sims: &mut Sims, text: &str) -> Option<bool> {
    let table = sims.next().ok()??;
    let printed = print_table(&table, alloc).ok()?;
    Some(printed.as_slice() == text.as_bytes())
}

// A text behind whose table the search goes on, and the texts of the tables of at most two classes.
type Row<'a> = (Option<&'a str>, &'a [&'a str]);

const TABLES: [Row<'static>; 3] = [
    (None, &["0", "1/0", "1/1"]),
    (Some("1/0"), &["1/1"]),
    (Some("1/2/0"), &[]),
];

// The search lists these tables, and no more.
fn check_tables(rt: &impl Abort, alloc: Global, sims: &mut Sims, texts: &[&str]) {
    for text in texts {
        assert!(rt; is_next(alloc, sims, text) == Some(true));
    }
    assert!(rt; sims.next().expect(rt, "memory").is_none());
}

// A search lists the tables of the row.
fn check_row(rt: &impl Abort, alloc: Global, presentation: &Presentation, row: &Row) {
    let mut sims = Sims::new(alloc, presentation, 2).expect(rt, "a search");
    if let Some(text) = row.0 {
        resume(alloc, presentation, &mut sims, text).expect(rt, "a table");
    }
    check_tables(rt, alloc, &mut sims, row.1);
    drop(sims);
}

// Each search lists its tables.
fn check_rows(rt: &impl Abort, alloc: Global, rows: &[Row]) {
    let monoid = presented(alloc, "a", true, &[]).expect(rt, "a monoid");
    for row in rows {
        check_row(rt, alloc, &monoid, row);
    }
}

#[test]
fn tables_of_a_free_monoid(rt: HostRuntime) {
    check_rows(&rt, rt.alloc(), &TABLES);
}
