// Pages of tables.
ghost use Rattle.std.specs.Prelude.{◌≡◌, ◌≤◌, ◌<◌, [], map, take, length, true, false, IfOk, IfSome, Option, option_map, MatchOption};
ghost use Rattle.std.specs.Option.{option_copied};
ghost use Rattle.theory.specs.Congruence.{AreElements};
ghost use Rattle.theory.specs.LowIndex.{Rows, graph_of, IsLowIndex};
ghost use Rattle.theory.specs.TwoSidedTable.{IsTwoSidedLowIndex};
ghost use Rattle.word_graph.specs.Standard.{IsStandardGraph};
ghost use Rattle.sims_one.specs.Targets.{table_of, cursor_of};
ghost use Rattle.sims_one.specs.Search.{IsCursor};
ghost use Rattle.sims_one.specs.Asked.{asked, IsAsked, AreTables};
ghost use Rattle.sims_one.specs.Fronts.{lists_in};
ghost use Rattle.sims_one.specs.Pages.{IsTablePage, IsPageOf};

use crate::batches::tables_by_parts;
use crate::halt::Halt;
use crate::indexed::Indexed;
use crate::places::Places;
use crate::request::Request;
use crate::sims::MOST_CLASSES;
use crate::team::Team;
use crate::within::{table_graph, tables_within};
use ports::{Gate, NoMemory};
use presentation::Presentation;
use std::alloc::Global;
use std::thread::Threads;
use word_graph::WordGraph;

// A search that takes no more steps is done before it could be cut and threads be started.
const FEW_STEPS: usize = 8192;

/// A page of tables.
#[derive(Drop)]
pub struct TablePage {
    /// The tables, in the order of their rows.
    pub tables: Vec<WordGraph>,
    /// Whether there is a further one.
    pub more: bool,
}

// The targets of the cursor; none where there is no cursor.
fn cursor_targets(
    alloc: Global,
    presentation: &Presentation,
    after: Option<&WordGraph>,
) -> Result<Vec<usize>, NoMemory>
    requires { IfSome (option_copied after)
        (IsStandardGraph presentation.now.presentation.letters) }
    ensures cursor { IfOk result (λ ts. IsCursor presentation.now.presentation.letters ts.items) }
    ensures after { IfOk result (λ ts. (cursor : Option Rows)
        → option_copied after.entry ≡ option_map graph_of cursor
        → cursor_of presentation.now.presentation.letters ts.items ≡ cursor) }
{
    let _letters = presentation.letters();
    let Some(table) = after else {
        return Ok(Vec::new(alloc));
    };
    table.targets(alloc)
}

// The tables that are asked for, one more than the page has, and perhaps others behind these.
fn find_tables<T: Threads + Sync, G: Gate + Sync>(
    team: &Team<T, G>,
    request: &Request,
) -> Result<Vec<Vec<usize>>, NoMemory>
    requires workers { 1 ≤ team.now.workers }
    requires asked { IsAsked (asked request.now) }
    ensures { IfOk result (λ ts. AreTables (asked request.now) (lists_in ts.items)) }
{
    let steps = if team.workers == 1 {
        usize::MAX
    } else {
        FEW_STEPS
    };
    match tables_within(request, &[], steps) {
        Ok(tables) => Ok(tables),
        Err(Halt::NoMemory) => Err(NoMemory),
        Err(Halt::Steps) => tables_by_parts(team, request),
    }
}

// The tables of the page as graphs, and whether there are more.
fn page_with(request: &Request, found: &[Vec<usize>]) -> Result<TablePage, NoMemory>
    requires { AreTables (asked request.now) (lists_in found.now) }
    ensures tables { IfOk result (λ page. page.tables.items ≡ map (λ u. graph_of
        (table_of request.now.presentation.now.presentation.letters u))
        (take request.now.count (lists_in found.now))) }
    ensures more { IfOk result (λ page. request.now.count < length found.now
        → page.more ≡ true) }
    ensures end { IfOk result (λ page. length found.now ≤ request.now.count
        → page.more ≡ false) }
{
    let more = request.count < found.len();
    let count = request.count.min(found.len());
    let mut tables = Vec::new(request.alloc);
    for i in 0..count {
        tables.push(table_graph(request, found[i].as_slice())?)?;
    }
    Ok(TablePage { tables, more })
}

// The page of what is asked for.
fn page_of<T: Threads + Sync, G: Gate + Sync>(
    team: &Team<T, G>,
    request: &Request,
) -> Result<TablePage, NoMemory>
    requires workers { 1 ≤ team.now.workers }
    requires asked { IsAsked (asked request.now) }
    ensures { IfOk result (λ page. IsPageOf (asked request.now) page.tables.items page.more) }
{
    let _letters = request.presentation.letters();
    let _relations = request.presentation.relations();
    let found = find_tables(team, request)?;
    page_with(request, found.as_slice())
}

/// A page: the first `count` standard tables of at most `n` classes at which the relations of a
/// presentation hold that come after a table, or of all where there is none, and whether there is a
/// further one (Sims 1994, 5.6; libsemigroups, `Sims1`). The table that they come after is standard
/// over the letters of the presentation, and need not be a table of the search.
///
/// The page is the same for every number of workers. With one worker it is one search, and so it is
/// with more where that takes few steps. A longer search is cut at the first targets of tables into
/// parts, which run in batches by [`run_parts`], each batch once the one before it has ended; the
/// batch that fills the page is the last one. The parts of a batch pass the gate with their numbers
/// in it. In a monoid, with `n` above 1 and no cursor, the first batch has at least two parts.
/// Refused only where memory is wanting.
///
/// [`run_parts`]: crate::run_parts
pub fn page<T: Threads + Sync, G: Gate + Sync>(
    rt: &T,
    alloc: Global,
    presentation: &Presentation,
    n: usize,
    after: Option<&WordGraph>,
    count: usize,
    workers: usize,
    gate: &G,
) -> Result<TablePage, NoMemory>
    requires classes { (1 ≤ n) × (n ≤ MOST_CLASSES) }
    requires workers { 1 ≤ workers }
    requires after { IfSome (option_copied after)
        (IsStandardGraph presentation.now.presentation.letters) }
    ensures { IfOk result (λ page. (cursor : Option Rows)
        → option_copied after.entry ≡ option_map graph_of cursor
        → IsTablePage (IsLowIndex presentation.now.presentation n) cursor count
        page.tables.items page.more) }
{
    let cursor = cursor_targets(alloc, presentation, after)?;
    let places = Places::new(alloc, presentation)?;
    let indexed = Indexed::new(presentation, &places);
    let team = Team { rt, workers, gate };
    let request = Request {
        alloc,
        presentation: &indexed,
        classes: n,
        two_sided: false,
        cursor: cursor.as_slice(),
        count,
    };
    page_of(&team, &request)
}

/// The same of the two-sided tables alone, which are those of two-sided congruences (Sims 1994,
/// 5.6; libsemigroups, `Sims2`). The table that they come after need not be two-sided.
pub fn page_two_sided<T: Threads + Sync, G: Gate + Sync>(
    rt: &T,
    alloc: Global,
    presentation: &Presentation,
    n: usize,
    after: Option<&WordGraph>,
    count: usize,
    workers: usize,
    gate: &G,
) -> Result<TablePage, NoMemory>
    requires classes { (1 ≤ n) × (n ≤ MOST_CLASSES) }
    requires workers { 1 ≤ workers }
    requires after { IfSome (option_copied after)
        (IsStandardGraph presentation.now.presentation.letters) }
    ensures { IfOk result (λ page. (cursor : Option Rows)
        → option_copied after.entry ≡ option_map graph_of cursor
        → IsTablePage (IsTwoSidedLowIndex presentation.now.presentation n) cursor count
        page.tables.items page.more) }
{
    let cursor = cursor_targets(alloc, presentation, after)?;
    let places = Places::new(alloc, presentation)?;
    let indexed = Indexed::new(presentation, &places);
    let team = Team { rt, workers, gate };
    let request = Request {
        alloc,
        presentation: &indexed,
        classes: n,
        two_sided: true,
        cursor: cursor.as_slice(),
        count,
    };
    page_of(&team, &request)
}
