// The report of a script.
ghost use Rattle.std.specs.Prelude.{◌≡◌, ℕ, ◌≤◌, Bool, List, Option};
ghost use Rattle.ports.specs.Bytes.{TakesPrefix};
ghost use Rattle.report.specs.Answers.{WritesLines};
ghost use Rattle.settings.specs.declared.Settings.{Settings};
ghost use Rattle.semi.specs.Report.{AsksNoChain, GainsBeginning, IsReport, bounds_of, budgets_of};

use ports::{Gate, Sink, WriteFault};
use problem::Budgets;
use query_lang::Script;
use report::{Bounds, write_answers};
use settings::Settings;
use std::alloc::Global;
use std::thread::Threads;

// What the answers may use under the settings.
fn bounds_of(settings: Settings) -> Bounds
    ensures { result ≡ bounds_of settings }
{
    let budgets = Budgets {
        defs: settings.defs,
        rows: settings.rows,
        length: settings.length,
        elements: settings.elements,
    };
    Bounds {
        budgets,
        classes: settings.classes,
        workers: settings.workers,
    }
}

/// Writes the report of a script, and tells whether an answer is undecided. Refused with `Failed`
/// where the sink failed, else with `NoMemory`; the sink has then gained a beginning of the report.
pub fn write_report<R: Threads + Sync, O: Sink, G: Gate + Sync>(
    rt: &R,
    alloc: Global,
    settings: Settings,
    script: &Script,
    out: &mut O,
    gate: &G,
) -> Result<bool, WriteFault>
    requires { 1 ≤ settings.workers }
    ensures { WritesLines O.Sink (bounds_of settings) script.now.problem script.now.queries
        out.old out.new result }
{
    write_answers(rt, alloc, script, bounds_of(settings), out, gate)
}

/// The budgets, the bound of the index and the input have one status, whatever the number of
/// workers, and where the input asks for no chain one report.
pub fn report_is_one()
    ensures status { (settings others : Settings) (input report other : List ℕ)
        (undecided waits : Bool)
        → budgets_of settings ≡ budgets_of others → settings.classes ≡ others.classes
        → IsReport settings input report undecided → IsReport others input other waits
        → undecided ≡ waits }
    ensures report { (settings others : Settings) (input report other : List ℕ)
        (undecided waits : Bool)
        → budgets_of settings ≡ budgets_of others → settings.classes ≡ others.classes
        → AsksNoChain input
        → IsReport settings input report undecided → IsReport others input other waits
        → report ≡ other }
{}

/// Where the input asks for no chain, a beginning of the report that a sink gained is a prefix of
/// the report.
pub fn beginning_is_prefix()
    ensures { (settings : Settings) (input report : List ℕ) (undecided : Bool)
        (old new : Option (List ℕ)) → AsksNoChain input
        → IsReport settings input report undecided
        → GainsBeginning settings input old new
        → TakesPrefix old new report }
{}
