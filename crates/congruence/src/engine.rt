// The engines that race for a problem.
ghost use Rattle.std.specs.Prelude.{◌≡◌, ◌↔◌, false, IfOk, IsTrue};
ghost use Rattle.problem.specs.Problem.{is_presented};
ghost use Rattle.problem.specs.declared.kinds.Problem.{Problem};
ghost use Rattle.element_tables.specs.CayleyGraphs.{AreTablesFor};
ghost use Rattle.congruence_classes.specs.ClassLists.{IsStandardGraphFor, IsSolutionFor};
ghost use Rattle.congruence_classes.specs.ElementLists.{element_list};
ghost use Rattle.congruence.specs.Classes.{problem_of};
ghost use Rattle.congruence.specs.Engines.{HasMoreElements, IsTaskFor, SearchesElements, said_of, task_of};

use crate::answers::Classes;
use cayley::PairsRacer;
use congruence_classes::{
    CosetClasses, ElementClasses, GeneratedProblem, ReducedClasses, ordered_words,
};
use elements::{BMat, MaxPlusTrunc, PPerm, Transf};
use froidure_pin::CayleyTables;
use knuth_bendix::Completion;
use ports::NoMemory;
use problem::Problem;
use race::{Lane, Progress, Racer};
use std::alloc::Global;
use std::marker::Model;
use tc_felsch::Felsch;
use tc_hlt::Hlt;
use word_graph::WordGraph;

/// An engine that decides a problem within a budget.
#[derive(Drop)]
pub enum Engine {
    /// Coset enumeration by Felsch's strategy.
    Felsch(Felsch),
    /// Coset enumeration by the strategy of Haselgrove, Leech and Trotter.
    Hlt(Hlt),
    /// Completion by rewriting rules.
    Completion(Completion),
    /// The classes of the elements that transformations generate.
    Transf(PairsRacer<Transf>),
    /// The classes of the elements that partial permutations generate.
    PPerm(PairsRacer<PPerm>),
    /// The classes of the elements that Boolean matrices generate.
    BMat(PairsRacer<BMat>),
    /// The classes of the elements that truncated max-plus matrices generate.
    MaxPlus(PairsRacer<MaxPlusTrunc>),
}

impl Racer for Engine {
    ghost use Rattle.congruence.specs.Engines.{EngineTask, ends_within, left_of, said_of, task_of};

    ghost Task = { EngineTask };

    ghost task = { task_of };

    ghost condition = { ends_within };

    ghost measure = { left_of };

    ghost said = { said_of };

    /// One turn of the strategy.
    fn advance(&mut self) -> Progress {
        match self {
            Engine::Felsch(felsch) => felsch.advance(),
            Engine::Hlt(hlt) => hlt.advance(),
            Engine::Completion(completion) => completion.advance(),
            Engine::Transf(search) => search.advance(),
            Engine::PPerm(search) => search.advance(),
            Engine::BMat(search) => search.advance(),
            Engine::MaxPlus(search) => search.advance(),
        }
    }
}

// The classes that a standard graph gives.
fn by_cosets(alloc: Global, problem: &Problem, graph: WordGraph) -> Result<Classes, NoMemory>
    requires { IsStandardGraphFor problem.now graph }
    ensures { IfOk result (λ classes. problem_of classes ≡ problem.now) }
{
    let least = ordered_words(alloc, problem, &graph)?;
    let cosets = CosetClasses::new(alloc, problem, graph, least)?;
    Ok(Classes::Cosets(cosets))
}

// The classes that the rules of a completion give.
fn by_rules(alloc: Global, problem: &Problem, completion: &Completion) -> Result<Classes, NoMemory>
    requires decided { completion.now.said ≡ Progress.Decided }
    requires task { IsTaskFor problem.now (task_of (Engine.Completion completion.now)) }
    ensures { IfOk result (λ classes. problem_of classes ≡ problem.now) }
{
    let Problem::Presented(congruence) = problem else {
        unreachable!()
    };
    let words = ReducedClasses::new(alloc, congruence, &completion.rules()?)?;
    Ok(Classes::Reduced(words))
}

impl Engine {
    // The classes of the problem that the engine has decided.
    pub(crate) fn classes(&self, alloc: Global, problem: &Problem) -> Result<Classes, NoMemory>
        requires decided { said_of self.now ≡ Progress.Decided }
        requires task { IsTaskFor problem.now (task_of self.now) }
        ensures { IfOk result (λ classes. problem_of classes ≡ problem.now) }
    {
        let _letters = problem.alphabet().len();
        match self {
            Engine::Felsch(felsch) => by_cosets(alloc, problem, felsch.graph()?),
            Engine::Hlt(hlt) => by_cosets(alloc, problem, hlt.graph()?),
            Engine::Completion(completion) => by_rules(alloc, problem, completion),
            Engine::Transf(_) | Engine::PPerm(_) | Engine::BMat(_) | Engine::MaxPlus(_) => {
                Ok(Classes::Elements(GeneratedProblem::new(alloc, problem)?))
            }
        }
    }

    // The classes of the elements of the problem, which is given by generators, and which the
    // engine has decided.
    pub(crate) fn element_classes(&self, alloc: Global, problem: &Problem) -> ElementClasses<'_>
        requires decided { said_of self.now ≡ Progress.Decided }
        requires generated { is_presented problem.now ≡ false }
        requires task { IsTaskFor problem.now (task_of self.now) }
        ensures { IsSolutionFor problem.now (element_list result) }
    {
        let _posed = problem.alphabet();
        match self {
            Engine::Transf(search) => {
                ElementClasses::new(alloc, problem, search.tables(), search.classes())
            }
            Engine::PPerm(search) => {
                ElementClasses::new(alloc, problem, search.tables(), search.classes())
            }
            Engine::BMat(search) => {
                ElementClasses::new(alloc, problem, search.tables(), search.classes())
            }
            Engine::MaxPlus(search) => {
                ElementClasses::new(alloc, problem, search.tables(), search.classes())
            }
            Engine::Felsch(_) | Engine::Hlt(_) | Engine::Completion(_) => unreachable!(),
        }
    }

    // Whether the engine is a search for elements that is spent. There are then more elements than
    // its bound.
    pub(crate) fn has_more_elements(&self) -> bool
        ensures is { IsTrue result ↔ ((said_of self.now ≡ Progress.Spent)
            × SearchesElements (task_of self.now)) }
        ensures more { said_of self.now ≡ Progress.Spent → HasMoreElements (task_of self.now) }
    {
        match self {
            Engine::Felsch(_) | Engine::Hlt(_) | Engine::Completion(_) => false,
            Engine::Transf(search) => search.is_spent(),
            Engine::PPerm(search) => search.is_spent(),
            Engine::BMat(search) => search.is_spent(),
            Engine::MaxPlus(search) => search.is_spent(),
        }
    }

    // The tables of the elements, where the engine has decided a problem that is given by
    // generators.
    pub(crate) fn tables(&self) -> &CayleyTables
        requires decided { said_of self.now ≡ Progress.Decided }
        requires generated { (p : Problem) × (is_presented p ≡ false)
            × IsTaskFor p (task_of self.now) }
        ensures { (p : Problem) → is_presented p ≡ false → IsTaskFor p (task_of self.now)
            → AreTablesFor p result.now }
    {
        match self {
            Engine::Transf(search) => search.tables(),
            Engine::PPerm(search) => search.tables(),
            Engine::BMat(search) => search.tables(),
            Engine::MaxPlus(search) => search.tables(),
            Engine::Felsch(_) | Engine::Hlt(_) | Engine::Completion(_) => unreachable!(),
        }
    }
}

/// The lanes of a race for a problem, as the race left them.
#[derive(Drop)]
pub struct Ended {
    lanes: Vec<Lane<Engine>>,
}

impl Model for Ended {
    ghost use Rattle.std.specs.Prelude.{List};
    ghost use Rattle.race.specs.declared.lanes.Lane.{Lane};
    ghost use Rattle.congruence.specs.declared.engine.Engine.{Engine};

    ghost Value = { List (Lane Engine) };

    ghost view = { λ e. e.lanes.items };
}

impl Ended {
    // The lanes after a race.
    pub(crate) fn new(lanes: Vec<Lane<Engine>>) -> Ended
        ensures { result ≡ lanes.items }
    {
        Ended { lanes }
    }

    /// The lanes, numbered by place.
    pub fn lanes(&self) -> &[Lane<Engine>]
        ensures { result.now ≡ self.now }
    {
        self.lanes.as_slice()
    }
}
