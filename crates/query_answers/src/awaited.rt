// What queries wait for.
ghost use Rattle.std.specs.Prelude.{◌≡◌};
ghost use Rattle.query_answers.specs.Answer.{awaited_by};

use query_lang::Query;

/// What a query waits for before it is answered.
#[derive(Clone, Copy)]
pub enum Awaited {
    /// Nothing.
    Nothing,
    /// A decision of the problem within its budgets.
    Decision,
    /// A completion that logs how rules follow from relations, at its end.
    Log,
}

/// What the query waits for.
pub fn awaited_by(query: &Query) -> Awaited
    ensures { result ≡ awaited_by query.now }
{
    match query {
        Query::ElementOf(_) | Query::LowIndex { .. } | Query::Meet(..) | Query::Join(..) => {
            Awaited::Nothing
        }
        Query::Index
        | Query::Equal(..)
        | Query::Normal(_)
        | Query::Classes { .. }
        | Query::RuleList
        | Query::Cayley
        | Query::Green(_)
        | Query::Idempotents => Awaited::Decision,
        Query::Chain(..) => Awaited::Log,
    }
}
