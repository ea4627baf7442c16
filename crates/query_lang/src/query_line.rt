// The lines of queries.
ghost use Rattle.std.specs.Prelude.{◌≡◌, List, [], ◌∷◌, IfOk, IfErr, Ok, length, true};
ghost use Rattle.std.specs.Option.{ok_or};
ghost use Rattle.theory.specs.Word.{Word as Letters};
ghost use Rattle.line_parts.specs.declared.cause.Cause.TheVariants.{BadNumber};
ghost use Rattle.line_parts.specs.declared.version.Version.{Version as VersionOf};
ghost use Rattle.line_parts.specs.Faults.{IsLineFault};
ghost use Rattle.line_parts.specs.Texts.{texts};
ghost use Rattle.line_parts.specs.Token.{number_within};
ghost use Rattle.query_lang.specs.declared.form.QueryForm.TheVariants as asks;
ghost use Rattle.query_lang.specs.Forms.{OfGenerators, OfRelations, row_of};
ghost use Rattle.query_lang.specs.Query.{AreLimits, IsQueryOver};
ghost use Rattle.query_lang.specs.Values.{bars_query, limits_of, made_in, scope, seen, takes};

use crate::form::QueryForm;
use crate::script::Query;
use line_parts::{
    Cause, LineFault, Version, element_of, is_word, low_table_of, number_within, one_relation,
    one_word, two_tables, two_words,
};
use problem::Problem;
use std::alloc::Global;
use words::{Alphabet, Word};

impl QueryForm {
    /// Whether the pairs of the problem do not allow a query of this form: the rules and chains
    /// want two-sided pairs or none, the Cayley graphs, tables of low index, meets, joins, Green's
    /// relations and idempotents none.
    pub fn is_barred(self, problem: &Problem) -> bool
        ensures { result ≡ bars_query problem.now self }
    {
        match self {
            QueryForm::Index
            | QueryForm::Equal
            | QueryForm::Normal
            | QueryForm::Classes
            | QueryForm::Element => false,
            QueryForm::Rules | QueryForm::Chain => !problem.allows_rules(),
            QueryForm::Cayley
            | QueryForm::LowIndex { .. }
            | QueryForm::Meet
            | QueryForm::Join
            | QueryForm::Green
            | QueryForm::Idempotents => !problem.pairs().is_empty(),
        }
    }

    /// Whether there are as many tokens as stand behind the name of this query.
    pub fn takes(self, tokens: &[&[u8]]) -> bool
        ensures { result ≡ takes self (texts tokens.now) }
    {
        let count = tokens.len();
        match self {
            QueryForm::Index | QueryForm::Rules | QueryForm::Cayley | QueryForm::Idempotents =>
                count == 0,
            QueryForm::Normal | QueryForm::Element | QueryForm::Green => count == 1,
            QueryForm::Equal | QueryForm::Meet | QueryForm::Join | QueryForm::Chain => count == 2,
            QueryForm::Classes => count == 1 || count == 3,
            QueryForm::LowIndex { .. } => count == 2 || count == 4,
        }
    }
}

// How many classes or tables are asked for.
fn count_of(token: &[u8]) -> Result<usize, Cause>
    ensures { result ≡ ok_or (number_within 0 1000000 token.now) BadNumber }
{
    let count = number_within(0, 1_000_000, token).ok_or(Cause::BadNumber)?;
    Ok(count as usize)
}

// The page of classes behind the word that the last token is.
fn page_after(
    alloc: Global,
    version: Version,
    alphabet: &Alphabet,
    allow_empty: bool,
    count: &[u8],
    after: &[u8],
    token: &[u8],
) -> Result<Query, LineFault>
    ensures ok { (relations : List (Letters × Letters)) → IfOk result
        (λ query. made_in (scope version alphabet.now allow_empty relations)
        (row_of asks.Classes).ways (count.now ∷ after.now ∷ token.now ∷ []) ≡ Ok query) }
    ensures over { (relations : List (Letters × Letters)) → IfOk result
        (IsQueryOver allow_empty (length alphabet.now) relations) }
    ensures err { (relations : List (Letters × Letters)) → IfErr result
        (IsLineFault (made_in (scope version alphabet.now allow_empty relations)
        (row_of asks.Classes).ways (count.now ∷ after.now ∷ token.now ∷ []))) }
{
    let count = count_of(count)?;
    if !is_word(b"after", after) {
        return Err(LineFault::refused(Cause::AfterExpected));
    }
    let cursor = element_of(alloc, version, alphabet, allow_empty, token)?;
    Ok(Query::Classes {
        count,
        after: Some(cursor),
    })
}

// The page of classes that the tokens behind `classes` ask for.
fn page_of(
    alloc: Global,
    version: Version,
    alphabet: &Alphabet,
    allow_empty: bool,
    tokens: &[&[u8]],
) -> Result<Query, LineFault>
    ensures ok { (relations : List (Letters × Letters)) → IfOk result
        (λ query. made_in (scope version alphabet.now allow_empty relations)
        (row_of asks.Classes).ways (texts tokens.now) ≡ Ok query) }
    ensures over { (relations : List (Letters × Letters)) → IfOk result
        (IsQueryOver allow_empty (length alphabet.now) relations) }
    ensures err { (relations : List (Letters × Letters)) → IfErr result
        (IsLineFault (made_in (scope version alphabet.now allow_empty relations)
        (row_of asks.Classes).ways (texts tokens.now))) }
{
    match tokens {
        [count] => Ok(Query::Classes {
            count: count_of(count)?,
            after: None,
        }),
        [count, after, cursor] => {
            page_after(alloc, version, alphabet, allow_empty, count, after, cursor)
        }
        _ => Err(LineFault::refused(Cause::WrongNumberOfWords)),
    }
}

// How many classes tables may have, and how many tables are asked for.
fn limits_of(classes: &[u8], count: &[u8]) -> Result<(usize, usize), Cause>
    ensures limits { result ≡ limits_of classes.now count.now }
    ensures allowed { IfOk result (λ limits. AreLimits limits.0 limits.1) }
{
    let classes = number_within(1, 16, classes).ok_or(Cause::BadNumber)?;
    let count = count_of(count)?;
    Ok((classes as usize, count))
}

// The search for tables behind the one that the last token is.
fn search_after(
    alloc: Global,
    two_sided: bool,
    alphabet: &Alphabet,
    is_monoid: bool,
    classes: &[u8],
    count: &[u8],
    after: &[u8],
    token: &[u8],
) -> Result<Query, LineFault>
    ensures ok { (version : VersionOf) (relations : List (Letters × Letters)) → IfOk result
        (λ query. made_in (scope version alphabet.now is_monoid relations)
        (row_of (asks.LowIndex two_sided)).ways
        (classes.now ∷ count.now ∷ after.now ∷ token.now ∷ []) ≡ Ok query) }
    ensures over { (relations : List (Letters × Letters)) → IfOk result
        (IsQueryOver is_monoid (length alphabet.now) relations) }
    ensures err { (version : VersionOf) (relations : List (Letters × Letters)) → IfErr result
        (IsLineFault (made_in (scope version alphabet.now is_monoid relations)
        (row_of (asks.LowIndex two_sided)).ways
        (classes.now ∷ count.now ∷ after.now ∷ token.now ∷ []))) }
{
    let (classes, count) = limits_of(classes, count)?;
    if !is_word(b"after", after) {
        return Err(LineFault::refused(Cause::AfterExpected));
    }
    let table = low_table_of(alloc, is_monoid, alphabet.len(), classes, token)?;
    Ok(Query::LowIndex {
        two_sided,
        classes,
        count,
        after: Some(table),
    })
}

// The search for tables that the tokens behind `lowindex` or `lowindex2` ask for.
fn search_of(
    alloc: Global,
    two_sided: bool,
    alphabet: &Alphabet,
    is_monoid: bool,
    tokens: &[&[u8]],
) -> Result<Query, LineFault>
    ensures ok { (version : VersionOf) (relations : List (Letters × Letters)) → IfOk result
        (λ query. made_in (scope version alphabet.now is_monoid relations)
        (row_of (asks.LowIndex two_sided)).ways (texts tokens.now) ≡ Ok query) }
    ensures over { (relations : List (Letters × Letters)) → IfOk result
        (IsQueryOver is_monoid (length alphabet.now) relations) }
    ensures err { (version : VersionOf) (relations : List (Letters × Letters)) → IfErr result
        (IsLineFault (made_in (scope version alphabet.now is_monoid relations)
        (row_of (asks.LowIndex two_sided)).ways (texts tokens.now))) }
{
    match tokens {
        [classes, count] => {
            let (classes, count) = limits_of(classes, count)?;
            Ok(Query::LowIndex {
                two_sided,
                classes,
                count,
                after: None,
            })
        }
        [classes, count, after, table] => search_after(
            alloc, two_sided, alphabet, is_monoid, classes, count, after, table,
        ),
        _ => Err(LineFault::refused(Cause::WrongNumberOfWords)),
    }
}

/// What the words and tables of queries are read over: the version of the script, its letters,
/// whether a word may be empty, and the relations, which hold at the tables of a meet or a join.
#[derive(Drop)]
pub struct Scope<'a> {
    pub version: Version,
    pub alphabet: &'a Alphabet,
    pub allow_empty: bool,
    pub relations: &'a [(Word, Word)],
}

impl<'a> Scope<'a> {
    // The query of this form, which presentations alone have.
    fn of_relations(
        &self,
        alloc: Global,
        form: QueryForm,
        tokens: &[&[u8]],
    ) -> Result<Query, LineFault>
        requires { (row_of form).scripts ≡ OfRelations }
        ensures ok { IfOk result (λ query.
            made_in (seen self.now) (row_of form).ways (texts tokens.now) ≡ Ok query) }
        ensures over { IfOk result (IsQueryOver self.now.allow_empty
            (length self.now.alphabet.now) self.now.relations.now) }
        ensures err { IfErr result (IsLineFault
            (made_in (seen self.now) (row_of form).ways (texts tokens.now))) }
    {
        let letters = self.alphabet.len();
        match form {
            QueryForm::LowIndex { two_sided } => {
                search_of(alloc, two_sided, self.alphabet, self.allow_empty, tokens)
            }
            QueryForm::Meet => {
                let (one, other) = two_tables(
                    alloc,
                    self.allow_empty,
                    letters,
                    self.relations,
                    tokens,
                )?;
                Ok(Query::Meet(one, other))
            }
            QueryForm::Join => {
                let (first, second) = two_tables(
                    alloc,
                    self.allow_empty,
                    letters,
                    self.relations,
                    tokens,
                )?;
                Ok(Query::Join(first, second))
            }
            QueryForm::Chain => {
                let (from, to) = two_words(
                    alloc,
                    self.version,
                    self.alphabet,
                    self.allow_empty,
                    tokens,
                )?;
                Ok(Query::Chain(from, to))
            }
            QueryForm::Index
            | QueryForm::Equal
            | QueryForm::Normal
            | QueryForm::Classes
            | QueryForm::Rules
            | QueryForm::Element
            | QueryForm::Cayley
            | QueryForm::Green
            | QueryForm::Idempotents => unreachable!(),
        }
    }

    // The query of this form, which generators alone have.
    fn of_generators(
        &self,
        alloc: Global,
        form: QueryForm,
        tokens: &[&[u8]],
    ) -> Result<Query, LineFault>
        requires kind { (row_of form).scripts ≡ OfGenerators }
        requires taken { takes form (texts tokens.now) ≡ true }
        ensures ok { IfOk result (λ query.
            made_in (seen self.now) (row_of form).ways (texts tokens.now) ≡ Ok query) }
        ensures over { IfOk result (IsQueryOver self.now.allow_empty
            (length self.now.alphabet.now) self.now.relations.now) }
        ensures err { IfErr result (IsLineFault
            (made_in (seen self.now) (row_of form).ways (texts tokens.now))) }
    {
        match form {
            QueryForm::Element => {
                let value = one_word(alloc, self.version, self.alphabet, self.allow_empty, tokens)?;
                Ok(Query::ElementOf(value))
            }
            QueryForm::Cayley => Ok(Query::Cayley),
            QueryForm::Green => Ok(Query::Green(one_relation(tokens)?)),
            QueryForm::Idempotents => Ok(Query::Idempotents),
            QueryForm::Index
            | QueryForm::Equal
            | QueryForm::Normal
            | QueryForm::Classes
            | QueryForm::Rules
            | QueryForm::LowIndex { .. }
            | QueryForm::Meet
            | QueryForm::Join
            | QueryForm::Chain => unreachable!(),
        }
    }

    /// The query of this form, by the tokens behind its name, which are as many as it takes; the
    /// relations hold at the tables of a meet or a join. Refused for the cause of the first token
    /// that has one, or for want of memory.
    pub fn query(
        &self,
        alloc: Global,
        form: QueryForm,
        tokens: &[&[u8]],
    ) -> Result<Query, LineFault>
        requires { takes form (texts tokens.now) ≡ true }
        ensures ok { IfOk result (λ query.
            made_in (seen self.now) (row_of form).ways (texts tokens.now) ≡ Ok query) }
        ensures over { IfOk result (IsQueryOver self.now.allow_empty
            (length self.now.alphabet.now) self.now.relations.now) }
        ensures err { IfErr result (IsLineFault
            (made_in (seen self.now) (row_of form).ways (texts tokens.now))) }
    {
        match form {
            QueryForm::Index => Ok(Query::Index),
            QueryForm::Equal => {
                let (left, right) = two_words(
                    alloc,
                    self.version,
                    self.alphabet,
                    self.allow_empty,
                    tokens,
                )?;
                Ok(Query::Equal(left, right))
            }
            QueryForm::Normal => {
                let word = one_word(alloc, self.version, self.alphabet, self.allow_empty, tokens)?;
                Ok(Query::Normal(word))
            }
            QueryForm::Classes => {
                page_of(alloc, self.version, self.alphabet, self.allow_empty, tokens)
            }
            QueryForm::Rules => Ok(Query::RuleList),
            QueryForm::LowIndex { .. } | QueryForm::Meet | QueryForm::Join | QueryForm::Chain => {
                self.of_relations(alloc, form, tokens)
            }
            QueryForm::Element | QueryForm::Cayley | QueryForm::Green | QueryForm::Idempotents =>
                self.of_generators(alloc, form, tokens),
        }
    }
}
