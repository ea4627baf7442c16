// The forms of lines behind the header that begin with a name.
ghost use Rattle.std.specs.Prelude.{◌≡◌, ◌&&◌};
ghost use Rattle.line_parts.specs.Token.{is_word};
ghost use Rattle.query_lang.specs.Forms.{form_named, has_form, has_query, name_of, row_of, section_of};

use crate::role::Role;
use line_parts::{Version, is_word};
use presentation::Kind;

/// The forms of queries.
#[derive(Clone, Copy)]
pub enum QueryForm {
    /// `index`
    Index,
    /// `equal U V`
    Equal,
    /// `normal U`
    Normal,
    /// `classes N`, or `classes N after U`
    Classes,
    /// `rules`
    Rules,
    /// `element U`
    Element,
    /// `cayley`
    Cayley,
    /// `lowindex N M`, or `lowindex N M after TABLE`; for two-sided congruences `lowindex2`
    LowIndex { two_sided: bool },
    /// `meet TABLE TABLE`
    Meet,
    /// `join TABLE TABLE`
    Join,
    /// `chain U V`
    Chain,
    /// `green r`, or another of Green's relations
    Green,
    /// `idempotents`
    Idempotents,
}

/// The forms of lines behind the header that begin with a name.
#[derive(Clone, Copy)]
pub enum Form {
    /// A relation.
    Relation,
    /// A role of letters.
    OfRole(Role),
    /// A pair.
    Pair(Kind),
    /// A query.
    Asks(QueryForm),
}

// All forms.
const FORMS: [Form; 21] = [
    Form::Relation,
    Form::OfRole(Role::Identity),
    Form::OfRole(Role::Zero),
    Form::OfRole(Role::Inverse),
    Form::Pair(Kind::TwoSided),
    Form::Pair(Kind::Right),
    Form::Pair(Kind::Left),
    Form::Asks(QueryForm::Index),
    Form::Asks(QueryForm::Equal),
    Form::Asks(QueryForm::Normal),
    Form::Asks(QueryForm::Classes),
    Form::Asks(QueryForm::Rules),
    Form::Asks(QueryForm::Element),
    Form::Asks(QueryForm::Cayley),
    Form::Asks(QueryForm::LowIndex { two_sided: false }),
    Form::Asks(QueryForm::LowIndex { two_sided: true }),
    Form::Asks(QueryForm::Meet),
    Form::Asks(QueryForm::Join),
    Form::Asks(QueryForm::Chain),
    Form::Asks(QueryForm::Green),
    Form::Asks(QueryForm::Idempotents),
];

impl QueryForm {
    // The name of the query.
    fn name(self) -> &'static [u8]
        ensures { result.now ≡ (row_of self).name }
    {
        match self {
            QueryForm::Index => b"index",
            QueryForm::Equal => b"equal",
            QueryForm::Normal => b"normal",
            QueryForm::Classes => b"classes",
            QueryForm::Rules => b"rules",
            QueryForm::Element => b"element",
            QueryForm::Cayley => b"cayley",
            QueryForm::LowIndex { two_sided: false } => b"lowindex",
            QueryForm::LowIndex { two_sided: true } => b"lowindex2",
            QueryForm::Meet => b"meet",
            QueryForm::Join => b"join",
            QueryForm::Chain => b"chain",
            QueryForm::Green => b"green",
            QueryForm::Idempotents => b"idempotents",
        }
    }

    // Whether a presentation has it, or a script of generators.
    fn is_there(self, is_presentation: bool) -> bool
        ensures { result ≡ has_query is_presentation self }
    {
        match self {
            QueryForm::Index
            | QueryForm::Equal
            | QueryForm::Normal
            | QueryForm::Classes
            | QueryForm::Rules => true,
            QueryForm::LowIndex { .. } | QueryForm::Meet | QueryForm::Join | QueryForm::Chain =>
                is_presentation,
            QueryForm::Element | QueryForm::Cayley | QueryForm::Green | QueryForm::Idempotents =>
                !is_presentation,
        }
    }
}

impl Form {
    // The name of the form.
    fn name(self) -> &'static [u8]
        ensures { result.now ≡ name_of self }
    {
        match self {
            Form::Relation => b"rel",
            Form::OfRole(Role::Identity) => b"identity",
            Form::OfRole(Role::Zero) => b"zero",
            Form::OfRole(Role::Inverse) => b"inverse",
            Form::Pair(Kind::TwoSided) => b"twosided",
            Form::Pair(Kind::Right) => b"right",
            Form::Pair(Kind::Left) => b"left",
            Form::Asks(query) => query.name(),
        }
    }

    // Whether a presentation of this version has it, or a script of generators.
    fn is_there(self, version: Version, is_presentation: bool) -> bool
        ensures { result ≡ has_form version is_presentation self }
    {
        match self {
            Form::Relation => is_presentation,
            Form::OfRole(_) => is_presentation && version.has_roles(),
            Form::Pair(_) => true,
            Form::Asks(query) => query.is_there(is_presentation),
        }
    }

    /// The section of the form: 2 relations, 3 pairs, 4 queries.
    pub fn section(self) -> u8
        ensures { result ≡ section_of self }
    {
        match self {
            Form::Relation | Form::OfRole(_) => 2,
            Form::Pair(_) => 3,
            Form::Asks(_) => 4,
        }
    }

    // Whether the script has the form, and the token is its name.
    fn is_named(self, version: Version, is_presentation: bool, token: &[u8]) -> bool
        ensures { result ≡ (is_word (name_of self) token.now
            && has_form version is_presentation self) }
    {
        is_word(self.name(), token) && self.is_there(version, is_presentation)
    }
}

/// The form that the token names in a script of this version: a presentation, or of generators.
pub fn form_named(version: Version, is_presentation: bool, token: &[u8]) -> Option<Form>
    ensures { result ≡ form_named version is_presentation token.now }
{
    for form in FORMS {
        if form.is_named(version, is_presentation, token) {
            return Some(form);
        }
    }
    None
}
