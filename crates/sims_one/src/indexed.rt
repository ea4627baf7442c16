// Presentations with the places of letters in their relations.
ghost use Rattle.std.specs.Prelude.{◌≡◌, ◌<◌, ◌≤◌};
ghost use Rattle.presentation.specs.Presented.{IsPresented};

use crate::places::Places;
use presentation::{Pairs, Presentation};
use std::marker::Model;

/// A presentation, with the places of the letters in its relations. To a contract it is the
/// presentation.
#[derive(Drop)]
pub struct Indexed<'a> {
    presentation: &'a Presentation,
    places: &'a Places,
}

impl<'a> Model for Indexed<'a> {
    ghost use Rattle.presentation.specs.Presented.{Presented};

    ghost Value = { Presented };

    ghost view = { λ i. i.presentation.now };
}

impl<'a> Indexed<'a> {
    /// The presentation with these places.
    pub fn new(presentation: &'a Presentation, places: &'a Places) -> Indexed<'a>
        ensures { result ≡ presentation.now }
    {
        Indexed {
            presentation,
            places,
        }
    }

    /// How many letters the alphabet has: from 1 to 53.
    pub fn letters(&self) -> usize
        ensures letters { result ≡ self.now.presentation.letters }
        ensures some { 0 < result }
        ensures few { result ≤ 53 }
    {
        self.presentation.letters()
    }

    /// Whether the empty word is an element.
    pub fn is_monoid(&self) -> bool
        ensures { result ≡ self.now.presentation.is_monoid }
    {
        self.presentation.is_monoid()
    }

    /// The relations.
    pub fn relations(&self) -> &Pairs
        ensures relations { result.now ≡ self.now.presentation.relations }
        ensures presented { IsPresented self.now }
    {
        self.presentation.relations()
    }

    /// The places of the letters in the relations.
    pub fn places(&self) -> &Places {
        self.places
    }
}
