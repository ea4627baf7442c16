// Lists of elements.
ghost use Rattle.std.specs.Prelude.{◌≡◌, IfOk};

use elements::Element;
use ports::NoMemory;
use std::alloc::Global;
use std::marker::Model;

/// Elements, as the generators of a semigroup. Contracts see their list.
#[derive(Drop)]
pub struct Gens<E: Element> {
    elements: Vec<E>,
}

impl<E: Element> Model for Gens<E> {
    ghost use Rattle.std.specs.Prelude.{List};
    ghost use Rattle.std.specs.Coded.{coded_list};

    ghost Value = { List E };

    ghost coded = { coded_list E.code };

    ghost view = { λ g. g.elements.items };
}

impl<E: Element> Gens<E> {
    /// These elements.
    pub fn from_vec(elements: Vec<E>) -> Gens<E>
        ensures { result ≡ elements.items }
    {
        Gens { elements }
    }

    /// The same elements in memory of their own. Refused only where memory is wanting.
    pub fn copy(&self, alloc: Global) -> Result<Gens<E>, NoMemory>
        ensures { IfOk result (λ copy. copy ≡ self.now) }
    {
        let mut elements = Vec::new(alloc);
        for element in &self.elements {
            elements.push(element.copy(alloc)?)?;
        }
        Ok(Gens { elements })
    }

    /// The elements, in order. It takes no memory.
    pub fn into_vec(self) -> Vec<E>
        ensures { result.items ≡ self }
    {
        self.elements
    }

    /// The elements, in order, lent.
    pub fn as_vec(&self) -> &Vec<E>
        ensures { result.now.items ≡ self.now }
    {
        &self.elements
    }
}
