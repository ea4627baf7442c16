// Transformations.
ghost use Rattle.std.specs.Prelude.{◌≡◌, ◌≢◌, ℕ, ◌<◌, ◌≤◌, ◌⊎◌, IfOk, IsErrOf, IsTrue, ◌↔◌, length, map, All, List, MatchOption, ◌==◌, codes, decimal, fold, slice_index_or};
ghost use Rattle.std.specs.List.{join_by};
ghost use Rattle.std.proofs.Common.{rules};
ghost use Rattle.std.specs.Cmp.Lexicographic.{pointwise, slice_cmp};
ghost use Rattle.std.specs.Cmp.Rules.{comparing};
ghost use Rattle.std.specs.Ordering.{nat_cmp, as_partial_cmp};
ghost use Rattle.elements.specs.Fields.{IsImage, IsFirstBad};
ghost use Rattle.elements.specs.Transf.{composed, AreImages};
ghost use Rattle.elements.specs.Hashes.{images_hash};
ghost use Rattle.elements.specs.TransfLaws.{images_alike, composed_products, one_degree};

use super::base_sixteen::digit;
use super::element::Element;
use super::field::{ElementFault, Field};
use images::Images;
use itoa::Buffer;
use packed::{pack, packed_product};
use ports::NoMemory;
use std::alloc::Global;
use std::cmp::{Ordering, min};
use std::hash::{Hash, Hasher};
use std::marker::Model;
use theory::values::Values;

mod images;
mod packed;

// Up to sixteen images are the digits of one number in base 16, the first image the highest one.
// The degree stands before it.
#[derive(Drop)]
enum Form {
    Packed(u32, u64),
    Long(Box<Images>),
}

/// A transformation of the points 0 to n - 1: the list of their images (libsemigroups, `Transf` and
/// `Transf16`). Contracts see that list. Its shape is the degree n.
#[derive(Drop)]
pub struct Transf {
    form: Form,
}

impl Model for Transf {
    ghost use Rattle.std.specs.Prelude.{ℕ, List};

    ghost Value = { List ℕ };

    ghost use Rattle.elements.specs.TransfForms.{images_of, IsForm};

    ghost view = { λ t. images_of t.form };

    ghost invariant = { λ t. IsForm t.form };
}

impl PartialEq for Transf {
    ghost eq = { pointwise ◌==◌ };

    ghost laws = { Prim.search (comparing, rules) };

    fn eq(&self, other: &Transf) -> bool {
        match &self.form {
            Form::Packed(n, x) => match &other.form {
                Form::Packed(m, y) => *n == *m && *x == *y,
                Form::Long(_) => false,
            },
            Form::Long(images) => match &other.form {
                Form::Packed(_, _) => false,
                Form::Long(more) => **images == **more,
            },
        }
    }
}

impl Eq for Transf {
    ghost laws = { Prim.search (comparing, rules) };
}

impl PartialOrd for Transf {
    ghost partial_cmp = { as_partial_cmp (slice_cmp nat_cmp) };

    ghost laws = { Prim.search (comparing, rules) };

    fn partial_cmp(&self, other: &Transf) -> Option<Ordering> {
        Some(self.cmp(other))
    }
}

impl Ord for Transf {
    ghost cmp = { slice_cmp nat_cmp };

    ghost total = { Prim.search (comparing, rules) };

    ghost matches_partial_cmp = { Prim.search (comparing, rules) };

    ghost matches_eq = { Prim.search (comparing, rules) };

    fn cmp(&self, other: &Transf) -> Ordering {
        for point in 0..min(self.degree(), other.degree()) {
            let order = self.image(point).cmp(&other.image(point));
            if order != Ordering::Equal {
                return order;
            }
        }
        self.degree().cmp(&other.degree())
    }
}

impl Hash for Transf {
    ghost hash_input = { images_hash };

    ghost respects_eq = { images_alike };

    fn hash<H: Hasher>(&self, state: &mut H) {
        match &self.form {
            Form::Packed(_, x) => state.write_u64(*x),
            Form::Long(images) => images.feed(state),
        }
    }
}

impl Values for Transf {
    ghost shape = { λ t. (length t, 0) };

    ghost product = { composed };

    ghost products = { composed_products };

    fn same_shape(&self, other: &Transf) -> bool {
        self.degree() == other.degree()
    }
}

impl Element for Transf {
    ghost one_shape = { one_degree };

    fn product(&self, alloc: Global, other: &Transf) -> Result<Transf, NoMemory> {
        match &self.form {
            Form::Packed(n, x) => match &other.form {
                Form::Packed(_, y) => {
                    let form = Form::Packed(*n, packed_product(*n, *x, *y));
                    Ok(Transf { form })
                }
                Form::Long(_) => unreachable!(),
            },
            Form::Long(left) => match &other.form {
                Form::Packed(_, _) => unreachable!(),
                Form::Long(right) => {
                    let images = left.compose(alloc, right)?;
                    let form = Form::Long(Box::new(alloc, images)?);
                    Ok(Transf { form })
                }
            },
        }
    }

    fn copy(&self, alloc: Global) -> Result<Transf, NoMemory> {
        match &self.form {
            Form::Packed(n, x) => {
                let form = Form::Packed(*n, *x);
                Ok(Transf { form })
            }
            Form::Long(images) => {
                let images = images.copy(alloc)?;
                let form = Form::Long(Box::new(alloc, images)?);
                Ok(Transf { form })
            }
        }
    }
}

// The image that an entry names, if it is below the degree.
fn image_below(field: Field, degree: u32) -> Option<u32>
    ensures { MatchOption result (IsImage degree field → ⊥)
        (λ y. (field ≡ Field.Number y) × (y < degree)) }
{
    match field {
        Field::Number(y) if y < degree => Some(y),
        _ => None,
    }
}

// The images that the fields name.
fn read_images(alloc: Global, degree: u32, fields: &[Field]) -> Result<Vec<u32>, ElementFault>
    ensures images { IfOk result (λ v. map Field.Number v.items ≡ fields.now) }
    ensures in_range { IfOk result (λ v. All (λ y. y < degree) v.items) }
    ensures count { IsErrOf result ElementFault.BadCount → ⊥ }
    ensures entry { (place : ℕ) → IsErrOf result (ElementFault.BadEntry place)
        → IsFirstBad degree fields.now place }
    ensures refused { (place : ℕ) → IsFirstBad degree fields.now place
        → IsErrOf result (ElementFault.BadEntry place) ⊎ IsErrOf result ElementFault.NoMemory }
    ensures injective { (place : ℕ) → IsErrOf result (ElementFault.NotInjective place) → ⊥ }
{
    let mut images = Vec::with_capacity(alloc, fields.len())?;
    for (i, field) in fields.iter().enumerate() {
        match image_below(*field, degree) {
            Some(y) => images.push(y)?,
            None => return Err(ElementFault::BadEntry(i)),
        }
    }
    Ok(images)
}

// The transformation with these images, packed if they are up to sixteen.
fn from_images(alloc: Global, degree: u32, images: Vec<u32>) -> Result<Transf, NoMemory>
    requires degree { length images.items ≡ degree }
    requires images { AreImages images.items }
    ensures { IfOk result (λ t. t ≡ images.items) }
{
    if degree <= 16 {
        let form = Form::Packed(degree, pack(&images));
        return Ok(Transf { form });
    }
    let form = Form::Long(Box::new(alloc, Images::from_vec(alloc, images)?)?);
    Ok(Transf { form })
}

impl Transf {
    /// The number of points.
    pub fn degree(&self) -> usize
        ensures degree { result ≡ length self.now }
        ensures images { AreImages self.now }
    {
        match &self.form {
            Form::Packed(n, _) => *n as usize,
            Form::Long(images) => images.len(),
        }
    }

    // The image of a point.
    fn image(&self, point: usize) -> u32
        requires { point < length self.now }
        ensures { result ≡ slice_index_or self.now point 0 }
    {
        match &self.form {
            Form::Packed(n, x) => digit(*x, *n - 1 - point as u32) as u32,
            Form::Long(images) => images.at(point),
        }
    }

    /// The transformation of `degree` points with these images, in their order. Refused with
    /// `BadCount` exactly where there are not `degree` entries, then with `BadEntry` at the first
    /// entry that is no number below `degree`; never with `NotInjective`.
    pub fn read(alloc: Global, degree: u32, fields: &[Field]) -> Result<Transf, ElementFault>
        ensures images { IfOk result (λ t. (length t ≡ degree)
            × (map Field.Number t ≡ fields.now)) }
        ensures in_range { IfOk result (λ t. All (λ y. y < degree) t) }
        ensures count { IsErrOf result ElementFault.BadCount ↔ (length fields.now ≢ degree) }
        ensures entry { (place : ℕ) → IsErrOf result (ElementFault.BadEntry place)
            → (length fields.now ≡ degree) × IsFirstBad degree fields.now place }
        ensures refused { (place : ℕ) → length fields.now ≡ degree
            → IsFirstBad degree fields.now place
            → IsErrOf result (ElementFault.BadEntry place) ⊎ IsErrOf result ElementFault.NoMemory }
        ensures injective { (place : ℕ) → IsErrOf result (ElementFault.NotInjective place) → ⊥ }
    {
        if fields.len() != degree as usize {
            return Err(ElementFault::BadCount);
        }
        let images = read_images(alloc, degree, fields)?;
        match from_images(alloc, degree, images) {
            Ok(made) => Ok(made),
            Err(_) => Err(ElementFault::NoMemory),
        }
    }

    /// The images in decimal, with one space between each two.
    pub fn print(&self, alloc: Global) -> Result<Vec<u8>, NoMemory>
        ensures { IfOk result (λ text. text.items ≡ join_by decimal (codes " ") self.now) }
    {
        let mut text = Vec::new(alloc);
        let mut buffer = Buffer::new();
        for point in 0..self.degree() {
            if 0 < point {
                text.push(b' ')?;
            }
            text.extend_from_slice(buffer.format(self.image(point)).as_bytes())?;
        }
        Ok(text)
    }
}
