// Partial permutations.
ghost use Rattle.std.specs.Prelude.{◌≡◌, ◌≢◌, ℕ, ◌<◌, ◌≤◌, ◌⊎◌, IfOk, IsErrOf, IsTrue, ◌↔◌, length, map, All, List, Option, None, Some, MatchOption, ◌==◌, codes, slice_index_or};
ghost use Rattle.std.specs.List.{join_by};
ghost use Rattle.std.specs.Option.{option_eq, option_cmp};
ghost use Rattle.std.proofs.Common.{rules};
ghost use Rattle.std.specs.Cmp.Lexicographic.{pointwise, slice_cmp};
ghost use Rattle.std.specs.Cmp.Rules.{comparing};
ghost use Rattle.std.specs.Ordering.{nat_cmp, as_partial_cmp};
ghost use Rattle.elements.specs.Fields.{IsBelow, field_of, IsBelowOrDash, IsFirstRefused, decimal_or_dash};
ghost use Rattle.elements.specs.Hashes.{partial_hash};
ghost use Rattle.elements.specs.PPerm.{partial_image, partially_composed, IsInjective, ArePartialImages, IsFirstRepeat, IsFirstAgain};
ghost use Rattle.elements.specs.PPermLaws.{partial_products, one_partial_degree, entries_alike, entries_ties, entries_order};

use super::element::Element;
use super::entries::{hash_entries, print_optional, read_optional};
use super::field::{ElementFault, Field};
use packed::{image_at, pack, packed_product, unpack};
use ports::NoMemory;
use std::alloc::{AllocError, Global};
use std::cmp::{Ordering, min};
use std::hash::{Hash, Hasher};
use std::marker::Model;
use theory::values::Values;

mod packed;

// Up to fifteen images are the digits of one number in base 16, the first image the highest one: 0
// for none, and else the image plus one. The degree stands before it.
#[derive(Drop)]
enum Form {
    Packed(u32, u64),
    Long(Box<Vec<Option<u32>>>),
}

/// A partial permutation of the points 0 to n - 1: each point has an image or none, and no image
/// twice (libsemigroups, `PPerm` and `PPerm16`). Contracts see the list of the images. Its shape is
/// the degree n.
#[derive(Drop)]
pub struct PPerm {
    form: Form,
}

impl Model for PPerm {
    ghost use Rattle.std.specs.Prelude.{ℕ, List, Option};

    ghost Value = { List (Option ℕ) };

    ghost use Rattle.elements.specs.PPermForms.{images_of, IsForm};

    ghost view = { λ p. images_of p.form };

    ghost invariant = { λ p. IsForm p.form };
}

impl PartialEq for PPerm {
    ghost eq = { pointwise (option_eq ◌==◌) };

    ghost laws = { Prim.search (comparing, rules) };

    fn eq(&self, other: &PPerm) -> bool {
        match &self.form {
            Form::Packed(n, x) => match &other.form {
                Form::Packed(m, y) => *n == *m && *x == *y,
                Form::Long(_) => false,
            },
            Form::Long(images) => match &other.form {
                Form::Packed(_, _) => false,
                Form::Long(more) => **images == **more,
            },
        }
    }
}

impl Eq for PPerm {
    ghost laws = { Prim.search (comparing, rules) };
}

impl PartialOrd for PPerm {
    ghost partial_cmp = { as_partial_cmp (slice_cmp (option_cmp nat_cmp)) };

    ghost laws = { entries_order };

    fn partial_cmp(&self, other: &PPerm) -> Option<Ordering> {
        Some(self.cmp(other))
    }
}

impl Ord for PPerm {
    ghost cmp = { slice_cmp (option_cmp nat_cmp) };

    ghost total = { Prim.search (comparing, rules) };

    ghost matches_partial_cmp = { Prim.search (comparing, rules) };

    ghost matches_eq = { entries_ties };

    fn cmp(&self, other: &PPerm) -> Ordering {
        for point in 0..min(self.degree(), other.degree()) {
            let order = self.image(point).cmp(&other.image(point));
            if order != Ordering::Equal {
                return order;
            }
        }
        self.degree().cmp(&other.degree())
    }
}

impl Hash for PPerm {
    ghost hash_input = { partial_hash };

    ghost respects_eq = { entries_alike };

    fn hash<H: Hasher>(&self, state: &mut H) {
        match &self.form {
            Form::Packed(_, x) => state.write_u64(*x),
            Form::Long(images) => hash_entries(images, state),
        }
    }
}

impl Values for PPerm {
    ghost shape = { λ p. (length p, 0) };

    ghost product = { partially_composed };

    ghost products = { partial_products };

    fn same_shape(&self, other: &PPerm) -> bool {
        self.degree() == other.degree()
    }
}

impl Element for PPerm {
    ghost one_shape = { one_partial_degree };

    fn product(&self, alloc: Global, other: &PPerm) -> Result<PPerm, NoMemory> {
        match &self.form {
            Form::Packed(n, x) => match &other.form {
                Form::Packed(_, y) => {
                    let form = Form::Packed(*n, packed_product(*n, *x, *y));
                    Ok(PPerm { form })
                }
                Form::Long(_) => unreachable!(),
            },
            Form::Long(left) => match &other.form {
                Form::Packed(_, _) => unreachable!(),
                Form::Long(right) => {
                    let images = compose_partial(alloc, left, right)?;
                    let form = Form::Long(Box::new(alloc, images)?);
                    Ok(PPerm { form })
                }
            },
        }
    }

    fn copy(&self, alloc: Global) -> Result<PPerm, NoMemory> {
        match &self.form {
            Form::Packed(n, x) => {
                let form = Form::Packed(*n, *x);
                Ok(PPerm { form })
            }
            Form::Long(images) => {
                let images = Vec::from_slice(alloc, images.as_slice())?;
                let form = Form::Long(Box::new(alloc, images)?);
                Ok(PPerm { form })
            }
        }
    }
}

// The images of the left list under the right one.
fn compose_partial(
    alloc: Global,
    left: &[Option<u32>],
    right: &[Option<u32>],
) -> Result<Vec<Option<u32>>, NoMemory>
    requires { All (IsBelow (length right.now)) left.now }
    ensures { IfOk result (λ images. images.items ≡ partially_composed left.now right.now) }
{
    let mut images = Vec::with_capacity(alloc, left.len())?;
    for y in left {
        images.push(image_of(right, *y))?;
    }
    Ok(images)
}

// The image of a point, where both are defined.
fn image_of(images: &[Option<u32>], point: Option<u32>) -> Option<u32>
    requires { IsBelow (length images.now) point }
    ensures { result ≡ partial_image images.now point }
{
    match point {
        Some(k) => images[k as usize],
        None => None,
    }
}

// The first place with an image that an earlier place has.
fn first_repeat(alloc: Global, images: &[Option<u32>]) -> Result<Option<usize>, AllocError>
    requires { All (IsBelow (length images.now)) images.now }
    ensures { IfOk result (λ found. MatchOption found (IsInjective images.now)
        (IsFirstAgain images.now)) }
{
    let mut seen = Vec::from_elem(alloc, false, images.len())?;
    for (i, image) in images.iter().enumerate() {
        if let Some(y) = *image {
            if seen[y as usize] {
                return Ok(Some(i));
            }
            seen[y as usize] = true;
        }
    }
    Ok(None)
}

// The partial permutation with these images, packed if they are up to fifteen.
fn from_images(alloc: Global, images: Vec<Option<u32>>) -> Result<PPerm, NoMemory>
    requires { ArePartialImages images.items }
    ensures { IfOk result (λ p. p ≡ images.items) }
{
    if images.len() <= 15 {
        let form = Form::Packed(images.len() as u32, pack(&images));
        return Ok(PPerm { form });
    }
    let form = Form::Long(Box::new(alloc, images)?);
    Ok(PPerm { form })
}

impl PPerm {
    /// The number of points.
    pub fn degree(&self) -> usize
        ensures degree { result ≡ length self.now }
        ensures images { ArePartialImages self.now }
    {
        match &self.form {
            Form::Packed(n, _) => *n as usize,
            Form::Long(images) => images.len(),
        }
    }

    // The image of a point, if it has one.
    fn image(&self, point: usize) -> Option<u32>
        requires { point < length self.now }
        ensures { result ≡ slice_index_or self.now point None }
    {
        match &self.form {
            Form::Packed(n, x) => image_at(*n, *x, point as u32),
            Form::Long(images) => images[point],
        }
    }

    /// The partial permutation of `degree` points with these images, in their order; a dash is no
    /// image. Refused with `BadCount` exactly where there are not `degree` entries; then with
    /// `BadEntry` at the first entry that is neither a dash nor a number below `degree`; then with
    /// `NotInjective` at the first place with an image that an earlier place has.
    pub fn read(alloc: Global, degree: u32, fields: &[Field]) -> Result<PPerm, ElementFault>
        ensures images { IfOk result (λ p. (length p ≡ degree) × (map field_of p ≡ fields.now)) }
        ensures valid { IfOk result ArePartialImages }
        ensures count { IsErrOf result ElementFault.BadCount ↔ (length fields.now ≢ degree) }
        ensures entry { (place : ℕ) → IsErrOf result (ElementFault.BadEntry place)
            → (length fields.now ≡ degree)
            × IsFirstRefused (IsBelowOrDash degree) fields.now place }
        ensures refused { (place : ℕ) → length fields.now ≡ degree
            → IsFirstRefused (IsBelowOrDash degree) fields.now place
            → IsErrOf result (ElementFault.BadEntry place) ⊎ IsErrOf result ElementFault.NoMemory }
        ensures injective { (place : ℕ) → IsErrOf result (ElementFault.NotInjective place)
            → (length fields.now ≡ degree) × All (IsBelowOrDash degree) fields.now
            × IsFirstRepeat fields.now place }
        ensures repeated { (place : ℕ) → length fields.now ≡ degree
            → All (IsBelowOrDash degree) fields.now → IsFirstRepeat fields.now place
            → IsErrOf result (ElementFault.NotInjective place)
            ⊎ IsErrOf result ElementFault.NoMemory }
    {
        if fields.len() != degree as usize {
            return Err(ElementFault::BadCount);
        }
        let images = read_optional(alloc, degree as u64, fields)?;
        if let Some(place) = first_repeat(alloc, &images)? {
            return Err(ElementFault::NotInjective(place));
        }
        match from_images(alloc, images) {
            Ok(made) => Ok(made),
            Err(_) => Err(ElementFault::NoMemory),
        }
    }

    /// The images in decimal, with one space between each two; `-` for none.
    pub fn print(&self, alloc: Global) -> Result<Vec<u8>, NoMemory>
        ensures { IfOk result (λ text. text.items ≡ join_by decimal_or_dash (codes " ") self.now) }
    {
        match &self.form {
            Form::Packed(n, x) => print_optional(alloc, &unpack(alloc, *n, *x)?),
            Form::Long(images) => print_optional(alloc, images),
        }
    }
}
