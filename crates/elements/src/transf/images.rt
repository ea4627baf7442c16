// More than sixteen images: bytes where they are at most 256, and else numbers of four bytes.
ghost use Rattle.std.specs.Prelude.{◌≡◌, ◌<◌, ◌^◌, ◌==◌, length, All, IfOk, slice_index_or, fold};
ghost use Rattle.std.proofs.Common.{rules};
ghost use Rattle.std.specs.Cmp.Lexicographic.{pointwise};
ghost use Rattle.std.specs.Cmp.Rules.{comparing};
ghost use Rattle.elements.specs.Hashes.{octet, octets_hash};
ghost use Rattle.elements.specs.Transf.{AreImages, composed, image};

use ports::NoMemory;
use std::alloc::Global;
use std::cmp::min;
use std::hash::Hasher;
use std::marker::Model;

// The same images in one of two lists.
#[derive(Drop)]
enum Kept {
    Bytes(Vec<u8>),
    Wide(Vec<u32>),
}

// Images. Contracts see their list.
#[derive(Drop)]
pub(crate) struct Images {
    kept: Kept,
}

impl Model for Images {
    ghost use Rattle.std.specs.Prelude.{ℕ, List};

    ghost Value = { List ℕ };

    ghost use Rattle.elements.specs.KeptImages.{list_of, IsKept};

    ghost view = { λ i. list_of i.kept };

    ghost invariant = { λ i. IsKept i.kept };
}

impl PartialEq for Images {
    ghost eq = { pointwise ◌==◌ };

    ghost laws = { Prim.search (comparing, rules) };

    fn eq(&self, other: &Images) -> bool {
        match &self.kept {
            Kept::Bytes(images) => match &other.kept {
                Kept::Bytes(more) => *images == *more,
                Kept::Wide(_) => false,
            },
            Kept::Wide(images) => match &other.kept {
                Kept::Bytes(_) => false,
                Kept::Wide(more) => *images == *more,
            },
        }
    }
}

impl Images {
    // These images.
    pub(crate) fn from_vec(alloc: Global, images: Vec<u32>) -> Result<Images, NoMemory>
        requires { AreImages images.items }
        ensures { IfOk result (λ made. made ≡ images.items) }
    {
        if images.len() <= 256 {
            let kept = Kept::Bytes(bytes_of(alloc, &images)?);
            return Ok(Images { kept });
        }
        let kept = Kept::Wide(images);
        Ok(Images { kept })
    }

    // How many images there are.
    pub(crate) fn len(&self) -> usize
        ensures length { result ≡ length self.now }
        ensures small { result < 2 ^ 63 }
    {
        match &self.kept {
            Kept::Bytes(images) => images.len(),
            Kept::Wide(images) => images.len(),
        }
    }

    // The image of a point.
    pub(crate) fn at(&self, point: usize) -> u32
        requires { point < length self.now }
        ensures { result ≡ slice_index_or self.now point 0 }
    {
        match &self.kept {
            Kept::Bytes(images) => images[point] as u32,
            Kept::Wide(images) => images[point],
        }
    }

    // These images under the right ones.
    pub(crate) fn compose(&self, alloc: Global, right: &Images) -> Result<Images, NoMemory>
        requires length { length self.now ≡ length right.now }
        requires images { AreImages self.now }
        ensures { IfOk result (λ made. made ≡ composed self.now right.now) }
    {
        match &self.kept {
            Kept::Bytes(images) => match &right.kept {
                Kept::Bytes(more) => {
                    let kept = Kept::Bytes(compose_bytes(alloc, images, more)?);
                    Ok(Images { kept })
                }
                Kept::Wide(_) => unreachable!(),
            },
            Kept::Wide(images) => match &right.kept {
                Kept::Bytes(_) => unreachable!(),
                Kept::Wide(more) => {
                    let kept = Kept::Wide(compose(alloc, images, more)?);
                    Ok(Images { kept })
                }
            },
        }
    }

    // The same images.
    pub(crate) fn copy(&self, alloc: Global) -> Result<Images, NoMemory>
        ensures { IfOk result (λ made. made ≡ self.now) }
    {
        match &self.kept {
            Kept::Bytes(images) => {
                let kept = Kept::Bytes(Vec::from_slice(alloc, images.as_slice())?);
                Ok(Images { kept })
            }
            Kept::Wide(images) => {
                let kept = Kept::Wide(Vec::from_slice(alloc, images.as_slice())?);
                Ok(Images { kept })
            }
        }
    }

    // Feeds a hasher one number for each eight images. The degree is left out, since the
    // transformations of a set have the same one.
    pub(crate) fn feed<H: Hasher>(&self, state: &mut H)
        ensures { state.new ≡ fold H.write state.old (octets_hash self.now) }
    {
        for k in 0..self.len().div_ceil(8) {
            state.write_u64(self.octet(8 * k));
        }
    }

    // The images from a point on as one number, eight at most.
    fn octet(&self, start: usize) -> u64
        requires { start < length self.now }
        ensures { result ≡ octet self.now start }
    {
        let len = self.len();
        let mut number = 0;
        for point in start..min(start + 8, len) {
            number = number << 8 | self.at(point) as u64;
        }
        number
    }
}

// The images as bytes.
fn bytes_of(alloc: Global, images: &[u32]) -> Result<Vec<u8>, NoMemory>
    requires { All (λ y. y < 256) images.now }
    ensures { IfOk result (λ bytes. bytes.items ≡ images.now) }
{
    let mut bytes = Vec::with_capacity(alloc, images.len())?;
    for y in images {
        bytes.push(*y as u8)?;
    }
    Ok(bytes)
}

// The images of the left list under the right one.
fn compose(alloc: Global, left: &[u32], right: &[u32]) -> Result<Vec<u32>, NoMemory>
    requires { All (λ y. y < length right.now) left.now }
    ensures { IfOk result (λ images. images.items ≡ composed left.now right.now) }
{
    let mut images = Vec::with_capacity(alloc, left.len())?;
    for y in left {
        images.push(right[*y as usize])?;
    }
    Ok(images)
}

// The same of bytes.
fn compose_bytes(alloc: Global, left: &[u8], right: &[u8]) -> Result<Vec<u8>, NoMemory>
    requires { All (λ y. y < length right.now) left.now }
    ensures { IfOk result (λ images. images.items ≡ composed left.now right.now) }
{
    let mut images = Vec::with_capacity(alloc, left.len())?;
    for y in left {
        images.push(right[*y as usize])?;
    }
    Ok(images)
}
