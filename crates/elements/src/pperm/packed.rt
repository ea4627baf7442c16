// Up to fifteen images as the digits of one number in base 16, the first image the highest one: 0
// for none, and else the image plus one.
ghost use Rattle.std.specs.Prelude.{◌≡◌, ◌*◌, ◌+◌, ◌-◌, ◌<◌, ◌≤◌, ◌^◌, IfOk, length, map, All, None, slice_index_or};
ghost use Rattle.elements.specs.Digits.{digits, optional, optional_digits};
ghost use Rattle.elements.specs.Fields.{IsBelow};
ghost use Rattle.elements.specs.Hashes.{entry_number};
ghost use Rattle.elements.specs.PPerm.{partial_image, partially_composed};

use super::super::base_sixteen::digit;
use ports::NoMemory;
use std::alloc::Global;

// The image that a digit stands for.
fn image_of_digit(digit: u64) -> Option<u32>
    requires { digit < 16 }
    ensures { result ≡ optional digit }
{
    if digit == 0 {
        None
    } else {
        Some((digit - 1) as u32)
    }
}

// The digit of an image.
fn digit_of(image: Option<u32>) -> u64
    requires { IsBelow 15 image }
    ensures digit { result ≡ entry_number image }
    ensures below { result < 16 }
{
    match image {
        Some(y) => y as u64 + 1,
        None => 0,
    }
}

// The image of a point, where there are n of them.
pub(crate) fn image_at(n: u32, x: u64, point: u32) -> Option<u32>
    requires few { n ≤ 15 }
    requires point { point < n }
    ensures { result ≡ slice_index_or (optional_digits n x) point None }
{
    image_of_digit(digit(x, n - 1 - point))
}

// The number whose digits stand for these images.
pub(crate) fn pack(images: &[Option<u32>]) -> u64
    requires few { length images.now ≤ 15 }
    requires images { All (IsBelow (length images.now)) images.now }
    ensures images { optional_digits (length images.now) result ≡ images.now }
    ensures below { result < 2 ^ (4 * length images.now) }
{
    let mut number = 0;
    for y in images {
        number = number << 4 | digit_of(*y);
    }
    number
}

// The images that the last `count` digits stand for.
pub(crate) fn unpack(alloc: Global, count: u32, x: u64) -> Result<Vec<Option<u32>>, NoMemory>
    requires { count ≤ 15 }
    ensures { IfOk result (λ v. v.items ≡ optional_digits count x) }
{
    let mut images = Vec::with_capacity(alloc, count as usize)?;
    for i in 0..count {
        images.push(image_at(count, x, i))?;
    }
    Ok(images)
}

// The digit of the image of what a digit stands for.
fn image_digit(n: u32, right: u64, image: u64) -> u64
    requires few { n ≤ 15 }
    requires image { image ≤ n }
    ensures digit { optional result ≡ partial_image (optional_digits n right)
        (optional image) }
    ensures below { result < 16 }
{
    if image == 0 {
        0
    } else {
        digit(right, n - image as u32)
    }
}

// The images of the left number's digits under the right one, where each has n of them.
pub(crate) fn packed_product(n: u32, left: u64, right: u64) -> u64
    requires few { n ≤ 15 }
    requires images { All (IsBelow n) (optional_digits n left) }
    ensures product { optional_digits n result ≡ partially_composed
        (optional_digits n left) (optional_digits n right) }
    ensures below { result < 2 ^ (4 * n) }
{
    let mut product = 0;
    for i in 0..n {
        product = product << 4 | image_digit(n, right, digit(left, n - 1 - i));
    }
    product
}
