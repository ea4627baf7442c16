// Up to sixteen images as the digits of one number in base 16, the first image the highest one.
ghost use Rattle.std.specs.Prelude.{◌≡◌, ◌*◌, ◌<◌, ◌≤◌, ◌^◌, IfOk, length, All};
ghost use Rattle.elements.specs.Digits.{digits};
ghost use Rattle.elements.specs.Transf.{AreImages, composed};

use super::super::base_sixteen::digit;

// The number whose digits are these images.
pub(crate) fn pack(images: &[u32]) -> u64
    requires few { length images.now ≤ 16 }
    requires images { All (λ y. y < 16) images.now }
    ensures images { digits (length images.now) result ≡ images.now }
    ensures below { result < 2 ^ (4 * length images.now) }
{
    let mut number = 0;
    for y in images {
        number = number << 4 | *y as u64;
    }
    number
}

// The images of the left number's digits under the right one, where each has n of them.
pub(crate) fn packed_product(n: u32, left: u64, right: u64) -> u64
    requires few { n ≤ 16 }
    requires images { AreImages (digits n left) }
    ensures product { digits n result ≡ composed (digits n left) (digits n right) }
    ensures below { result < 2 ^ (4 * n) }
{
    let mut product = 0;
    for i in 0..n {
        let image = digit(left, n - 1 - i) as u32;
        product = product << 4 | digit(right, n - 1 - image);
    }
    product
}
