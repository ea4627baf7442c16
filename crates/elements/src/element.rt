// What the elements of a semigroup promise.
ghost use Rattle.std.specs.Prelude.{◌≡◌, ℕ, IsTrue, IfOk};

use ports::NoMemory;
use std::alloc::Global;
use std::hash::Hash;
use theory::values::Values;

/// An element of a finite semigroup (Froidure and Pin 1997). Its shape is the degree, or the
/// dimension and the bound of the entries, and elements of one shape can be multiplied. Equality,
/// order and hash agree, as their traits' laws say.
pub trait Element: Values + Ord + Hash + Drop {
    /// The product, which acts from `self` first. Only want of memory refuses it.
    fn product(&self, alloc: Global, other: &Self) -> Result<Self, NoMemory>
        requires { Self.shape self.now ≡ Self.shape other.now }
        ensures { IfOk result (λ made. made ≡ Self.product self.now other.now) };

    /// A copy, equal to its original. Only want of memory refuses it.
    fn copy(&self, alloc: Global) -> Result<Self, NoMemory>
        ensures { IfOk result (λ made. made ≡ self.now) };

    /// Equal elements are of one shape.
    ghost one_shape: { (x y : Self) → IsTrue (Self.eq x y) → Self.shape x ≡ Self.shape y };
}
