// Elements of each kind: entries that are refused, copies, the order, and more points than a script
// has.
ghost use Rattle.std.specs.Prelude.{◌≡◌, ◌<◌, length};

use elements::{BMat, Element, ElementFault, Field, MaxPlusTrunc, PPerm, Transf};
use std::alloc::Global;
use std::cmp::Ordering;
use std::hash::{DefaultHasher, Hash, Hasher};
use std::process::Abort;

const DASH: Field = Field::Dash;

const ZERO: Field = Field::Number(0);

const ONE: Field = Field::Number(1);

const TWO: Field = Field::Number(2);

// Entries of maps of three points, and why they make none.
const MAPS: [(&[Field], ElementFault); 4] = [
    (&[ONE, TWO], ElementFault::BadCount),
    (&[ONE, TWO, ZERO, ONE], ElementFault::BadCount),
    (
        &[ONE, Field::Number(3), Field::Bad],
        ElementFault::BadEntry(1),
    ),
    (&[ZERO, Field::Bad, DASH], ElementFault::BadEntry(1)),
];

// The same of partial permutations of four points.
const PARTIAL: [(&[Field], ElementFault); 4] = [
    (&[DASH; 3], ElementFault::BadCount),
    (
        &[ONE, ONE, Field::Number(4), Field::Bad],
        ElementFault::BadEntry(2),
    ),
    (&[ONE, DASH, ONE, ONE], ElementFault::NotInjective(2)),
    (&[ONE, ZERO, DASH, ZERO], ElementFault::NotInjective(3)),
];

#[test]
fn refuses_images(rt: HostRuntime) {
    for (fields, want) in &MAPS {
        assert_eq!(rt; Transf::read(rt.alloc(), 3, fields).err(), Some(*want));
    }
    for (fields, want) in &PARTIAL {
        assert_eq!(rt; PPerm::read(rt.alloc(), 4, fields).err(), Some(*want));
    }
}

// Entries of two rows of two Booleans, and why they make no matrix.
const BOOLEAN: [(&[Field], ElementFault); 2] = [
    (&[ONE; 3], ElementFault::BadCount),
    (&[ONE, ONE, TWO, DASH], ElementFault::BadEntry(2)),
];

// The same of numbers up to one, or minus infinity.
const TRUNCATED: [(&[Field], ElementFault); 2] = [
    (&[DASH; 5], ElementFault::BadCount),
    (&[ONE, DASH, TWO, Field::Bad], ElementFault::BadEntry(2)),
];

#[test]
fn refuses_entries(rt: HostRuntime) {
    for (fields, want) in &BOOLEAN {
        assert_eq!(rt; BMat::read(rt.alloc(), 2, fields).err(), Some(*want));
    }
    for (fields, want) in &TRUNCATED {
        assert_eq!(rt;
            MaxPlusTrunc::read(rt.alloc(), (2, 1), fields).err(),
            Some(*want)
        );
    }
}

// The first element is equal to its copy, with its hash, and is less than the second one; the third
// one has another shape.
fn check_copies<E: Element>(rt: &impl Abort, alloc: Global, less: &E, greater: &E, other: &E) {
    let copy = less.copy(alloc).expect(rt, "a copy");
    assert!(rt; copy == *less && *less != *greater);
    assert!(rt; less.cmp(&copy) == Ordering::Equal);
    assert!(rt; less.cmp(greater) == Ordering::Less);
    assert!(rt; greater.partial_cmp(less) == Some(Ordering::Greater));
    assert!(rt; less.same_shape(greater) && !less.same_shape(other));
    let (mut hasher, mut of_copy) = (DefaultHasher::new(), DefaultHasher::new());
    less.hash(&mut hasher);
    copy.hash(&mut of_copy);
    assert!(rt; hasher.finish() == of_copy.finish());
}

#[test]
fn transformations_are_copied_and_compared(rt: HostRuntime) {
    let alloc = rt.alloc();
    let fold = Transf::read(alloc, 2, &[ZERO, ZERO]).expect(&rt, "a map");
    let swap = Transf::read(alloc, 2, &[ONE, ZERO]).expect(&rt, "a map");
    let empty = Transf::read(alloc, 0, &[]).expect(&rt, "a map");
    check_copies(&rt, alloc, &fold, &swap, &empty);
}

#[test]
fn partial_permutations_are_copied_and_compared(rt: HostRuntime) {
    let alloc = rt.alloc();
    let back = PPerm::read(alloc, 2, &[DASH, ZERO]).expect(&rt, "a map");
    let forth = PPerm::read(alloc, 2, &[ONE, DASH]).expect(&rt, "a map");
    let empty = PPerm::read(alloc, 0, &[]).expect(&rt, "a map");
    check_copies(&rt, alloc, &back, &forth, &empty);
}

#[test]
fn boolean_matrices_are_copied_and_compared(rt: HostRuntime) {
    let alloc = rt.alloc();
    let zero = BMat::read(alloc, 1, &[ZERO]).expect(&rt, "a matrix");
    let unit = BMat::read(alloc, 1, &[ONE]).expect(&rt, "a matrix");
    let empty = BMat::read(alloc, 0, &[]).expect(&rt, "a matrix");
    check_copies(&rt, alloc, &zero, &unit, &empty);
}

#[test]
fn truncated_matrices_are_copied_and_compared(rt: HostRuntime) {
    let alloc = rt.alloc();
    let one = MaxPlusTrunc::read(alloc, (1, 2), &[ONE]).expect(&rt, "a matrix");
    let two = MaxPlusTrunc::read(alloc, (1, 2), &[TWO]).expect(&rt, "a matrix");
    let lower = MaxPlusTrunc::read(alloc, (1, 1), &[ONE]).expect(&rt, "a matrix");
    check_copies(&rt, alloc, &one, &two, &lower);
}

// No script has a bound as great as this.
#[test]
fn sums_end_at_the_greatest_bound(rt: HostRuntime) {
    let alloc = rt.alloc();
    let bound = Field::Number(u32::MAX);
    let greatest = MaxPlusTrunc::read(alloc, (1, u32::MAX), &[bound]).expect(&rt, "a matrix");
    let sum = greatest.product(alloc, &greatest).expect(&rt, "a product");
    let printed = sum.print(alloc).expect(&rt, "a text");
    assert!(rt; printed.as_slice() == b"4294967295".as_slice());
}

// The map of so many points to the last one.
fn constant(rt: &impl Abort, alloc: Global, degree: u32) -> Transf
    requires { 0 < degree }
    ensures { length result ≡ degree }
{
    let fields = Vec::from_elem(alloc, Field::Number(degree - 1), degree as usize);
    let fields = fields.expect(rt, "entries");
    Transf::read(alloc, degree, &fields).expect(rt, "a map")
}

// Images of 256 points are bytes, and those of 257 numbers of four bytes.
#[test]
fn multiplies_maps_of_many_points(rt: HostRuntime) {
    let alloc = rt.alloc();
    let (fewer, last) = (constant(&rt, alloc, 256), constant(&rt, alloc, 257));
    assert!(rt; fewer < last);
    for map in [fewer, last] {
        let square = map.product(alloc, &map).expect(&rt, "a product");
        assert!(rt; square == map);
    }
}
