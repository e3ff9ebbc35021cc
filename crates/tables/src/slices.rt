//! Elements of a lent slice: one written where there is such a place, all of them, one more behind the first ones, and where one lies.
ghost use Rattle.std.specs.Prelude.{◌≡◌, length, take, replicate, slice_set};
ghost use Rattle.tables.specs.Listed.{longer, First};

use records::Same;

/// Writes the element at a place; past the end nothing is written.
// By its index: a proof knows nothing of what is written through `get_mut`.
pub fn put<X: Copy>(xs: &mut [X], i: usize, x: X)
    ensures { xs.new ≡ slice_set xs.old i x }
{
    if i < xs.len() {
        xs[i] = x;
    }
}

/// One value for every element, whatever was there.
// The library's `fill` asks for a clone that cannot fail, of which `Copy` says nothing.
pub fn fill<X: Copy>(xs: &mut [X], x: X)
    ensures { xs.new ≡ replicate (length xs.old) x }
{
    for y in xs.iter_mut() {
        *y = x;
    }
}

// `append` and `find` stay functions over slices of any element: a rule of this project (docs/DECISIONS.md).

/// One element more behind the first ones: how many there are then, or none where every place is taken.
// The length stands beside lent places: no heap, the memory is the caller's.
pub fn append<X: Copy>(xs: &mut [X], len: usize, x: X) -> Option<usize>
    ensures answer { result ≡ longer len (length xs.old) }
    ensures list { xs.new ≡ slice_set xs.old len x }
{
    if len < xs.len() {
        xs[len] = x;
        return Some(len + 1);
    }
    None
}

/// The first place of an element.
pub fn find<X: Same>(xs: &[X], x: X) -> Option<usize>
    ensures { First x xs.now result }
{
    xs.iter().position(|y| y.same(x))
}

/// The first place of an element, among so many of the first ones: among all where there are fewer.
pub fn find_among<X: Same>(xs: &[X], len: usize, x: X) -> Option<usize>
    ensures { First x (take len xs.now) result }
{
    find(xs.get(..len).unwrap_or(xs), x)
}
