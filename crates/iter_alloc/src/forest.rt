//! Trees of places, which tell which places are joined.
ghost use Rattle.std.specs.Prelude.{◌≡◌, ◌<◌, ℕ, List, length, IfOk};
ghost use Rattle.iter_alloc.specs.Forest.{AreRoots, IsForest, at, relabelled};

use cube_base::Memory;
use std::alloc::Global;

/// The root of a place. The way to it is halved.
pub(crate) fn find(parents: &mut [usize], place: usize) -> usize
    requires forest { IsForest parents.old }
    requires within { place < length parents.old }
    ensures root { (roots : List ℕ) → AreRoots parents.old roots → result ≡ at roots place }
    ensures within { result < length parents.old }
    ensures forest { IsForest parents.new }
    ensures kept { (roots : List ℕ) → AreRoots parents.old roots → AreRoots parents.new roots }
    ensures as_many { length parents.new ≡ length parents.old }
{
    let mut i = place;
    while parents[i] != i {
        let above = parents[parents[i]];
        parents[i] = above;
        i = above;
    }
    i
}

/// Makes one tree of those of two places: the lesser root is the root of both.
pub(crate) fn join(parents: &mut [usize], a: usize, b: usize)
    requires forest { IsForest parents.old }
    requires first { a < length parents.old }
    requires second { b < length parents.old }
    ensures forest { IsForest parents.new }
    ensures roots { (roots : List ℕ) → AreRoots parents.old roots → AreRoots parents.new (relabelled (at roots a) (at roots b) roots) }
    ensures as_many { length parents.new ≡ length parents.old }
{
    let a = find(parents, a);
    let b = find(parents, b);
    parents[a.max(b)] = a.min(b);
}

/// The root of each place.
pub(crate) fn roots(alloc: Global, parents: &[usize]) -> Result<Vec<usize>, Memory>
    requires { IsForest parents.now }
    ensures { IfOk result (λ found. (roots : List ℕ) → AreRoots parents.now roots → found.items ≡ roots) }
{
    let mut roots = Vec::new(alloc);
    for i in 0..parents.len() {
        let parent = parents[i];
        let root = if parent == i { i } else { roots[parent] };
        roots.push(root)?;
    }
    Ok(roots)
}
