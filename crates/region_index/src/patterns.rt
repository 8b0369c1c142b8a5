//! The patterns of depths at which imprecise facts lie.
ghost use Rattle.std.specs.Prelude.{◌≡◌, ◌+◌, ◌≤◌, [], IfNone, IfSome, Some, None, drop, false, length};
ghost use Rattle.region_algebra.specs.Space.{IsRegion};
ghost use Rattle.region_index.specs.Patterns.{IsListed, is_known, noted, pattern_of};

use arrayvec::ArrayVec;
use region_algebra::{Region, Space};
use std::marker::Model;

/// As many patterns are listed at most.
const MAX_PATTERNS: usize = 64;

/// Patterns that are known: the depths of the nodes of regions. There is a list of them without memory of its own, and
/// once more were seen than it holds, all patterns are taken as known. Contracts see the list, if there is one.
#[derive(Drop)]
pub struct DepthPatterns {
    listed: ArrayVec<u64, MAX_PATTERNS>,
    // Whether more were seen than are listed.
    is_full: bool,
}

impl Model for DepthPatterns {
    ghost use Rattle.std.specs.Prelude.{Some, None, if◌then◌else◌};
    ghost use Rattle.region_index.specs.Patterns.{IsListed, Patterns};

    ghost Value = { Patterns };

    ghost view = { λ p. if p.is_full then None else Some p.listed.items };

    ghost invariant = { λ p. IsListed p.listed.items };
}

impl DepthPatterns {
    /// No pattern is known. It takes no memory.
    pub fn new() -> Self
        ensures { result ≡ Some [] }
    {
        DepthPatterns {
            listed: ArrayVec::new(),
            is_full: false,
        }
    }

    /// The patterns that are known. None where all are.
    pub(crate) fn listed(&self) -> Option<&[u64]>
        ensures listed { IfSome result (λ listed. self.now ≡ Some listed.now) }
        ensures once { IfSome result (λ listed. IsListed listed.now) }
        ensures all { IfNone result (self.now ≡ None) }
    {
        if self.is_full {
            None
        } else {
            Some(self.listed.as_slice())
        }
    }

    /// Makes the pattern of a region known. It takes no memory.
    pub fn note(&mut self, space: &Space, region: Region)
        requires { IsRegion space.now region }
        ensures { self.new ≡ noted self.old (pattern_of space.now region) }
    {
        let pattern = pattern_from(space, region, 0);
        if !self.is_known(pattern) {
            self.add(pattern);
        }
    }

    /// Whether a pattern is known.
    fn is_known(&self, pattern: u64) -> bool
        ensures { result ≡ is_known self.now pattern }
    {
        self.is_full || self.listed.as_slice().contains(&pattern)
    }

    /// Makes one known that is not.
    fn add(&mut self, pattern: u64)
        requires { is_known self.old pattern ≡ false }
        ensures { self.new ≡ noted self.old pattern }
    {
        if self.listed.is_full() {
            self.is_full = true;
        } else {
            self.listed.push(pattern);
        }
    }
}

/// The pattern of a region from dimension `d` on.
fn pattern_from(space: &Space, region: Region, d: u32) -> u64
    requires region { IsRegion space.now region }
    requires within { d ≤ length space.now }
    ensures { result ≡ pattern_of (drop d space.now) (drop d region) }
{
    if d == space.dims() {
        0
    } else {
        let depth = space.dim(d).depth(region.node(d));
        u64::from(depth) + 9 * pattern_from(space, region, d + 1)
    }
}
