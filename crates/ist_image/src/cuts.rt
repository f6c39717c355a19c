//! How the pairs of a row are cut into the parts of its children, computed once a row.
ghost use Rattle.std.specs.Prelude.{◌≡◌, ◌≤◌, ◌<◌, ◌^◌, ◌/◌, ◌%◌};
ghost use Rattle.ist_core.specs.Arithmetic.{degree};

use ist_core::Pair;
use ist_layout::inner_words;
use ist_math::degree;

/// How the pairs of a row are cut: into as many parts as the row has children, the longer ones
/// first.
#[derive(Clone, Copy, Drop)]
pub(crate) struct RowCut {
    pub(crate) count: u64,
    pub(crate) children: u64,
    share: u64,
    left_over: u64,
    ghost several: { 2 ≤ count },
    ghost fits: { count < 2 ^ 32 },
    ghost degree: { children ≡ degree count },
    ghost least: { 2 ≤ children },
    ghost shares: { (share ≡ count / children) × (left_over ≡ count % children) },
}

impl RowCut {
    ghost use Rattle.std.specs.Prelude.{◌≡◌, ◌+◌, ◌≤◌, ◌<◌, ◌^◌, length};
    ghost use Rattle.ist_core.specs.Arithmetic.{part_len, part_start};
    ghost use Rattle.ist_core.specs.Shapes.{ideal_words};
    ghost use Rattle.ist_image.specs.Placing.{IsPartOfPairs, part_base};

    /// Says how `count` pairs are cut.
    pub(crate) fn of(count: u64) -> RowCut
        requires several { 2 ≤ count }
        requires fits { count < 2 ^ 32 }
        ensures count { result.count ≡ count }
    {
        let children = degree(count);
        RowCut {
            count,
            children,
            share: count / children,
            left_over: count % children,
        }
    }

    /// Returns how many pairs part `j` has.
    pub(crate) fn len(&self, j: u64) -> u64
        requires within { j < self.now.children }
        ensures value { result ≡ part_len self.now.count j }
        ensures fewer { result < self.now.count }
    {
        if j < self.left_over {
            self.share + 1
        } else {
            self.share
        }
    }

    /// Returns where the tree of the first part begins, below an inner row at the base.
    pub(crate) fn first_base(&self, base: u64) -> u64
        requires fits { base + ideal_words self.now.count ≤ 2 ^ 28 }
        ensures value { result ≡ part_base base self.now.count 0 }
    {
        base + inner_words(self.children)
    }

    /// Returns where the part after part `j` begins, which begins at this number.
    pub(crate) fn next_start(&self, j: u64, start: usize) -> usize
        requires within { j < self.now.children }
        requires start { start ≡ part_start self.now.count j }
        ensures value { result ≡ part_start self.now.count (j + 1) }
        ensures begin { start ≤ result }
        ensures end { result ≤ self.now.count }
    {
        start + self.len(j) as usize
    }

    /// Returns part `j` of the pairs, which begins at the pair with this number.
    pub(crate) fn part<'a>(&self, pairs: &'a [Pair], j: u64, start: usize) -> &'a [Pair]
        requires cut { self.now.count ≡ length pairs.now }
        requires within { j < self.now.children }
        requires start { start ≡ part_start (length pairs.now) j }
        ensures part { IsPartOfPairs pairs.now j start result.now }
    {
        &pairs[start..self.next_start(j, start)]
    }
}
