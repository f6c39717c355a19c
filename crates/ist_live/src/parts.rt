//! One search of an ordered read, for the keys of a span that the read asks for.
ghost use Rattle.std.specs.Prelude.{◌≡◌, ◌+◌, ◌<◌, ◌≤◌, ℕ, IfSome};
ghost use Rattle.ist_find.specs.Spans.{IsEdge, pair_value};
ghost use Rattle.ist_tree.specs.Spans.{state_seen};
ghost use Rattle.ist_live.specs.Reading.{HasReadSpan};

use ist_core::Pair;
use ist_tree::{Pass, Tree};

/// What one search read: the pair among its keys, if there is one, and the last of its keys.
#[derive(Clone, Copy, Drop)]
pub(crate) struct PartRead {
    /// The pair, if there is one.
    pub pair: Option<Pair>,
    /// The key farthest from where the search began.
    pub to: u64,
}

// The pair, if its key lies between the two keys.
fn pair_between(pair: Option<Pair>, first: u64, last: u64) -> Option<Pair>
    ensures within { IfSome result (λ p. (first ≤ p.key) × (p.key ≤ last)) }
    ensures value { (k : ℕ) → first ≤ k → k ≤ last → pair_value result k ≡ pair_value pair k }
{
    match pair {
        Some(pair) => {
            if first <= pair.key && pair.key <= last {
                Some(pair)
            } else {
                None
            }
        }
        None => None,
    }
}

// The lesser of two keys.
fn lesser(one: u64, other: u64) -> u64
    ensures one { result ≤ one }
    ensures other { result ≤ other }
    ensures above { (k : ℕ) → k ≤ one → k ≤ other → k ≤ result }
    ensures which { result < other → result ≡ one }
{
    if one < other { one } else { other }
}

/// Reads the keys from `from` up to the end of its span, and none beyond `last`.
pub(crate) fn read_up(tree: &Tree, pass: &mut Pass, from: u64, last: u64) -> PartRead
    requires same_tree { pass.old.tree ≡ tree.now }
    requires some { from ≤ last }
    ensures span { HasReadSpan pass.old pass.new from from (result.to + 1) result.pair }
    ensures last { result.to ≤ last }
    ensures edge { result.to < last → IsEdge (state_seen pass.new) (result.to + 1) }
{
    let span = tree.span(pass, from);
    let to = lesser(span.last, last);
    PartRead {
        pair: pair_between(span.pair, from, to),
        to,
    }
}

/// Reads the keys from `from` down to the beginning of its span.
pub(crate) fn read_down(tree: &Tree, pass: &mut Pass, from: u64) -> PartRead
    requires same_tree { pass.old.tree ≡ tree.now }
    ensures span { HasReadSpan pass.old pass.new from result.to (from + 1) result.pair }
    ensures edge { 0 < result.to → IsEdge (state_seen pass.new) result.to }
{
    let span = tree.span(pass, from);
    PartRead {
        pair: pair_between(span.pair, span.first, from),
        to: span.first,
    }
}
