//! Trees that are closed with few words and with many, settled or in the middle of a rebuild: the
//! audit of the dump agrees with the closed tree.
ghost use Rattle.std.specs.Prelude.{◌≡◌, ◌≤◌};

use crate::judging::same;
use ist_core::Pair;
use ist_rest::Closed;
use ist_tree::{Pass, Tree};
use std::alloc::{AllocError, Global};
use tele_audit::{Audited, audit, dump};
use tele_io::{MemorySink, MemorySource, QuietSink, SinkFault};

// Puts 1 to 10. Returns how many puts succeeded.
fn put_ten(tree: &Tree, pass: &mut Pass) -> u64
    requires same_tree { pass.old.tree ≡ tree.now }
    ensures same_tree { pass.new.tree ≡ tree.now }
    ensures few { result ≤ 10 }
{
    let mut count = 0;
    for key in 1..11 {
        if tree.put(pass, key, key).is_ok() {
            count += 1;
        }
    }
    count
}

// Closes a tree of `words` words after ten puts. Returns it, and how many of these succeeded.
fn ten(alloc: Global, words: u32) -> Result<(Closed, u64), AllocError>
    requires least { 4 ≤ words }
    requires most { words ≤ 1000 }
{
    let Ok((tree, mut maker)) = Tree::open(alloc, words, &[]) else {
        return Err(AllocError);
    };
    let mut pass = tree.pass(&mut maker);
    let count = put_ten(&tree, &mut pass);
    tree.take_back(&mut maker, pass);
    Ok((tree.close(maker), count))
}

// Returns the bytes of the dump of the closed tree.
fn dumped(alloc: Global, closed: &Closed) -> Result<Vec<u8>, AllocError> {
    let mut out = QuietSink::new(alloc);
    if dump(closed, &mut out).is_err() {
        return Err(AllocError);
    }
    out.bytes().to_vec(alloc)
}

// Does the audit give these pairs, the pairs from 3 to 7, and the numbers of words of the closed
// tree?
fn tells(told: &Audited, closed: &Closed, pairs: &[Pair], some: &[Pair]) -> bool {
    told.list(0, u64::MAX) == pairs
        && told.list(3, 7) == some
        && told.used() == closed.used()
        && told.words() == closed.word_count()
}

// Does the audit agree with the closed tree?
fn tells_all(alloc: Global, told: &Audited, closed: &Closed) -> Result<bool, AllocError> {
    let pairs = closed.pairs(alloc)?;
    let some = closed.list(alloc, 3, 7)?;
    Ok(tells(told, closed, pairs.as_slice(), some.as_slice()))
}

// Does the audit of these bytes agree with the closed tree?
fn audit_tells(
    alloc: Global,
    source: &mut MemorySource,
    closed: &Closed,
) -> Result<bool, AllocError> {
    match audit(alloc, source) {
        Ok(told) => tells_all(alloc, &told, closed),
        Err(_) => Ok(false),
    }
}

// Does the audit of its dump agree with the closed tree?
fn is_told(alloc: Global, closed: &Closed) -> Result<bool, AllocError> {
    let bytes = dumped(alloc, closed)?;
    let mut source = MemorySource::new(bytes, 100, Vec::new(alloc));
    audit_tells(alloc, &mut source, closed)
}

// Closes a tree of `words` words after ten puts. Returns whether an audit agrees with it, how many
// puts succeeded, whether it is settled, and how many words it uses.
fn see_ten(alloc: Global, words: u32) -> Result<(bool, u64, bool, u64), AllocError>
    requires least { 4 ≤ words }
    requires most { words ≤ 1000 }
{
    let (closed, count) = ten(alloc, words)?;
    let told = is_told(alloc, &closed)?;
    Ok((told, count, closed.settled(), closed.used()))
}

// Returns whether an audit agrees with it.
fn is_ten_told(alloc: Global, words: u32) -> Result<bool, AllocError>
    requires least { 4 ≤ words }
    requires most { words ≤ 1000 }
{
    let (closed, _count) = ten(alloc, words)?;
    is_told(alloc, &closed)
}

#[test]
fn an_audit_tells_what_a_closed_tree_of_any_size_does(rt: HostRuntime) {
    for words in 4..259 {
        same(&rt, &is_ten_told(rt.alloc(), words), &Ok(true), words);
    }
}

#[test]
fn trees_that_are_closed_in_a_rebuild_are_told(rt: HostRuntime) {
    // the words, whether the closed tree is settled, how many words it uses
    let cases = [
        (177, false, 177),
        (185, false, 182),
        (191, false, 191),
        (200, false, 200),
        (249, false, 249),
        (258, true, 258),
    ];
    for (words, settled, used) in cases {
        let seen = see_ten(rt.alloc(), words);
        same(&rt, &seen, &Ok((true, 10, settled, used)), words);
    }
}

/// How a dump ended, and how many bytes were written then.
type Written = (Result<(), SinkFault>, u64);

// Dumps the closed tree twice into a sink. Returns how the first ended, how the second did, and whether that has as many
// bytes as the tree's dump.
fn dump_twice(closed: &Closed, out: &mut MemorySink) -> (Written, Result<(), SinkFault>, bool) {
    let first = dump(closed, out);
    let before = out.bytes().len() as u64;
    let second = dump(closed, out);
    let after = out.bytes().len() as u64;
    ((first, before), second, after == 16 + 8 * closed.used())
}

// Dumps a tree of 300 words twice into a sink that refuses the first piece.
fn see_refused(alloc: Global) -> Result<(Written, Result<(), SinkFault>, bool), AllocError> {
    let mut out = MemorySink::new(alloc, vec![in alloc; 0]?);
    let (closed, _count) = ten(alloc, 300)?;
    Ok(dump_twice(&closed, &mut out))
}

#[test]
fn a_sink_that_refuses_the_first_piece_has_none_of_it(rt: HostRuntime) {
    // the next write is taken
    let wanted = ((Err(SinkFault::Failed), 0), Ok(()), true);
    same(&rt, &see_refused(rt.alloc()), &Ok(wanted), "both dumps");
}
