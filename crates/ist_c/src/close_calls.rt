//! The exports that close a tree, and open the next one.
ghost use Rattle.std.specs.Prelude.{◌≡◌, ◌≤◌, true, false};
ghost use Rattle.ist_core.specs.RowLayout.{place_limit};
ghost use Rattle.ist_c.specs.Closing.{Leaves, Closes, OpensInHandle, Reopens};
ghost use Rattle.ist_handles.specs.Results.{misuse};

use crate::tree_calls::status_for;
use ist_handles::{BUSY, ClosedTree, DONE, Handle, Held, MEMORY, MISUSE};
use ist_reopen::MOST_WORDS;
use std::alloc::Global;
use std::mem;

// Makes the handle hold what is left of the tree, or the tree if there is no memory for that.
fn leave(alloc: Global, closed: ClosedTree, held: &mut Held) -> u32
    ensures leaves { Leaves closed.closed held.new result }
{
    match closed.list(alloc) {
        Ok(left) => {
            *held = Held::Left(left);
            DONE
        }
        Err(_) => {
            *held = Held::Closed(closed);
            MEMORY
        }
    }
}

// Closes the owner's tree.
fn close_in(alloc: Global, held: &mut Held) -> u32
    ensures closes { Closes held.old held.new result }
{
    match mem::replace(held, Held::Nothing) {
        Held::Owner(owner) => match owner.close() {
            Ok(closed) => leave(alloc, closed, held),
            Err(owner) => {
                *held = Held::Owner(owner);
                BUSY
            }
        },
        Held::Closed(closed) => leave(alloc, closed, held),
        other => {
            *held = other;
            MISUSE
        }
    }
}

/// Closes the owner's tree. The handle then holds the pairs that are left, or the closed tree if there is
/// no memory for these.
#[unsafe(no_mangle)]
pub extern "C" fn ist_close(alloc: Global, owner: &mut Handle) -> u32
    ensures full { owner.new.full ≡ owner.old.full }
    ensures empty { owner.old.full ≡ false → result ≡ misuse }
    ensures closes { owner.old.full ≡ true
        → Closes owner.old.opaque.value owner.new.opaque.value result }
{
    match owner.open(alloc) {
        Some(mut held) => {
            let status = close_in(alloc, &mut held);
            *owner = Handle::of(held);
            status
        }
        None => MISUSE,
    }
}

// Opens a tree over the closed one, which is kept if none is opened.
fn open_next(alloc: Global, closed: ClosedTree, words: u32, number: u64, held: &mut Held) -> u32
    requires within { words ≤ place_limit }
    ensures opens { OpensInHandle closed words number held.new result }
{
    match closed.open(alloc, words, number) {
        Ok(owner) => {
            *held = Held::Owner(owner);
            DONE
        }
        Err(fault) => {
            *held = Held::Closed(closed);
            status_for(fault)
        }
    }
}

// Closes the owner's tree, and opens the next one.
fn reopen_in(alloc: Global, held: &mut Held, words: u32, number: u64) -> u32
    ensures reopens { Reopens number held.old held.new words result }
{
    if words > MOST_WORDS {
        return MISUSE;
    }
    match mem::replace(held, Held::Nothing) {
        Held::Owner(owner) => match owner.close() {
            Ok(closed) => open_next(alloc, closed, words, number, held),
            Err(owner) => {
                *held = Held::Owner(owner);
                BUSY
            }
        },
        Held::Closed(closed) => open_next(alloc, closed, words, number, held),
        other => {
            *held = other;
            MISUSE
        }
    }
}

/// Makes the owner that of a new tree with this many words and this number, which begins with the pairs that
/// all calls left. If no tree is opened, the handle holds the closed one, and the call may be made again.
/// `ist_reopen` of C gives each tree the next number.
#[unsafe(no_mangle)]
pub extern "C" fn reopen_numbered(alloc: Global, owner: &mut Handle, words: u32, number: u64) -> u32
    ensures full { owner.new.full ≡ owner.old.full }
    ensures empty { owner.old.full ≡ false → result ≡ misuse }
    ensures reopens { owner.old.full ≡ true
        → Reopens number owner.old.opaque.value owner.new.opaque.value words result }
{
    match owner.open(alloc) {
        Some(mut held) => {
            let status = reopen_in(alloc, &mut held, words, number);
            *owner = Handle::of(held);
            status
        }
        None => MISUSE,
    }
}
