//! The exports that open a tree, make its passes and take them back, and free what a handle holds.
ghost use Rattle.std.specs.Prelude.{◌≡◌, ◌<◌, ◌≤◌, ◌^◌, ◌∷◌, true, false};
ghost use Rattle.std.specs.Arc.{arc_value};
ghost use Rattle.ist_core.specs.RowLayout.{place_limit};
ghost use Rattle.ist_tree.specs.Faces.{calls_in};
ghost use Rattle.plain_map.specs.Rising.{IsRising};
ghost use Rattle.ist_c.specs.Calls.{NumbersOwner};
ghost use Rattle.ist_c.specs.Closing.{fault_status};
ghost use Rattle.ist_handles.specs.Pairs.{pairs_given};
ghost use Rattle.ist_c.specs.Keeping.{KeepsInHandle};
ghost use Rattle.ist_c.specs.Kinds.{IsAsBefore};
ghost use Rattle.ist_c.specs.Opening.{AreWordsFor, OpensNew};
ghost use Rattle.ist_c.specs.Passes.{Makes, TakesBack};
ghost use Rattle.ist_handles.specs.Results.{misuse};

use ist_core::Pair;
use ist_handles::{
    DONE, Handle, Held, MEMORY, MISUSE, PAIRS_LIMIT, SMALL, TreeOwner, TreePass, are_rising,
    sorted_pairs,
};
use ist_image::needed_words;
use ist_reopen::{MOST_WORDS, ReopenFault};
use std::alloc::Global;
use std::mem;

/// Makes a handle of what is held. If there is no memory for it, what is held is dropped.
pub(crate) fn keep(alloc: Global, held: Held, out: &mut Handle) -> u32
    ensures keeps { KeepsInHandle held out.old out.new result }
{
    match Box::new(alloc, held) {
        Ok(held) => {
            *out = Handle::of(held);
            DONE
        }
        Err(_) => MEMORY,
    }
}

/// Returns how many words a tree of this many pairs takes at least, or 0 if they are too many.
#[unsafe(no_mangle)]
pub extern "C" fn ist_words_for(pairs: u64) -> u64
    ensures value { pairs < 2 ^ 32 → AreWordsFor pairs result }
    ensures none { 2 ^ 32 ≤ pairs → result ≡ 0 }
{
    if pairs > PAIRS_LIMIT {
        return 0;
    }
    needed_words(pairs)
}

/// Returns the status for the fault.
pub(crate) fn status_for(fault: ReopenFault) -> u32
    ensures value { result ≡ fault_status fault }
{
    match fault {
        ReopenFault::Beyond { words: _ } => MISUSE,
        ReopenFault::Small {
            needed: _,
            words: _,
        } => SMALL,
        ReopenFault::Memory => MEMORY,
    }
}

// Makes `out` the owner of a new tree.
fn open_owner(alloc: Global, words: u32, pairs: &[Pair], number: u64, out: &mut Handle) -> u32
    requires rising { IsRising pairs.now }
    requires within { words ≤ place_limit }
    ensures opens { OpensNew words pairs.now number out.old out.new result }
{
    if pairs.len() as u64 > PAIRS_LIMIT {
        return MISUSE;
    }
    match TreeOwner::open(alloc, words, pairs, number) {
        Ok(owner) => keep(alloc, Held::Owner(owner), out),
        Err(fault) => status_for(ReopenFault::from(fault)),
    }
}

/// Opens a tree of these pairs, of those with one key the last, with this many words and this number, and makes
/// `out` its owner. Pairs whose keys rise are read where they are, and others copied and sorted first. `ist_open`
/// of C gives each tree the next number.
#[unsafe(no_mangle)]
pub extern "C" fn open_numbered(
    alloc: Global,
    words: u32,
    pairs: &[Pair],
    number: u64,
    out: &mut Handle,
) -> u32
    ensures filled { out.old.full ≡ true → (result ≡ misuse) × (out.new ≡ out.old) }
    ensures opens { out.old.full ≡ false
        → OpensNew words (pairs_given pairs.now) number out.old out.new result }
{
    if out.full || words > MOST_WORDS {
        return MISUSE;
    }
    if are_rising(pairs) {
        return open_owner(alloc, words, pairs, number, out);
    }
    match sorted_pairs(alloc, pairs) {
        Ok(sorted) => open_owner(alloc, words, sorted.as_slice(), number, out),
        Err(_) => MEMORY,
    }
}

// Makes `out` the next pass of the owner. No pass is made before there is memory to hold it.
fn pass_in(alloc: Global, held: &mut Held, out: &mut Handle) -> u32
    ensures makes { Makes held.old held.new out.old out.new result }
{
    if out.full {
        return MISUSE;
    }
    match held {
        Held::Owner(owner) => match Box::new(alloc, Held::Nothing) {
            Ok(mut room) => match owner.pass() {
                Ok(pass) => {
                    *room = Held::Pass(pass);
                    *out = Handle::of(room);
                    DONE
                }
                Err(_) => MEMORY,
            },
            Err(_) => MEMORY,
        },
        _ => MISUSE,
    }
}

/// Makes `out` a new pass of the owner's tree.
#[unsafe(no_mangle)]
pub extern "C" fn ist_new_pass(alloc: Global, owner: &mut Handle, out: &mut Handle) -> u32
    ensures full { owner.new.full ≡ owner.old.full }
    ensures empty { owner.old.full ≡ false → (result ≡ misuse) × (out.new ≡ out.old) }
    ensures makes { owner.old.full ≡ true
        → Makes owner.old.opaque.value owner.new.opaque.value out.old out.new result }
{
    match owner.open(alloc) {
        Some(mut held) => {
            let status = pass_in(alloc, &mut held, out);
            *owner = Handle::of(held);
            status
        }
        None => MISUSE,
    }
}

// Takes the pass back.
fn take_from(owner: &mut TreeOwner, given: TreePass)
    requires same_tree { arc_value given.tree ≡ arc_value owner.old.tree }
    ensures tree { arc_value owner.new.tree ≡ arc_value owner.old.tree }
    ensures taken { owner.new.maker.taken ≡ calls_in given.pass ∷ owner.old.maker.taken }
    ensures made { owner.new.maker.made ≡ owner.old.maker.made }
{
    owner.tree.tree.take_back(&mut owner.maker, given.pass);
}

// Takes the pass back that the handle holds, which is empty then. What isn't a pass of the owner's tree is
// put back.
fn take_in(alloc: Global, held: &mut Held, pass: &mut Handle) -> u32
    requires numbered { NumbersOwner held.old pass.old.opaque.value }
    ensures takes { TakesBack held.old held.new pass.old pass.new result }
{
    let Held::Owner(owner) = held else {
        return MISUSE;
    };
    let Some(mut given) = pass.open(alloc) else {
        return MISUSE;
    };
    match mem::replace(&mut *given, Held::Nothing) {
        Held::Pass(taken) => {
            if taken.tree.number != owner.tree.number {
                *given = Held::Pass(taken);
                *pass = Handle::of(given);
                return MISUSE;
            }
            take_from(owner, taken);
            DONE
        }
        other => {
            *given = other;
            *pass = Handle::of(given);
            MISUSE
        }
    }
}

/// Gives the pass back to the owner of its tree. The pass is used up; if it is of another tree, or the call
/// is misuse otherwise, both are as they were.
#[unsafe(no_mangle)]
pub extern "C" fn ist_give_back(alloc: Global, owner: &mut Handle, pass: &mut Handle) -> u32
    requires numbered { NumbersOwner owner.old.opaque.value pass.old.opaque.value }
    ensures full { owner.new.full ≡ owner.old.full }
    ensures empty { owner.old.full ≡ false → (result ≡ misuse) × IsAsBefore pass.old pass.new }
    ensures takes { owner.old.full ≡ true
        → TakesBack owner.old.opaque.value owner.new.opaque.value pass.old pass.new result }
{
    match owner.open(alloc) {
        Some(mut held) => {
            let status = take_in(alloc, &mut held, pass);
            *owner = Handle::of(held);
            status
        }
        None => MISUSE,
    }
}

/// Drops what the handle holds, and leaves it empty.
#[unsafe(no_mangle)]
pub extern "C" fn ist_free(alloc: Global, handle: &mut Handle)
    ensures empty { handle.new.full ≡ false }
{
    drop(handle.open(alloc));
}
