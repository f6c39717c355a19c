//! The exports by which one pass learns what another has seen.
ghost use Rattle.std.specs.Prelude.{◌≡◌, true, false};
ghost use Rattle.std.specs.Arc.{arc_value};
ghost use Rattle.ist_tree.specs.Calls.{HasSeenMore, HasLearnt, WeavesWith};
ghost use Rattle.ist_c.specs.Calls.{NumbersPass};
ghost use Rattle.ist_c.specs.Kinds.{IsAsBefore};
ghost use Rattle.ist_c.specs.Notes.{Notes, Meets};
ghost use Rattle.ist_handles.specs.Results.{misuse};

use crate::tree_calls::keep;
use ist_handles::{DONE, Handle, Held, MEMORY, MISUSE, TreeNote, TreePass};
use std::alloc::Global;
use std::mem;

// Makes `out` a note of the pass.
fn note_in(alloc: Global, held: &mut Held, out: &mut Handle) -> u32
    ensures notes { Notes held.old held.new out.old out.new result }
{
    if out.full {
        return MISUSE;
    }
    match held {
        Held::Pass(pass) => match pass.note() {
            Ok(note) => keep(alloc, Held::Note(note), out),
            Err(_) => MEMORY,
        },
        _ => MISUSE,
    }
}

/// Makes `out` a note of the pass.
#[unsafe(no_mangle)]
pub extern "C" fn ist_write_note(alloc: Global, pass: &mut Handle, out: &mut Handle) -> u32
    ensures full { pass.new.full ≡ pass.old.full }
    ensures empty { pass.old.full ≡ false → (result ≡ misuse) × (out.new ≡ out.old) }
    ensures notes { pass.old.full ≡ true
        → Notes pass.old.opaque.value pass.new.opaque.value out.old out.new result }
{
    match pass.open(alloc) {
        Some(mut held) => {
            let status = note_in(alloc, &mut held, out);
            *pass = Handle::of(held);
            status
        }
        None => MISUSE,
    }
}

// Lets the pass learn what the note holds.
fn learn_from(pass: &mut TreePass, told: TreeNote)
    requires same_tree { arc_value told.tree ≡ arc_value pass.old.tree }
    ensures tree { arc_value pass.new.tree ≡ arc_value pass.old.tree }
    ensures seen { HasSeenMore pass.old.pass pass.new.pass }
    ensures calls { pass.new.pass.calls ≡ pass.old.pass.calls }
    ensures learnt { HasLearnt pass.new.pass told.note }
    ensures woven { WeavesWith pass.new.pass told.note }
{
    pass.tree.tree.meet(&mut pass.pass, told.note);
}

// Lets the pass learn what the handle's note holds, which is empty then. What isn't a note of the
// pass's tree is put back.
fn meet_in(alloc: Global, held: &mut Held, note: &mut Handle) -> u32
    requires numbered { NumbersPass held.old note.old.opaque.value }
    ensures meets { Meets held.old held.new note.old note.new result }
{
    let Held::Pass(pass) = held else {
        return MISUSE;
    };
    let Some(mut told) = note.open(alloc) else {
        return MISUSE;
    };
    match mem::replace(&mut *told, Held::Nothing) {
        Held::Note(met) => {
            if met.tree.number != pass.tree.number {
                *told = Held::Note(met);
                *note = Handle::of(told);
                return MISUSE;
            }
            learn_from(pass, met);
            DONE
        }
        other => {
            *told = other;
            *note = Handle::of(told);
            MISUSE
        }
    }
}

/// Lets the pass learn what the note holds. The note is used up; if it is of another tree, or the call is
/// misuse otherwise, both are as they were.
#[unsafe(no_mangle)]
pub extern "C" fn ist_meet(alloc: Global, pass: &mut Handle, note: &mut Handle) -> u32
    requires numbered { NumbersPass pass.old.opaque.value note.old.opaque.value }
    ensures full { pass.new.full ≡ pass.old.full }
    ensures empty { pass.old.full ≡ false → (result ≡ misuse) × IsAsBefore note.old note.new }
    ensures meets { pass.old.full ≡ true
        → Meets pass.old.opaque.value pass.new.opaque.value note.old note.new result }
{
    match pass.open(alloc) {
        Some(mut held) => {
            let status = meet_in(alloc, &mut held, note);
            *pass = Handle::of(held);
            status
        }
        None => MISUSE,
    }
}
