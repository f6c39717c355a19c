//! The exports that take a shot by a pass, read it and drop it.
ghost use Rattle.std.specs.Prelude.{◌≡◌, ◌<◌, ◌≤◌, ◌^◌, true, false};
ghost use Rattle.ist_scan.specs.Room.{words_of_shot};
ghost use Rattle.ist_handles.specs.declared.held.Held.TheVariants.{Pass};
ghost use Rattle.ist_c.specs.Shots.{TakesShot, CountsShot, ListsShot, DropsShot};
ghost use Rattle.ist_handles.specs.Results.{misuse};

use ist_core::Pair;
use ist_handles::{
    DONE, Handle, Held, MISUSE, PAIRS_LIMIT, Piece, Shortage, TreePass, TreeShot, refused,
};
use ist_scan::{Shot, shot_words};
use std::alloc::Global;
use std::mem;

/// Returns how many words a shot of this many pairs takes at most, if one pass does all the work, or 0 if
/// they are too many.
#[unsafe(no_mangle)]
pub extern "C" fn ist_shot_words(pairs: u64) -> u64
    ensures value { pairs < 2 ^ 32 → result ≡ words_of_shot pairs }
    ensures none { 2 ^ 32 ≤ pairs → result ≡ 0 }
{
    if pairs > PAIRS_LIMIT {
        return 0;
    }
    shot_words(pairs)
}

// Takes a shot by the pass, and makes the handle hold both, or the pass if it was refused.
fn take(taker: TreePass, words: u64, short: &mut Shortage, held: &mut Held) -> u32
    ensures takes { TakesShot (Pass taker) held.new words result short.old short.new }
{
    let mut pass = taker;
    let by = &mut pass;
    match Shot::take_if_room(&by.tree.tree, &mut by.pass, words) {
        Ok(shot) => {
            *held = Held::Shot(TreeShot::of(pass, shot));
            DONE
        }
        Err(numbers) => {
            *held = Held::Pass(pass);
            refused(numbers, short).status
        }
    }
}

// Takes a shot by the pass.
fn take_in(held: &mut Held, words: u64, short: &mut Shortage) -> u32
    ensures takes { TakesShot held.old held.new words result short.old short.new }
{
    match mem::replace(held, Held::Nothing) {
        Held::Pass(pass) => take(pass, words, short, held),
        other => {
            *held = other;
            MISUSE
        }
    }
}

/// Takes a shot of the map by the pass, if at least this many words are left at one moment of the call. The
/// handle then holds the shot with the pass. If it is refused, `short` says why.
#[unsafe(no_mangle)]
pub extern "C" fn ist_take_shot(
    alloc: Global,
    pass: &mut Handle,
    words: u64,
    short: &mut Shortage,
) -> u32
    ensures full { pass.new.full ≡ pass.old.full }
    ensures empty { pass.old.full ≡ false → (result ≡ misuse) × (short.new ≡ short.old) }
    ensures takes { pass.old.full ≡ true → TakesShot pass.old.opaque.value
        pass.new.opaque.value words result short.old short.new }
{
    match pass.open(alloc) {
        Some(mut held) => {
            let status = take_in(&mut held, words, short);
            *pass = Handle::of(held);
            status
        }
        None => MISUSE,
    }
}

// Writes how many pairs the shot has.
fn count_in(held: &Held, keys: &mut u64) -> u32
    ensures counts { CountsShot held.now result keys.old keys.new }
{
    match held {
        Held::Shot(shot) => {
            *keys = shot.keys();
            DONE
        }
        _ => MISUSE,
    }
}

/// Writes how many pairs the shot has.
#[unsafe(no_mangle)]
pub extern "C" fn ist_count_shot(alloc: Global, shot: &mut Handle, keys: &mut u64) -> u32
    ensures full { shot.new.full ≡ shot.old.full }
    ensures empty { shot.old.full ≡ false → (result ≡ misuse) × (keys.new ≡ keys.old) }
    ensures same { shot.old.full ≡ true → shot.new.opaque.value ≡ shot.old.opaque.value }
    ensures counts { shot.old.full ≡ true
        → CountsShot shot.old.opaque.value result keys.old keys.new }
{
    match shot.open(alloc) {
        Some(held) => {
            let status = count_in(&held, keys);
            *shot = Handle::of(held);
            status
        }
        None => MISUSE,
    }
}

// Writes the pairs of the shot from `first` to `last`, as many as there is room for.
fn list_in(held: &mut Held, first: u64, last: u64, room: &mut [Pair], piece: &mut Piece) -> u32
    ensures lists { ListsShot held.old held.new first last result room.old room.new piece.old
        piece.new }
{
    if room.is_empty() {
        return MISUSE;
    }
    match held {
        Held::Shot(shot) => {
            *piece = shot.list(first, last, room);
            DONE
        }
        _ => MISUSE,
    }
}

/// Writes the pairs of the shot from `first` to `last`, as many as there is room for, and to `piece` how
/// many these are and where to go on. There must be room for one at least.
#[unsafe(no_mangle)]
pub extern "C" fn ist_list_shot(
    alloc: Global,
    shot: &mut Handle,
    first: u64,
    last: u64,
    room: &mut [Pair],
    piece: &mut Piece,
) -> u32
    ensures full { shot.new.full ≡ shot.old.full }
    ensures empty { shot.old.full ≡ false → result ≡ misuse }
    ensures unwritten { shot.old.full ≡ false
        → (room.new ≡ room.old) × (piece.new ≡ piece.old) }
    ensures lists { shot.old.full ≡ true → ListsShot shot.old.opaque.value
        shot.new.opaque.value first last result room.old room.new piece.old piece.new }
{
    match shot.open(alloc) {
        Some(mut held) => {
            let status = list_in(&mut held, first, last, room, piece);
            *shot = Handle::of(held);
            status
        }
        None => MISUSE,
    }
}

// Drops the shot, and makes the handle hold the pass that took it.
fn drop_in(held: &mut Held) -> u32
    ensures drops { DropsShot held.old held.new result }
{
    match mem::replace(held, Held::Nothing) {
        Held::Shot(shot) => {
            *held = Held::Pass(shot.into_pass());
            DONE
        }
        other => {
            *held = other;
            MISUSE
        }
    }
}

/// Drops the shot. The handle then holds the pass that took it, as it is.
#[unsafe(no_mangle)]
pub extern "C" fn ist_drop_shot(alloc: Global, shot: &mut Handle) -> u32
    ensures full { shot.new.full ≡ shot.old.full }
    ensures empty { shot.old.full ≡ false → result ≡ misuse }
    ensures drops { shot.old.full ≡ true
        → DropsShot shot.old.opaque.value shot.new.opaque.value result }
{
    match shot.open(alloc) {
        Some(mut held) => {
            let status = drop_in(&mut held);
            *shot = Handle::of(held);
            status
        }
        None => MISUSE,
    }
}
