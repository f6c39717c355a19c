//! What a caller in C gets from a call.
ghost use Rattle.std.specs.Prelude.{◌≡◌};
ghost use Rattle.ist_handles.specs.Results.{done, full, misuse, value_if, full_of};

use ist_core::{Full, Reply};

/// The call was made.
pub const DONE: u32 = 0;

/// Out of memory.
pub const MEMORY: u32 = 1;

/// The tree of the pairs takes more words.
pub const SMALL: u32 = 2;

/// A pass or a note is out.
pub const BUSY: u32 = 3;

/// A handle holds something else or nothing, or a number is too large.
pub const MISUSE: u32 = 4;

/// Too few words of the tree are left.
pub const FULL: u32 = 5;

/// No such key has a value.
pub const NO_KEY: u32 = 6;

/// What a call on a key returns: its status, whether the key had a value, and the value.
#[repr(C)]
#[derive(Clone, Copy, Drop)]
pub struct CallResult {
    pub status: u32,
    pub some: bool,
    pub value: u64,
}

/// Why a call was refused: `asked` more words were needed, and the first free one of `words` words was
/// `next`.
#[repr(C)]
#[derive(Clone, Copy, Drop)]
pub struct Shortage {
    pub next: u64,
    pub asked: u64,
    pub words: u64,
}

/// What is left of a closed tree: how many keys have values, how many words it had, and how many of these
/// were used.
#[repr(C)]
#[derive(Clone, Copy, Drop)]
pub struct Stats {
    pub keys: u64,
    pub words: u64,
    pub used: u64,
}

/// Returns the result of a call that was made, with this reply.
pub fn replied(reply: Reply) -> CallResult
    ensures status { result.status ≡ done }
    ensures reply { value_if result.some result.value ≡ reply }
{
    match reply {
        Some(value) => CallResult {
            status: DONE,
            some: true,
            value,
        },
        None => CallResult {
            status: DONE,
            some: false,
            value: 0,
        },
    }
}

/// Returns the result of a call that was refused, and writes its numbers to `shortage`.
pub fn refused(numbers: Full, shortage: &mut Shortage) -> CallResult
    ensures status { result.status ≡ full }
    ensures numbers { full_of shortage.new ≡ numbers }
{
    *shortage = Shortage {
        next: numbers.next,
        asked: numbers.asked,
        words: numbers.words,
    };
    CallResult {
        status: FULL,
        some: false,
        value: 0,
    }
}

/// Returns the result of a call by a handle that holds no pass.
pub fn misused() -> CallResult
    ensures status { result.status ≡ misuse }
{
    CallResult {
        status: MISUSE,
        some: false,
        value: 0,
    }
}
