//! Two threads share a tree. Each puts a pair, tells the other by a note, and finds the other's pair. Then two
//! threads raise one counter, some workers put a key each, and many keys are read in pieces.
//!
//! `exchange::exchange` is the part to read: its contract says what both threads find. `counting::raise` shows
//! a conditional put, `many::close_if_back` how a tree is closed after any number of workers, and
//! `paging::read_in_pieces` that pieces which are read one after another are one list.
#![tactic(auto)]

mod counting;
mod exchange;
mod growing;
mod many;
mod paging;

use crate::counting::count_in_two;
use crate::exchange::exchange;
use crate::growing::serve_many;
use crate::many::put_by_many;
use crate::paging::read_many;
use ist_core::Pair;
use std::io;

const LEFT: Pair = Pair { key: 1, value: 10 };

const RIGHT: Pair = Pair { key: 2, value: 20 };

const TIMES: u64 = 1000;

const WORKERS: u32 = 7;

const KEYS: u64 = 250;

fn main(rt: HostRuntime) -> io::Result<()> {
    match exchange(&rt, rt.alloc(), LEFT, RIGHT) {
        Ok(told) => {
            println!(rt;
                "at key {} the left thread found {:?}",
                RIGHT.key, told.left
            )?;
            println!(rt;
                "at key {} the right thread found {:?}",
                LEFT.key, told.right
            )?;
        }
        Err(fault) => println!(rt; "refused: {fault:?}")?,
    }
    match count_in_two(&rt, rt.alloc(), LEFT.key, TIMES) {
        Ok(count) => println!(rt;
            "after {} raises the counter has {:?}",
            count.raises, count.number
        )?,
        Err(fault) => println!(rt; "refused: {fault:?}")?,
    }
    match put_by_many(&rt, rt.alloc(), WORKERS) {
        Ok(keys) => println!(rt;
            "{WORKERS} workers put a key each, and the tree has {keys:?} keys"
        )?,
        Err(fault) => println!(rt; "refused: {fault:?}")?,
    }
    match read_many(rt.alloc(), KEYS) {
        Ok(pairs) => println!(rt; "of {KEYS} keys {pairs} were read in pieces")?,
        Err(fault) => println!(rt; "refused: {fault:?}")?,
    }
    match serve_many(&rt, rt.alloc(), WORKERS) {
        Ok(pairs) => println!(rt;
            "{WORKERS} workers put, find and remove keys of their own, and the map has {} keys",
            pairs.len()
        ),
        Err(fault) => println!(rt; "refused: {fault:?}"),
    }
}
