//! A port can be met, and rows come back as they went in.
ghost use Rattle.std.specs.Prelude.{None, option_map};
ghost use Rattle.std.specs.Option.{option_to_list};
ghost use Rattle.ist_core.specs.Replies.{told, refusal};

use crate::judging::same;
use ist_core::{Command, Full, LeafRow, Leaves, Port, Reply, Words};
use std::alloc::{AllocError, Global};
use std::sync::Wait;

// accepts one call, with no value, and refuses all others
#[derive(Drop)]
struct OneCall {
    told: Option<Command>,
    refused: Option<Command>,
}

const FULL: Full = Full {
    next: 1,
    asked: 1,
    words: 1,
};

impl Port for OneCall {
    type Tie = ();

    ghost calls = { λ p. option_to_list (option_map (λ c. told c None) p.told) };

    ghost refused = { λ p. option_map
        (λ c. refusal c record { next = 1; asked = 1; words = 1 }) p.refused };

    ghost tie = { λ p. tt };

    fn call<R: Wait>(&mut self, rt: &R, command: Command) -> Result<Reply, Full> {
        if self.told.is_none() {
            self.told = Some(command);
            return Ok(None);
        }
        self.refused = Some(command);
        Err(FULL)
    }
}

#[test]
fn a_port_answers_and_refuses(rt: HostRuntime) {
    let mut port = OneCall {
        told: None,
        refused: None,
    };
    same(
        &rt,
        &port.call(&rt, Command::Get { key: 1 }),
        &Ok(None),
        "the first call",
    );
    same(
        &rt,
        &port.call(&rt, Command::Get { key: 2 }),
        &Err(FULL),
        "the second call",
    );
    same(
        &rt,
        &port.told,
        &Some(Command::Get { key: 1 }),
        "the call that was answered",
    );
    same(
        &rt,
        &port.refused,
        &Some(Command::Get { key: 2 }),
        "the call that was refused",
    );
}

// Returns how many leaves a map of two has, and which come back from it.
fn leaves_back(
    alloc: Global,
    low: LeafRow,
    high: LeafRow,
) -> Result<(usize, [(u64, LeafRow); 2]), AllocError> {
    let leaves = Leaves::from_vec(vec![in alloc; (11, low), (13, high)]?);
    let count = leaves.as_slice().len();
    let entries = leaves.into_vec();
    Ok((count, [entries[0], entries[1]]))
}

// Returns the second of two words, and the first, once they come back.
fn words_back(alloc: Global) -> Result<(u64, u64), AllocError> {
    let words = Words::from_vec(vec![in alloc; 9, 1]?);
    let second = words.as_slice()[1];
    let words = words.into_vec();
    Ok((second, words[0]))
}

#[test]
fn rows_come_back_as_they_went_in(rt: HostRuntime) {
    let low = LeafRow { key: 5, value: 7 };
    let high = LeafRow { key: 9, value: 1 };
    let leaves = (2, [(11, low), (13, high)]);
    same(
        &rt,
        &leaves_back(rt.alloc(), low, high),
        &Ok(leaves),
        "two leaves",
    );
    same(&rt, &words_back(rt.alloc()), &Ok((1, 9)), "two words");
}
