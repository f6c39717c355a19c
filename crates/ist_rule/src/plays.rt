//! What each step learns, in the terms of `atomic_table`.
use crate::view::View;
use atomic_table::{Join, Play, Split};
use std::marker::Brand;

// A load learns the word.
pub(crate) struct Looks;

impl Play<(), View> for Looks {
    ghost use Rattle.ist_rule.specs.Playing.{looks};

    ghost then = { looks };
}

// A store learns nothing.
pub(crate) struct Stores;

impl Play<(), View> for Stores {
    ghost use Rattle.ist_rule.specs.Playing.{stores};

    ghost then = { stores };
}

// A load that begins a search.
pub(crate) struct Searches;

impl Play<(), View> for Searches {
    ghost use Rattle.ist_rule.specs.Playing.{searches};

    ghost then = { searches };
}

// A load that begins a read.
pub(crate) struct Reads;

impl Play<(), View> for Reads {
    ghost use Rattle.ist_rule.specs.Playing.{reads};

    ghost then = { reads };
}

// A load that is a read of its own.
pub(crate) struct Glances;

impl Play<(), View> for Glances {
    ghost use Rattle.ist_rule.specs.Glancing.{glances};

    ghost then = { glances };
}

// A load that gives up a call.
pub(crate) struct GivesUp;

impl Play<(), View> for GivesUp {
    ghost use Rattle.ist_rule.specs.Playing.{gives_up};

    ghost then = { gives_up };
}

// One token becomes two.
pub(crate) struct Cuts;

impl Split<View> for Cuts {
    ghost use Rattle.ist_rule.specs.Seating.{split_left, split_right};

    ghost left = { split_left };

    ghost right = { split_right };
}

// Two tokens become one.
pub(crate) struct Binds;

impl Join<View> for Binds {
    ghost use Rattle.ist_rule.specs.Seating.{joined, gone};

    ghost both = { joined };

    ghost spent = { gone };
}

// A step that is an event, or that begins or ends a call. It sees only words: the function that
// makes it says in its proof, for the events or the call that its caller names, what it learns.
impl Play<(), View> for Brand {
    ghost use Rattle.ist_rule.specs.Playing.{looks};

    ghost then = { looks };
}
