//! Words computed by hand.
use crate::judging::same;
use ist_layout::{Ref, Status, key_place, slot_place};

#[test]
fn a_word_of_a_slot_is_read(rt: HostRuntime) {
    let cases = [
        (0, Some(Ref::Empty)),
        (7, Some(Ref::Unset)),
        (33, Some(Ref::Leaf { base: 4 })),
        (34, Some(Ref::Inner { base: 4 })),
        (35, Some(Ref::Change { base: 4 })),
        (36, Some(Ref::Rebuild { base: 4 })),
        (
            (1 << 31) - 7,
            Some(Ref::Leaf {
                base: (1 << 28) - 1,
            }),
        ),
        // no tag, no base, a base among the fixed words, and one beyond the largest table
        (8, None),
        (1, None),
        (31, None),
        (38, None),
        ((1 << 31) + 1, None),
        (u64::MAX, None),
    ];
    for (word, found) in cases {
        same(&rt, &Ref::from_word(word), &found, word);
    }
}

#[test]
fn a_reference_is_written(rt: HostRuntime) {
    let words = [
        Ref::Empty.to_word(),
        Ref::Unset.to_word(),
        Ref::Leaf { base: 4 }.to_word(),
        Ref::Inner { base: 4 }.to_word(),
        Ref::Change { base: 15 }.to_word(),
        Ref::Rebuild { base: 15 }.to_word(),
    ];
    same(&rt, &words, &[0, 7, 33, 34, 123, 124], "the words");
}

#[test]
fn a_word_of_a_status_is_read_and_written(rt: HostRuntime) {
    let cases = [
        (0, Some(Status::Clear)),
        (1, Some(Status::Marked)),
        (2, None),
        (3, Some(Status::Finished { keys: 0 })),
        (4, None),
        (5, None),
        (43, Some(Status::Finished { keys: 10 })),
        ((1 << 34) - 1, Some(Status::Finished { keys: u32::MAX })),
        ((1 << 34) + 3, None),
    ];
    for (word, found) in cases {
        let read = Status::from_word(word);
        let written = match found {
            Some(status) => status.to_word(),
            None => word,
        };
        same(&rt, &(read, written), &(found, word), word);
    }
}

#[test]
fn keys_and_slots_lie_after_the_four_fields(rt: HostRuntime) {
    // an inner row of degree 2 at 4: status, count, degree, size, key 1, slot 0, slot 1
    let places = [key_place(4, 1), slot_place(4, 2, 0), slot_place(4, 2, 1)];
    same(&rt, &places, &[8, 9, 10], "the places");
}
