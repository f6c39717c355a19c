//! Images of new tables, computed by hand.

use crate::judging::same;
use ist_core::Pair;
use ist_image::{lay_image, needed_words};
use std::alloc::AllocError;
use std::process::Abort;

const LOW: Pair = Pair { key: 5, value: 7 };

const HIGH: Pair = Pair { key: 9, value: 1 };

// Fails unless these are the words of the image.
fn is_laid(rt: &impl Abort, image: Result<Vec<u64>, AllocError>, words: &[u64], of: &str) {
    let found = match &image {
        Ok(image) => Ok(image.as_slice()),
        Err(error) => Err(*error),
    };
    same(rt, &found, &Ok(words), of);
}

#[test]
fn small_tables_are_laid_word_by_word(rt: HostRuntime) {
    let alloc = rt.alloc();
    let words = [6, 0, 0, 33, 5, 7, 0, 0, 0, 0, 0, 0, 0, 0, 0, 0];
    is_laid(&rt, lay_image(alloc, 16, &[LOW]), &words, "one pair");
    let words = [
        15, 0, 0, 34, 0, 0, 2, 2, 9, 89, 105, 5, 7, 9, 1, 0, 0, 0, 0, 0,
    ];
    is_laid(&rt, lay_image(alloc, 20, &[LOW, HIGH]), &words, "two pairs");
}

#[test]
fn a_table_needs_the_words_of_its_ideal_tree(rt: HostRuntime) {
    // the pairs, the words
    for (count, words) in [(0, 4), (1, 6), (2, 15), (10, 82)] {
        same(&rt, &needed_words(count), &words, count);
    }
}
