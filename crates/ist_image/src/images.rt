//! The words of a new table, whole.
ghost use Rattle.std.specs.Prelude.{◌≡◌, ◌+◌, ◌≤◌, ◌<◌, ◌^◌, length, take, [], IfOk, OnOk};
ghost use Rattle.ist_core.specs.Shapes.{ideal_words};
ghost use Rattle.ist_core.specs.RowLayout.{first_row};
ghost use Rattle.ist_core.specs.StartLayout.{start};
ghost use Rattle.ist_core.specs.Images.{IsImage};
ghost use Rattle.ist_core.specs.Lawful.{CanOpen};
ghost use Rattle.ist_image.specs.Zeros.{ZerosFrom};

use crate::laying::put_tree;
use crate::rows::tree_word;
use ist_core::Pair;
use ist_layout::{ANCHOR_SLOT_PLACE, ANCHOR_STATUS_PLACE, CALLERS_PLACE, FIRST_ROW, NEXT_PLACE};
use ist_math::ideal_words;
use std::alloc::{AllocError, Global};
use std::marker::Model;

/// The status of a node that isn't marked.
const OPEN_WORD: u64 = 0;

/// Returns how many words the image of a new table with `pairs` pairs uses: the fixed words, and
/// the ideal tree. A table of fewer words has no room for it.
pub fn needed_words(pairs: u64) -> u64
    requires fits { pairs < 2 ^ 32 }
    ensures value { result ≡ first_row + ideal_words pairs }
{
    u64::from(FIRST_ROW) + ideal_words(pairs)
}

/// Builds the words of a new table of `words` words with these pairs, which have strictly
/// increasing keys: the ideal tree of the pairs from the first row on, no callers, and then zeros.
/// Fails only if memory runs out.
///
/// Each word that is used is written once, over a vector of zeros.
pub fn lay_image(alloc: Global, words: u64, pairs: &[Pair]) -> Result<Vec<u64>, AllocError>
    requires opens { CanOpen pairs.now words }
    ensures size { IfOk result (λ image. length image.items ≡ words) }
    ensures image { IfOk result (λ image. IsImage (start pairs.now words) image.items) }
{
    let mut image = vec![in alloc; 0; words as usize]?;
    put_image(image.as_mut_slice(), words, pairs);
    Ok(image)
}

/// Memory for images that are built one after another, with the last of them.
///
/// It keeps as many words as its largest image had, and lends as many of them as the last one has. All
/// words that the last image doesn't use are 0. So building the next one touches only those that it
/// uses itself, and those that only the last one used, also if it has more or fewer words.
///
/// Contracts see the words of the last image.
#[derive(Drop)]
pub struct Image {
    words: Vec<u64>,
    count: usize,
    used: usize,
}

impl Model for Image {
    ghost use Rattle.std.specs.Prelude.{ℕ, List, take};
    ghost use Rattle.ist_image.specs.Zeros.{IsImageMemory};

    ghost Value = { List ℕ };

    ghost view = { λ i. take i.count i.words.items };

    ghost invariant = { λ i. IsImageMemory i.words.items i.count i.used };
}

impl Image {
    /// Returns an image without words.
    pub fn new(alloc: Global) -> Image
        ensures empty { result ≡ [] }
    {
        Image {
            words: Vec::new(alloc),
            count: 0,
            used: 0,
        }
    }

    /// Builds the image of a new table of `words` words with these pairs, which have strictly
    /// increasing keys, in this memory, as `lay_image` would. Fails only if memory runs out.
    ///
    /// It writes once each word that this image uses, each other word that the last one used, and
    /// each word that is added. If it fails, the words are no image until the next call.
    pub fn lay(&mut self, words: u64, pairs: &[Pair]) -> Result<(), AllocError>
        requires opens { CanOpen pairs.now words }
        ensures size { OnOk result (length self.new ≡ words) }
        ensures image { OnOk result (IsImage (start pairs.now words) self.new) }
    {
        let needed = needed_words(pairs.len() as u64) as usize;
        let kept = self.used.min(needed);
        clear(self.words.as_mut_slice(), kept, self.used);
        self.used = kept;
        grow(&mut self.words, kept, words as usize)?;
        put_image(self.words.as_mut_slice(), words, pairs);
        self.count = words as usize;
        self.used = needed;
        Ok(())
    }

    /// Returns the words of the last image.
    pub fn words(&self) -> &[u64]
        ensures value { result.now ≡ self.now }
    {
        &self.words[..self.count]
    }

    /// Returns the words of the last image, to keep.
    pub fn into_words(mut self) -> Vec<u64>
        ensures value { result.items ≡ self }
    {
        self.words.truncate(self.count);
        self.words
    }
}

/// Sets the words from one place to another to 0; all after them are 0 already.
fn clear(words: &mut [u64], from: usize, used: usize)
    requires ordered { from ≤ used }
    requires within { used ≤ length words.old }
    requires zeros { ZerosFrom used words.old }
    ensures zeros { ZerosFrom from words.new }
    ensures length { length words.new ≡ length words.old }
{
    for i in from..used {
        words[i] = 0;
    }
}

/// Makes at least this many words of them. Words that are added are 0. Fails only if memory runs out,
/// and then leaves them as they were.
fn grow(words: &mut Vec<u64>, from: usize, count: usize) -> Result<(), AllocError>
    requires zeros { ZerosFrom from words.old.items }
    ensures longer { length words.old.items ≤ length words.new.items }
    ensures size { OnOk result (count ≤ length words.new.items) }
    ensures zeros { ZerosFrom from words.new.items }
{
    if words.len() < count {
        words.resize(count, 0)?;
    }
    Ok(())
}

/// Writes the image of a new table of `size` words with these pairs into words that are 0 after it.
fn put_image(words: &mut [u64], size: u64, pairs: &[Pair])
    requires opens { CanOpen pairs.now size }
    requires within { size ≤ length words.old }
    requires zeros { ZerosFrom (first_row + ideal_words (length pairs.now)) words.old }
    ensures image { IsImage (start pairs.now size) (take size words.new) }
    ensures zeros { ZerosFrom (first_row + ideal_words (length pairs.now)) words.new }
    ensures length { length words.new ≡ length words.old }
{
    let count = pairs.len() as u64;
    let first = u64::from(FIRST_ROW);
    words[NEXT_PLACE as usize] = needed_words(count);
    words[CALLERS_PLACE as usize] = 0;
    words[ANCHOR_STATUS_PLACE as usize] = OPEN_WORD;
    words[ANCHOR_SLOT_PLACE as usize] = tree_word(first, count);
    put_tree(words, first, pairs);
}
