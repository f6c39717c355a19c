//! Laws on dumps. The functions do nothing and return nothing: contracts are laws.
ghost use Rattle.tele_audit.specs.Laws.{LawfulDumpsHaveNoFlaw, FirstFlawsAreOne};
ghost use Rattle.tele_audit.specs.Laws.{DumpsTellOneThing, DumpsTellTheList};
ghost use Rattle.tele_audit.specs.Laws.{PackedDumpsTellTheMap, PackedLinesAreListed};

use crate::word_laws::{lawful_words_break_nowhere, pairs_are_one};
use ist_rest::laws::standing_words_hold_the_map;

/// A dump of lawful words has no flaw, and any bytes have at most one first flaw.
pub fn lawful_dumps_have_no_flaw()
    ensures none { LawfulDumpsHaveNoFlaw }
    ensures one { FirstFlawsAreOne }
{
    lawful_words_break_nowhere();
}

/// A dump has only one possible audit, and its pairs in an interval are those that the words hold.
pub fn dumps_tell_the_words()
    ensures one { DumpsTellOneThing }
    ensures listed { DumpsTellTheList }
{
    pairs_are_one();
}

/// The dump that `pack` writes holds the map that the lines leave, and `list` writes an interval of
/// it.
pub fn packed_lines_are_listed()
    ensures told { PackedDumpsTellTheMap }
    ensures listed { PackedLinesAreListed }
{
    standing_words_hold_the_map();
    lawful_words_break_nowhere();
    pairs_are_one();
}
