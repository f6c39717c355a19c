//! Two callers that build a root for one rebuild, one after another: the first one's is set, and
//! the other caller loses its row.
ghost use Rattle.std.specs.Prelude.{◌≡◌, ◌+◌, IfSome};
ghost use Rattle.test_rebuilds.specs.Races.{racing_at, HoldsRoot};
ghost use Rattle.test_rebuilds.specs.Steps.{HasMarkedTarget};
ghost use Rattle.ist_core.specs.Rebuilding.{IsStarted};
ghost use Rattle.ist_core.specs.References.{unset_word};
ghost use Rattle.ist_core.specs.RowLayout.{rebuild_root_offset};
ghost use Rattle.ist_rows.specs.Going.{IsReady};
ghost use Rattle.ist_rows.specs.Rows.{IsAtTable};
ghost use Rattle.ist_rule.specs.Learning.{now, ExchangedOrLost};

use crate::callers::{Marked, enter_call, help_on, mark, see_rebuild, set};
use crate::judging::same;
use crate::shares::begin_top;
use crate::tables::{Opened, all_words, open_numbered};
use crate::turns::root_in;
use ist_build::build_part;
use ist_layout::{REBUILD_ROOT_OFFSET, Ref};
use ist_rebuild::Helped;
use ist_rows::Caller;
use ist_rule::{TreeTable, TreeToken, exchange_or_lose, know, load};
use ist_tree::OpenFault;
use std::alloc::Global;

// Builds the root over two keys, in a row of the caller's own, and then looks whether the rebuild
// has a root. If it has none yet, returns the word of what was built.
fn build(table: &TreeTable, who: &mut Caller, rebuild: u32, marked: Marked) -> Option<u64>
    requires ready { IsAtTable table.now IsReady who.old }
    requires marked { HasMarkedTarget (now who.old.token.view) rebuild marked.target marked.keys }
    ensures built { IfSome result (λ word.
        IsAtTable table.now (λ x. HoldsRoot x.token.view x.number rebuild word) who.new) }
{
    know(&who.token);
    if marked.keys != 2 {
        return None;
    }
    let Ok(root) = build_part(table, who, marked.target, 0, 2) else {
        return None;
    };
    let word = root.to_word();
    know(&who.token);
    let stood = load(
        table,
        &mut who.token,
        u64::from(rebuild) + REBUILD_ROOT_OFFSET,
    );
    if stood != Ref::Unset.to_word() {
        return None;
    }
    Some(word)
}

// Gives the rebuild the root that was built, if it has none, and otherwise loses the row. Returns
// the word found there.
fn root_or_lose(table: &TreeTable, who: &mut Caller, rebuild: u32, word: u64) -> u64
    requires built { IsAtTable table.now (λ x. HoldsRoot x.token.view x.number rebuild word) who.old }
    ensures rooted_or_lost { let v = who.old.token.view in
        let place = rebuild + rebuild_root_offset in
        let events = racing_at v place word in
        ExchangedOrLost v events.0 events.1 place unset_word result who.new.token.view }
{
    know(&who.token);
    let place = u64::from(rebuild) + REBUILD_ROOT_OFFSET;
    // Root, or the Lose of the row. Meets the other caller's Root.
    exchange_or_lose(table, &mut who.token, place, Ref::Unset.to_word(), word)
}

// What two callers built, and the word that each then found at the root's place.
#[derive(Clone, Copy, Debug, PartialEq, Eq, Drop)]
struct Raced {
    built: (u64, u64),
    found: (u64, u64),
}

// Each of the two builds a root for the rebuild; then the first tries to set its root, and then the
// second.
fn race(
    table: &TreeTable,
    first: &mut Caller,
    second: &mut Caller,
    rebuild: u32,
    again: u32,
) -> Option<Raced>
    requires first_ready { IsAtTable table.now IsReady first.old }
    requires second_ready { IsAtTable table.now IsReady second.old }
    requires first_started { IsStarted (now first.old.token.view) rebuild }
    requires second_started { IsStarted (now second.old.token.view) again }
{
    let marked = mark(table, first, rebuild);
    let Some(left) = build(table, first, rebuild, marked) else {
        return None;
    };
    let marked = mark(table, second, again);
    let Some(right) = build(table, second, again, marked) else {
        return None;
    };
    let stood = root_or_lose(table, first, rebuild, left);
    let lost = root_or_lose(table, second, again, right);
    Some(Raced {
        built: (left, right),
        found: (stood, lost),
    })
}

// Returns the root that the rebuild has, and whether the root then replaces the target.
fn end(table: &TreeTable, who: &mut Caller, rebuild: u32) -> (Option<Ref>, bool)
    requires ready { IsAtTable table.now IsReady who.old }
    requires started { IsStarted (now who.old.token.view) rebuild }
{
    mark(table, who, rebuild);
    let root = set(table, who, rebuild).ok();
    (root, help_on(table, who, rebuild) == Ok(Helped::Replaced))
}

// What is seen if two callers each build a root for a rebuild that a third has started: the
// rebuilds that all found; the result of the race; the root that the starter gets, and whether the
// target is then replaced; the used words and the root below the anchor afterwards, and whether the
// ideal tree is there; and whether some word names the row that was lost.
#[derive(Clone, Copy, Debug, PartialEq, Eq, Drop)]
struct RootRace {
    rebuilds: (u32, u32, u32),
    raced: Option<Raced>,
    ended: (Option<Ref>, bool),
    words: (Option<u64>, Option<u64>, bool),
    names_lost: bool,
}

// The same in a table of two pairs, whose words were the image.
fn see_in(
    table: &TreeTable,
    alloc: Global,
    maker: &mut TreeToken,
    starter: &mut Caller,
    first: &mut Caller,
    second: &mut Caller,
    image: &[u64],
) -> Result<Option<RootRace>, OpenFault>
    requires maker_table { maker.old.view.table ≡ table.now.table }
    requires starter_ready { IsAtTable table.now IsReady starter.old }
    requires first_ready { IsAtTable table.now IsReady first.old }
    requires second_ready { IsAtTable table.now IsReady second.old }
{
    let Some(rebuild) = begin_top(table, starter) else {
        return Ok(None);
    };
    let (Some(one), Some(two)) = (see_rebuild(table, first), see_rebuild(table, second)) else {
        return Ok(None);
    };
    let raced = race(table, first, second, one, two);
    let ended = end(table, starter, rebuild);
    let words = root_in(table, alloc, maker, image)?;
    let lost = match raced {
        Some(raced) => raced.built.1,
        None => 0,
    };
    let all = all_words(alloc, table, maker)?;
    let names_lost = all.as_slice().contains(&lost);
    Ok(Some(RootRace {
        rebuilds: (rebuild, one, two),
        raced,
        ended,
        words,
        names_lost,
    }))
}

// The same in a new table.
fn see(alloc: Global) -> Result<Option<RootRace>, OpenFault> {
    let Opened {
        table,
        mut maker,
        image,
    } = open_numbered(alloc, 2, 59)?;
    let mut starter = enter_call(&table, &mut maker);
    let mut first = enter_call(&table, &mut maker);
    let mut second = enter_call(&table, &mut maker);
    see_in(
        &table,
        alloc,
        &mut maker,
        &mut starter,
        &mut first,
        &mut second,
        &image,
    )
}

#[test]
fn of_two_that_build_a_root_at_once_the_second_loses_its_row(rt: HostRuntime) {
    // Each has a row of its own: the rows of the start end at 29.
    let stands = Ref::Inner { base: 29 };
    let lost = Ref::Inner { base: 36 };
    let wanted = RootRace {
        rebuilds: (15, 15, 15),
        raced: Some(Raced {
            built: (stands.to_word(), lost.to_word()),
            found: (Ref::Unset.to_word(), stands.to_word()),
        }),
        // Whoever asks for the root gets the first one's. It is then below the anchor, and no word
        // of the table names the second one's row.
        ended: (Some(stands), true),
        words: (Some(52), Some(stands.to_word()), true),
        names_lost: false,
    };
    same(&rt, &see(rt.alloc()), &Ok(Some(wanted)), "two pairs");
}
