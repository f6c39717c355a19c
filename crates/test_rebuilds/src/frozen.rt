//! Rebuilds of a row whose slots hold pair rows, another rebuild, and the change of a put that came too late.
ghost use Rattle.std.specs.Prelude.{◌≡◌, Some, IfSome};
ghost use Rattle.test_rebuilds.specs.Late.{IsFilled};
ghost use Rattle.test_rebuilds.specs.Steps.{IsMakerAt};
ghost use Rattle.ist_core.specs.Rebuilding.{IsStarted};
ghost use Rattle.ist_dcss.specs.declared.decisions.Installed.TheVariants.{Yes};
ghost use Rattle.ist_dcss.specs.Helping.{MayHelp};
ghost use Rattle.ist_rows.specs.Going.{IsReady};
ghost use Rattle.ist_rows.specs.Rows.{IsAtTable};
ghost use Rattle.ist_rule.specs.Learning.{now};
ghost use Rattle.ist_tree.specs.Insides.{IsPass};

use crate::callers::{enter_call, help_on, mark, see_rebuild};
use crate::judging::same;
use crate::late::{LatePut, install_late, prepare};
use crate::leaves::{are_pairs, is_part};
use crate::shapes::{LAST, Shape, bring_in, map_of};
use crate::shares::begin_top;
use crate::tables::{Opened, is_image, open, open_numbered, word_at};
use crate::updates::enter_idle;
use ist_core::Pair;
use ist_dcss::{Decision, Installed, help};
use ist_rebuild::Helped;
use ist_rows::Caller;
use ist_rule::{TreeTable, TreeToken};
use ist_tree::OpenFault;
use plain_map::Plain;
use std::alloc::{AllocError, Global};

// What is seen of a rebuild: are the leaves below its finished target the map's leaves, is what is
// built over them the ideal tree, was it replaced, and is the tree afterwards the ideal tree?
#[derive(Debug, PartialEq, Drop)]
struct Rebuilt {
    leaves: bool,
    part: bool,
    replaced: bool,
    whole: bool,
}

// What is seen of a tree of some shape: the tags of the first three slots at the moment of building, the
// rebuild, and the result of the late put.
#[derive(Debug, PartialEq, Drop)]
struct FrozenRow {
    tags: (u64, u64, u64),
    rebuilt: Rebuilt,
    late: Option<Decision>,
}

// What the builder finds: are the leaves below the finished target the pairs, and is what it builds over them
// the tree of the image?
fn build_over(
    table: &TreeTable,
    alloc: Global,
    maker: &mut TreeToken,
    builder: &mut Caller,
    pairs: &[Pair],
    image: &[u64],
) -> Result<(bool, bool), AllocError>
    requires maker_table { maker.old.view.table ≡ table.now.table }
    requires ready { IsAtTable table.now IsReady builder.old }
    ensures maker_table { maker.new.view.table ≡ table.now.table }
{
    let Some(rebuild) = see_rebuild(table, builder) else {
        return Ok((false, false));
    };
    let marked = mark(table, builder, rebuild);
    let leaves = are_pairs(table, maker, builder, rebuild, marked, pairs);
    let part = is_part(table, alloc, maker, builder, rebuild, marked, image)?;
    Ok((leaves, part))
}

// The builder builds a tree of its own over the leaves, and the helper helps the rebuild until it
// is done.
fn rebuild_over(
    table: &TreeTable,
    alloc: Global,
    maker: &mut TreeToken,
    helper: &mut Caller,
    builder: &mut Caller,
    rebuild: u32,
    map: &Plain,
) -> Result<Rebuilt, OpenFault>
    requires maker_table { maker.old.view.table ≡ table.now.table }
    requires helper { IsAtTable table.now IsReady helper.old }
    requires started { IsStarted (now helper.old.token.view) rebuild }
    requires builder { IsAtTable table.now IsReady builder.old }
{
    let pairs = map.pairs();
    let image = open(alloc, pairs, 20_000)?.image;
    let image = image.as_slice();
    let (leaves, part) = build_over(table, alloc, maker, builder, pairs, image)?;
    let replaced = help_on(table, helper, rebuild) == Ok(Helped::Replaced);
    Ok(Rebuilt {
        leaves,
        part,
        replaced,
        whole: is_image(alloc, table, maker, image)?,
    })
}

// Installs the late put, if there is one.
fn may_install(table: &TreeTable, who: &mut Caller, put: LatePut, late: bool) -> Option<Installed>
    requires filled { IsAtTable table.now (λ x. IsFilled x put.change put.leaf put.row) who.old }
    ensures may_help { result ≡ Some Yes
        → IsAtTable table.now (λ x. MayHelp x.token.view put.change) who.new }
{
    if late {
        Some(install_late(table, who, put))
    } else {
        None
    }
}

// Fills a late put, starts a rebuild, and marks its row; then installs the put, if the test says so. Returns the rebuild too.
fn freeze(
    table: &TreeTable,
    last: &mut Caller,
    helper: &mut Caller,
    late: bool,
) -> Option<(LatePut, Option<Installed>, u32)>
    requires last_pass { IsAtTable table.now IsPass last.old }
    requires helper_ready { IsAtTable table.now IsReady helper.old }
    ensures may_help { IfSome result (λ frozen. frozen.1 ≡ Some Yes
        → IsAtTable table.now (λ x. MayHelp x.token.view frozen.0.change) last.new) }
    ensures helper_ready { IsAtTable table.now IsReady helper.new }
    ensures started { IfSome result (λ frozen. IsStarted (now helper.new.token.view) frozen.2) }
{
    let Some(put) = prepare(table, last, 31, 9) else {
        return None;
    };
    let Some(rebuild) = begin_top(table, helper) else {
        return None;
    };
    mark(table, helper, rebuild);
    let installed = may_install(table, last, put, late);
    Some((put, installed, rebuild))
}

// Rebuilds the tree, which is in this shape, and installs the late put once its row is marked.
fn see_late(
    table: &TreeTable,
    alloc: Global,
    maker: &mut TreeToken,
    last: &mut Caller,
    helper: &mut Caller,
    builder: &mut Caller,
    shape: Shape,
) -> Result<Option<FrozenRow>, OpenFault>
    requires maker_table { maker.old.view.table ≡ table.now.table }
    requires last_pass { IsAtTable table.now IsPass last.old }
    requires helper_ready { IsAtTable table.now IsReady helper.old }
    requires builder_ready { IsAtTable table.now IsReady builder.old }
{
    let Some((put, installed, rebuild)) = freeze(table, last, helper, shape.late) else {
        return Ok(None);
    };
    // the row over all pairs lies at 4, and the first of its 14 slots at 21
    let tags = (
        word_at(table, maker, 21) % 8,
        word_at(table, maker, 22) % 8,
        word_at(table, maker, 23) % 8,
    );
    let map = map_of(alloc, shape)?;
    let rebuilt = rebuild_over(table, alloc, maker, helper, builder, rebuild, &map)?;
    let late = match installed {
        Some(Installed::Yes) => Some(help(table, &mut last.token, put.change)),
        _ => None,
    };
    Ok(Some(FrozenRow {
        tags,
        rebuilt,
        late,
    }))
}

// The same by callers that enter once the tree is brought into the shape.
fn see_in(
    table: &TreeTable,
    alloc: Global,
    maker: &mut TreeToken,
    shape: Shape,
) -> Result<Option<FrozenRow>, OpenFault>
    requires maker { IsMakerAt table.now 0 maker.old }
{
    if !bring_in(table, alloc, maker, shape)? {
        return Ok(None);
    }
    let mut last = enter_idle(table, maker);
    let mut helper = enter_call(table, maker);
    let mut builder = enter_call(table, maker);
    see_late(
        table,
        alloc,
        maker,
        &mut last,
        &mut helper,
        &mut builder,
        shape,
    )
}

// The same in a new tree.
fn see(alloc: Global, shape: Shape) -> Result<Option<FrozenRow>, OpenFault> {
    let Opened {
        table,
        mut maker,
        ..
    } = open_numbered(alloc, LAST, 20_000)?;
    see_in(&table, alloc, &mut maker, shape)
}

#[test]
fn a_rebuild_has_the_leaves_of_the_map_whatever_stands_in_the_slots(rt: HostRuntime) {
    // how many pair rows in the first slot, whether a rebuild in the second, whether a late change in the
    // third; the tags of these slots: 1 a leaf, 2 a row, 3 a change, 4 a rebuild
    let cases = [
        (0, false, false, (1, 2, 1)),
        (1, false, false, (2, 2, 1)),
        (2, false, false, (2, 2, 1)),
        (0, true, false, (1, 4, 1)),
        (0, false, true, (1, 2, 3)),
        (2, true, true, (2, 4, 3)),
    ];
    for (chain, rebuilt, late, tags) in cases {
        let shape = Shape {
            chain,
            rebuilt,
            late,
        };
        let wanted = FrozenRow {
            tags,
            rebuilt: Rebuilt {
                leaves: true,
                part: true,
                replaced: true,
                whole: true,
            },
            late: if late { Some(Decision::No) } else { None },
        };
        same(&rt, &see(rt.alloc(), shape), &Ok(Some(wanted)), shape);
    }
}
