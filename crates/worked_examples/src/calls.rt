//! What no line asks: calls of the stores of bills, parts and stock, each after a worked example.
ghost use Rattle.std.specs.Prelude.{IfOk};
ghost use Rattle.desk_core.specs.Machine.{IsSoundState};
ghost use Rattle.desk_core.specs.ShopView.{state_of};

use crate::example::Example;
use desk_core::Shop;
use desk_play::play::plays_on_shop;
use part_core::{Limits, Seed};
use std::alloc::Global;
use std::test::Fail;
use store_play::outcomes::holds;

/// A shop in which the example was played.
fn shop_after(alloc: Global, example: &Example) -> Result<Shop, Fail>
    ensures { IfOk result (λ shop. IsSoundState (state_of shop)) }
{
    let mut shop = Shop::new(alloc, Seed::new(0), Limits::LARGEST);
    plays_on_shop(
        alloc,
        &mut shop,
        example.lines.as_str(),
        example.answers.as_str(),
    )?;
    Ok(shop)
}

/// The lines that hold of a model, and what it contains, after `bill-cycles`.
pub fn bills(alloc: Global, example: &Example) -> Result<(), Fail> {
    let shop = shop_after(alloc, example)?;
    let lines = shop.boms().effective(shop.catalogue(), 15)?;
    holds(lines.len() == 1, "one line holds")?;
    let number = lines.first().ok_or("a line")?.number;
    holds(number == 16, "line 16 holds")?;
    holds(
        shop.boms().reaches(shop.catalogue(), 15, 4)?,
        "the model contains motors",
    )
}

/// The families of a variant and of a part that is none, after `refused-rows`.
pub fn families(alloc: Global, example: &Example) -> Result<(), Fail> {
    let shop = shop_after(alloc, example)?;
    holds(shop.catalogue().family(7) == 6, "a variant's family")?;
    holds(shop.catalogue().family(2) == 2, "a part's own family")?;
    holds(shop.catalogue().descends(7, 6), "7 is a variant")?;
    holds(!shop.catalogue().descends(2, 6), "2 is no variant")
}

/// What the lowest of a chain is made of, and of which family it is, after `template-chain`.
pub fn chain(alloc: Global, example: &Example) -> Result<(), Fail> {
    let shop = shop_after(alloc, example)?;
    let lines = shop.boms().effective(shop.catalogue(), 5)?;
    holds(lines.len() == 1, "one line holds for the lowest")?;
    let number = lines.first().ok_or("a line")?.number;
    holds(number == 7, "line 7 holds for the lowest")?;
    holds(
        shop.catalogue().family(5) == 2,
        "the family is of the first",
    )?;
    holds(
        shop.catalogue().descends(5, 2),
        "the lowest is a variant of the first",
    )?;
    holds(
        !shop.catalogue().descends(2, 5),
        "the first is none of the lowest",
    )
}

fn ask_tower(shop: &Shop) -> Result<(), Fail>
    requires { IsSoundState (state_of shop.now) }
{
    let yard = shop.yard();
    if yard.item(35).is_none() || yard.item(50).is_none() {
        return holds(false, "both ends are there");
    }
    holds(yard.root(50) == 35, "the lowest stands under the first")?;
    holds(yard.depth(50) == 16, "the lowest stands at 16")?;
    holds(yard.height(35) == 16, "the first is 16 high")?;
    holds(yard.is_within(50, 35), "the lowest is in the first")?;
    holds(!yard.is_within(35, 50), "the first isn't in the lowest")?;
    holds(
        yard.children(35)?.as_slice() == [36].as_slice(),
        "one in the first",
    )?;
    holds(yard.content(35)?.len() == 15, "15 in the first")?;
    let tree = yard.tree(35)?;
    let below = tree.trees.first().ok_or("a tree")?;
    holds(
        tree.item.number == 35 && below.item.number == 36,
        "the first, and what is in it",
    )
}

/// Walks in a tower of 16, after `nesting-deep`.
pub fn tower(alloc: Global, example: &Example) -> Result<(), Fail> {
    let shop = shop_after(alloc, example)?;
    ask_tower(&shop)
}

fn ask_built(shop: &Shop) -> Result<(), Fail>
    requires { IsSoundState (state_of shop.now) }
{
    let yard = shop.yard();
    if yard.item(14).is_none() {
        return holds(false, "the robot is there");
    }
    let tree = yard.tree(14)?;
    holds(tree.item.number == 14, "the robot itself")?;
    holds(tree.trees.len() == 2, "two in it")?;
    let leaves = tree.trees.iter().all(|below| below.trees.is_empty());
    holds(leaves, "nothing in the motors")?;
    holds(
        yard.children(14)?.as_slice() == [11, 12].as_slice(),
        "the motors",
    )
}

/// The tree of a robot that was built, after `robot-build`.
pub fn built(alloc: Global, example: &Example) -> Result<(), Fail> {
    let shop = shop_after(alloc, example)?;
    ask_built(&shop)
}
