//! How much there is of an item, and of a part.
ghost use Rattle.std.specs.Prelude.{◌≡◌, ◌+◌, ◌<◌, ◌^◌, filter, length, map, not, sum_by, IfOk};
ghost use Rattle.yard_core.specs.Stock.{is_gone};
ghost use Rattle.desk_core.specs.ShopView.{state_of};
ghost use Rattle.list_core.specs.Amounts.{allocated_of, free_amount, free_of, items_of, present_of};

use desk_core::Shop;
use part_core::Id;
use report_core::stock::is_gone;
use std::alloc::AllocError;
use yard_core::Item;

/// What is present of the item: all of it where it lies at a location, or in something that does, at any depth.
pub fn present_of(shop: &Shop, item: &Item) -> u64
    ensures { result ≡ present_of (state_of shop.now) item.now }
{
    let yard = shop.yard();
    match yard.item(yard.root(item.number)) {
        Some(root) => { if root.place.is_at() { item.quantity } else { 0 } }
        None => 0,
    }
}

/// What is free of the item: of one that lies at a location itself, in a status in which stock may be allocated, what
/// isn't allocated.
pub fn free_of(shop: &Shop, item: &Item) -> u128
    ensures { result ≡ free_of (state_of shop.now) item.now }
{
    if item.place.is_at() && item.lot.status.is_allocatable() {
        u128::from(item.quantity).saturating_sub(shop.allocations().allocated(item.number))
    } else {
        0
    }
}

/// A sum with one more amount. An error is one of memory: what a shop has and wants adds up to far less than 128 bits
/// hold.
pub fn added(sum: u128, amount: u128) -> Result<u128, AllocError>
    ensures { IfOk result (λ total. total ≡ sum + amount) }
{
    let Some(total) = sum.checked_add(amount) else {
        return Err(AllocError);
    };
    Ok(total)
}

/// How much there is of a part.
#[derive(Clone, Copy, Debug)]
pub struct Amounts {
    pub present: u128,
    pub free: u128,
    pub allocated: u128,
    /// How many of its items aren't gone.
    pub items: usize,
}

/// The amounts with those of one more item. An error is one of memory.
fn with_item(shop: &Shop, amounts: Amounts, item: &Item) -> Result<Amounts, AllocError>
    requires { amounts.items + 1 < 2 ^ 64 }
    ensures present { IfOk result (λ a.
        a.present ≡ amounts.present + present_of (state_of shop.now) item.now) }
    ensures free { IfOk result (λ a.
        a.free ≡ amounts.free + free_of (state_of shop.now) item.now) }
    ensures allocated { IfOk result (λ a.
        a.allocated ≡ amounts.allocated + allocated_of (state_of shop.now) item.now) }
    ensures items { IfOk result (λ a. a.items ≡ amounts.items + 1) }
{
    let present = added(amounts.present, u128::from(present_of(shop, item)))?;
    let free = added(amounts.free, free_of(shop, item))?;
    let allocated = added(amounts.allocated, shop.allocations().allocated(item.number))?;
    Ok(Amounts {
        present,
        free,
        allocated,
        items: amounts.items + 1,
    })
}

/// The amounts of those items that aren't gone. An error is one of memory.
fn amounts_left(shop: &Shop, items: &[&Item]) -> Result<Amounts, AllocError>
    ensures present { IfOk result (λ a. a.present ≡ sum_by (present_of (state_of shop.now))
        (filter (λ i. not (is_gone i.place)) (map (λ i. i.now) items.now))) }
    ensures free { IfOk result (λ a. a.free ≡ sum_by (free_of (state_of shop.now))
        (filter (λ i. not (is_gone i.place)) (map (λ i. i.now) items.now))) }
    ensures allocated { IfOk result (λ a. a.allocated ≡ sum_by (allocated_of (state_of shop.now))
        (filter (λ i. not (is_gone i.place)) (map (λ i. i.now) items.now))) }
    ensures items { IfOk result (λ a. a.items
        ≡ length (filter (λ i. not (is_gone i.place)) (map (λ i. i.now) items.now))) }
{
    let mut amounts = Amounts {
        present: 0,
        free: 0,
        allocated: 0,
        items: 0,
    };
    for item in items {
        if !is_gone(item) {
            amounts = with_item(shop, amounts, item)?;
        }
    }
    Ok(amounts)
}

/// How much there is of a part, all of its items together. It looks at those alone. An error is one of memory.
pub fn amounts_of(shop: &Shop, part: Id) -> Result<Amounts, AllocError>
    ensures present { IfOk result (λ a. a.present
        ≡ sum_by (present_of (state_of shop.now)) (items_of part (state_of shop.now))) }
    ensures free { IfOk result (λ a. a.free ≡ free_amount part (state_of shop.now)) }
    ensures allocated { IfOk result (λ a. a.allocated
        ≡ sum_by (allocated_of (state_of shop.now)) (items_of part (state_of shop.now))) }
    ensures items { IfOk result (λ a. a.items ≡ length (items_of part (state_of shop.now))) }
{
    let items = shop.yard().items_of(part)?;
    amounts_left(shop, items.as_slice())
}

/// What is free of a part, all of its items together. It looks at those alone. An error is one of memory.
pub fn free_amount(shop: &Shop, part: Id) -> Result<u128, AllocError>
    ensures { IfOk result (λ amount. amount ≡ free_amount part (state_of shop.now)) }
{
    let amounts = amounts_of(shop, part)?;
    Ok(amounts.free)
}
