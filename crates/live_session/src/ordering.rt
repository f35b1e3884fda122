//! The orders of a load.

ghost use Rattle.std.specs.Prelude.{◌≡◌, ◌≤◌, ◌+◌, ◌++◌, List, length, map, min, vec_len, vec_capacity, IfOk, IfErr};
ghost use Rattle.std.specs.List.{AllByRecursion, range_with_len};
ghost use Rattle.refusals.specs.Limits.{limit_of};
ghost use Rattle.refusals.specs.declared.refusal.Which.TheVariants as limits;
ghost use Rattle.live_session.specs.declared.order.Order.{Order as AnOrder};
ghost use Rattle.live_session.specs.declared.order.Order.TheVariants as Ordered;
ghost use Rattle.live_session.specs.Orders.{AreLinkOrders, AreOrdersFor, IsFilling};

use crate::order::Order;
use crossbeam_channel::{Receiver, Sender, unbounded};
use live_asks::READERS;
use std::alloc::{AllocError, Global};

/// The ends of the channel by which links wake fillers: one for each of them.
#[derive(Drop)]
struct Wakes {
    senders: Vec<Sender<()>>,
    receivers: Vec<Receiver<()>>,
}

/// The orders of links by these sources, whose numbers rise from this one; of readers for so many asks; and of so many
/// fillers. Where there's no memory for them the sources are given back.
pub(crate) fn orders_of<S: Drop>(
    alloc: Global,
    link: u16,
    sources: Vec<S>,
    asks: usize,
    fillers: usize,
) -> Result<Vec<Order<S>>, Vec<S>>
    requires links { link + vec_len sources ≤ limit_of limits.Links + 1 }
    requires fillers { fillers ≤ limit_of limits.Fillers }
    ensures orders { IfOk result (λ orders. AreOrdersFor link sources.items (min asks 4) fillers orders.items) }
    ensures count { IfOk result (λ orders. vec_len orders ≡ vec_len sources + min asks 4 + fillers) }
    ensures back { IfErr result (λ back. back.items ≡ sources.items) }
{
    let readers = asks.min(READERS);
    let Ok(mut orders) = Vec::with_capacity(alloc, sources.len() + readers + fillers) else {
        return Err(sources);
    };
    let Ok(wakes) = wakes_of(alloc, sources.len(), fillers) else {
        return Err(sources);
    };
    let Wakes { senders, receivers } = wakes;
    add_links(link, sources, senders, &mut orders);
    add_readers(readers, &mut orders);
    add_fillers(receivers, &mut orders);
    Ok(orders)
}

/// So many ends of each side of one channel. None else is left of it, so that fillers end once the links have.
fn wakes_of(alloc: Global, links: usize, fillers: usize) -> Result<Wakes, AllocError>
    ensures { IfOk result (λ wakes. (vec_len wakes.senders ≡ links) × (vec_len wakes.receivers ≡ fillers)) }
{
    let (wake, woken) = unbounded::<(), Global>(alloc)?;
    let senders = copies(alloc, &wake, links)?;
    let receivers = copies(alloc, &woken, fillers)?;
    Ok(Wakes { senders, receivers })
}

/// So many copies.
fn copies<T: Clone + Drop>(alloc: Global, one: &T, count: usize) -> Result<Vec<T>, AllocError>
    ensures { IfOk result (λ copies. vec_len copies ≡ count) }
{
    let mut copies = Vec::new(alloc);
    while copies.len() < count {
        let copy = one.clone()?;
        copies.push(copy)?;
    }
    Ok(copies)
}

/// Adds the orders of links.
fn add_links<S: Drop>(
    link: u16,
    sources: Vec<S>,
    mut senders: Vec<Sender<()>>,
    orders: &mut Vec<Order<S>>,
)
    requires links { link + vec_len sources ≤ limit_of limits.Links + 1 }
    requires senders { vec_len senders ≡ vec_len sources }
    requires room { vec_len orders.old + vec_len sources ≤ vec_capacity orders.old }
    ensures added { (added : List (AnOrder S)) × (orders.new.items ≡ orders.old.items ++ added)
        × AreLinkOrders link sources.items added }
    ensures room { (vec_len orders.new ≡ vec_len orders.old + vec_len sources)
        × (vec_capacity orders.new ≡ vec_capacity orders.old) }
{
    let mut link = link;
    for source in sources {
        let Some(wake) = senders.pop() else {
            return;
        };
        orders.push_reserved(Order::Link { link, source, wake });
        link += 1;
    }
}

/// Adds the orders of readers.
fn add_readers<S: Drop>(readers: usize, orders: &mut Vec<Order<S>>)
    requires room { vec_len orders.old + readers ≤ vec_capacity orders.old }
    ensures added { orders.new.items ≡ orders.old.items ++ map Ordered.Reader (range_with_len 0 readers) }
    ensures room { (vec_len orders.new ≡ vec_len orders.old + readers)
        × (vec_capacity orders.new ≡ vec_capacity orders.old) }
{
    for before in 0..readers {
        orders.push_reserved(Order::Reader { before });
    }
}

/// Adds the orders of fillers.
fn add_fillers<S: Drop>(receivers: Vec<Receiver<()>>, orders: &mut Vec<Order<S>>)
    requires room { vec_len orders.old + vec_len receivers ≤ vec_capacity orders.old }
    ensures added { (added : List (AnOrder S)) × (orders.new.items ≡ orders.old.items ++ added)
        × AllByRecursion IsFilling added × (length added ≡ vec_len receivers) }
    ensures room { (vec_len orders.new ≡ vec_len orders.old + vec_len receivers)
        × (vec_capacity orders.new ≡ vec_capacity orders.old) }
{
    for wakes in receivers {
        orders.push_reserved(Order::Filler { wakes });
    }
}
