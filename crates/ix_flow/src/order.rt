ghost use Rattle.std.specs.Prelude.{◌≡◌, ◌<◌, ◌≤◌, length, nat_eq, [], ◌∷◌, ◌++◌, OnOk};
ghost use Rattle.std.specs.List.{list_any, AllByRecursion, flat_map};
ghost use Rattle.ix_mean.specs.Order.{postorder, has_term};
ghost use Rattle.ix_terms.specs.Stores.{at, size, stock_of};
ghost use Rattle.ix_flow.specs.Orders.{terms_at, IsOrder, Puts, Visits, Comes, itself};
ghost use Rattle.ix_flow.specs.declared.order.Task.TheVariants.{Enter, Leave};
ghost use Rattle.ix_flow.specs.Searches.{task_terms, task_place, IsReady, IsExtended, HasStepped};

use crate::FlowErr;
use ix_terms::{Node, Store};
use std::alloc::Global;

/// The greatest count of operations.
const MOST: usize = 256;

/// What is left of a search: a term whose operations are to be put, or one whose arguments were.
#[derive(Clone, Copy)]
pub enum Task {
    Enter(u32),
    Leave(u32),
}

// Whether the place is among places.
fn is_in(order: &[u32], k: u32) -> bool
    ensures { result ≡ list_any (nat_eq k) order.now }
{
    order.contains(&k)
}

// Puts an operation behind the others, if it is not among them.
fn push(store: &Store, order: &mut Vec<u32>, k: u32) -> Result<(), FlowErr>
    requires below { k < size (stock_of store.now) }
    requires places { AllByRecursion (λ j. j < size (stock_of store.now)) order.old.items }
    requires few { length order.old.items ≤ 256 }
    ensures { Puts (stock_of store.now) order.old.items order.new.items (at (stock_of store.now) k ∷ []) result }
{
    if is_listed(store, order.as_slice(), k) {
        return Ok(());
    }
    if order.len() >= MOST {
        return Err(FlowErr::TooManyOps);
    }
    match order.push(k) {
        Ok(()) => Ok(()),
        Err(_) => Err(FlowErr::Memory),
    }
}

// Whether the term at a place is among those at places.
fn is_listed(store: &Store, order: &[u32], k: u32) -> bool
    requires below { k < size (stock_of store.now) }
    requires places { AllByRecursion (λ j. j < size (stock_of store.now)) order.now }
    ensures { result ≡ has_term (terms_at (stock_of store.now) order.now) (at (stock_of store.now) k) }
{
    store.same_as_place();
    is_in(order, k)
}

// Puts the term at a place behind its arguments, if it is no constant.
fn leave(store: &Store, order: &mut Vec<u32>, k: u32) -> Result<(), FlowErr>
    requires below { k < size (stock_of store.now) }
    requires places { AllByRecursion (λ j. j < size (stock_of store.now)) order.old.items }
    requires few { length order.old.items ≤ 256 }
    ensures { Puts (stock_of store.now) order.old.items order.new.items (itself (at (stock_of store.now) k)) result }
{
    match store.node(k) {
        Node::Const(_, _) => Ok(()),
        Node::Read(_, _)
        | Node::One(_, _, _)
        | Node::Entry(_, _, _)
        | Node::Two(_, _, _, _)
        | Node::Three(_, _, _, _, _) => { push(store, order, k) }
    }
}

// The tasks of a term: its arguments from left to right, and then itself. The first task is put last. There are none of a
// term that has been met, nor of a constant.
fn enter(store: &Store, order: &[u32], tasks: &mut Vec<Task>, k: u32) -> Result<(), FlowErr>
    requires below { k < size (stock_of store.now) }
    requires order { IsOrder (stock_of store.now) order.now }
    ensures { Comes (HasStepped (stock_of store.now) order.now order.now tasks.old.items tasks.new.items (Enter k)) (stock_of store.now) order.now (task_terms (stock_of store.now) (Enter k)) result }
{
    if is_listed(store, order, k) {
        return Ok(());
    }
    match store.node(k) {
        Node::Const(_, _) => Ok(()),
        Node::Read(_, _) => extend(tasks, &[Task::Leave(k)]),
        Node::One(_, _, a) => extend(tasks, &[Task::Leave(k), Task::Enter(a)]),
        Node::Entry(_, _, a) => extend(tasks, &[Task::Leave(k), Task::Enter(a)]),
        Node::Two(_, _, a, b) => {
            extend(tasks, &[Task::Leave(k), Task::Enter(b), Task::Enter(a)])
        }
        Node::Three(_, _, a, b, c) => extend(
            tasks,
            &[
                Task::Leave(k),
                Task::Enter(c),
                Task::Enter(b),
                Task::Enter(a),
            ],
        ),
    }
}

// Puts tasks behind the others.
fn extend(tasks: &mut Vec<Task>, more: &[Task]) -> Result<(), FlowErr>
    ensures { IsExtended tasks.old.items tasks.new.items more.now result }
{
    match tasks.extend_from_slice(more) {
        Ok(()) => Ok(()),
        Err(_) => Err(FlowErr::Memory),
    }
}

// One task.
fn step(
    store: &Store,
    order: &mut Vec<u32>,
    tasks: &mut Vec<Task>,
    task: Task,
) -> Result<(), FlowErr>
    requires below { task_place task < size (stock_of store.now) }
    requires order { IsOrder (stock_of store.now) order.old.items }
    requires ready { IsReady (stock_of store.now) (terms_at (stock_of store.now) order.old.items ++ []) task }
    ensures { Comes (HasStepped (stock_of store.now) order.old.items order.new.items tasks.old.items tasks.new.items task) (stock_of store.now) order.old.items (task_terms (stock_of store.now) task) result }
{
    match task {
        Task::Enter(k) => enter(store, order.as_slice(), tasks, k),
        Task::Leave(k) => leave(store, order, k),
    }
}

/// Puts the operations of the term at a place behind the others: each one's arguments first, and none twice. Each edge
/// of the store is looked at once, so that the time is linear in the terms, however often one is an argument.
pub fn visit(alloc: Global, store: &Store, order: &mut Vec<u32>, k: u32) -> Result<(), FlowErr>
    requires below { k < size (stock_of store.now) }
    requires order { IsOrder (stock_of store.now) order.old.items }
    ensures { Visits (stock_of store.now) order.old.items order.new.items (postorder (at (stock_of store.now) k)) result }
{
    let mut tasks = Vec::new(alloc);
    if tasks.push(Task::Enter(k)).is_err() {
        return Err(FlowErr::Memory);
    }
    while let Some(task) = tasks.pop() {
        match step(store, order, &mut tasks, task) {
            Ok(()) => {}
            Err(error) => return Err(error),
        }
    }
    Ok(())
}

/// Puts the operations of the terms at places behind the others, root by root.
pub fn visit_all(
    alloc: Global,
    store: &Store,
    order: &mut Vec<u32>,
    roots: &[u32],
) -> Result<(), FlowErr>
    requires roots { AllByRecursion (λ k. k < size (stock_of store.now)) roots.now }
    requires order { IsOrder (stock_of store.now) order.old.items }
    ensures { Visits (stock_of store.now) order.old.items order.new.items (flat_map postorder (terms_at (stock_of store.now) roots.now)) result }
{
    for root in roots {
        match visit(alloc, store, order, *root) {
            Ok(()) => {}
            Err(error) => return Err(error),
        }
    }
    Ok(())
}
