//! How workers work.
ghost use Rattle.std.specs.Prelude.{◌≡◌, IfSome};
ghost use Rattle.std.specs.Option.{option_map};
ghost use Rattle.rb_core_model.specs.Snapshot.{IsBeginning};
ghost use Rattle.rb_board.specs.Found.{IsFoundOn, found_item, ordered_item, told_after};
ghost use Rattle.rb_base.specs.declared.gate.WorkItem.TheVariants as item;

use crate::desk::Desk;
use crate::error::DeskError;
use crate::finding::{Finding, Findings};
use crate::order::{Order, Orders};
use crate::seeing::{plan_seen, scan_seen};
use rb_base::{Gate, Part, WorkItem};
use rb_graph::Graph;
use std::alloc::Allocator;
use std::sync::Wait;

/// Scans a part of a path as the desk shows it, between the calls of the gate.
fn find_scan<G: Gate, A: Allocator + Copy>(
    desk: &mut Desk<A>,
    path: usize,
    part: Part,
    gate: &G,
) -> Finding<A>
    ensures config { desk.new.config ≡ desk.old.config }
    ensures told { desk.new.told ≡ desk.old.told }
    ensures begins { IsBeginning desk.old.seen desk.new.seen }
    ensures item { found_item result ≡ item.Scan path part }
    ensures right { IsFoundOn desk.new result }
{
    let item = WorkItem::Scan(path, part);
    gate.before(item);
    let found = scan_seen(desk, path, part);
    gate.after(item);
    match found {
        Ok(scan) => Finding::Scanned { path, scan },
        Err(DeskError::NoMemory) => Finding::Short(item),
        Err(_) => Finding::Unseen(item),
    }
}

/// Plans for a client as the desk shows it, between the calls of the gate.
fn find_plan<G: Gate, A: Allocator + Copy>(
    alloc: A,
    desk: &mut Desk<A>,
    client: usize,
    graph: &Graph<A>,
    gate: &G,
) -> Finding<A>
    ensures config { desk.new.config ≡ desk.old.config }
    ensures told { desk.new.told ≡ desk.old.told }
    ensures begins { IsBeginning desk.old.seen desk.new.seen }
    ensures item { found_item result ≡ item.Plan client }
    ensures right { IsFoundOn desk.new result }
{
    let item = WorkItem::Plan(client);
    gate.before(item);
    let found = plan_seen(alloc, desk, client, graph);
    gate.after(item);
    match found {
        Ok(draft) => Finding::Planned(draft),
        Err(DeskError::NoMemory) => Finding::Short(item),
        Err(_) => Finding::Unseen(item),
    }
}

/// Learns what the order tells of, does what it orders on what the desk shows, between the calls of
/// the gate, and tells what is found: it is of the job that was ordered, none where the worker is to
/// end. Doesn't wait, unless the gate does.
pub fn work<G: Gate, A: Allocator + Copy>(
    alloc: A,
    desk: &mut Desk<A>,
    order: Order<A>,
    gate: &G,
) -> Option<Finding<A>>
    ensures config { desk.new.config ≡ desk.old.config }
    ensures told { desk.new.told ≡ told_after order desk.old.told }
    ensures begins { IsBeginning desk.old.seen desk.new.seen }
    ensures item { option_map found_item result ≡ ordered_item order }
    ensures right { IfSome result (IsFoundOn desk.new) }
{
    match order {
        Order::Scan { path, part, note } => {
            desk.learn(note);
            Some(find_scan(desk, path, part, gate))
        }
        Order::Plan {
            client,
            note,
            graph,
        } => {
            desk.learn(note);
            Some(find_plan(alloc, desk, client, graph.graph(), gate))
        }
        Order::Stop => None,
    }
}

/// Does what it is ordered until it is told to end, and hands over what it finds. It sleeps while
/// there is no order.
pub fn worker_loop<R: Wait, G: Gate, A: Allocator + Copy>(
    rt: &R,
    alloc: A,
    desk: Desk<A>,
    orders: Orders<A>,
    findings: Findings<A>,
    gate: &G,
) {
    let mut desk = desk;
    let mut orders = orders;
    let mut findings = findings;
    for _ in rt.forever() {
        let order = orders.next(rt);
        match work(alloc, &mut desk, order, gate) {
            Some(finding) => findings.hand_over(rt, finding),
            None => return,
        }
    }
}
