//! What the links find: the first request that waits, the first that is due, and what stands at a place.
ghost use Rattle.std.specs.Prelude.{ℕ, if◌then◌else◌, ◌≡◌, ◌<◌, ◌==◌, Some};
ghost use Rattle.std.specs.Option.{option_copied, option_map};
ghost use Rattle.request_queue.specs.Chains.{IsNext};
ghost use Rattle.request_queue.specs.Nodes.{In, IsFirstDue, chain_for, found_at, id_option, link_of, next_in, node_at, request_in, waiting_in};
ghost use Rattle.request_queue.specs.Queue.{found_of};
ghost use Rattle.request_queue.specs.Requests.{is_due, request_command, request_session};
ghost use Rattle.request_queue.specs.declared.nodes.Node.{Node};

use crate::nodes::{Node, Place, node_of};
use crate::queue::Found;
use crate::requests::Request;
use pad_words::Session;
use slab::Slab;

/// The request in work after this one ended.
pub fn running_after(running: u32, ended: u32) -> u32
    ensures { result ≡ (if running == ended then 0 else running) }
{
    if running == ended { 0 } else { running }
}

/// An id, or none at 0.
pub fn id_or_none(id: u32) -> Option<u32>
    ensures { result ≡ id_option id }
{
    if id == 0 { None } else { Some(id) }
}

/// Chain 0 for all requests, or a session's.
pub fn chain_of(session: Option<Session>) -> usize
    ensures chain { result ≡ chain_for session }
    ensures bound { result < 17 }
{
    match session {
        Some(session) => session.number as usize,
        None => 0,
    }
}

/// The owner of a pending request.
pub fn owner_of<C, R>(nodes: &Slab<Node<C>>, places: &[Place<R>], id: u32) -> Option<Session>
    ensures { result ≡ option_map request_session (request_in (node_at nodes.now places.now id)) }
{
    match node_of(nodes, places, id) {
        Some(node) => Some(node.request.session),
        None => None,
    }
}

/// The command of a pending request.
pub fn command_of<'a, C, R>(nodes: &'a Slab<Node<C>>, places: &[Place<R>], id: u32) -> Option<&'a C>
    ensures { option_copied result ≡ option_map request_command (request_in (node_at nodes.now places.now id)) }
{
    match node_of(nodes, places, id) {
        Some(node) => Some(&node.request.command),
        None => None,
    }
}

/// The request after this one in the chain, or 0.
fn after<C, R>(nodes: &Slab<Node<C>>, places: &[Place<R>], chain: usize, id: u32) -> u32
    ensures { result ≡ next_in chain (node_at nodes.now places.now id) }
{
    match node_of(nodes, places, id) {
        Some(node) => link_in(node, chain),
        None => 0,
    }
}

/// The request after this node in the chain, or 0.
fn link_in<C>(node: &Node<C>, chain: usize) -> u32
    ensures { result ≡ (link_of chain node.now).next }
{
    if chain == 0 {
        return node.all.next;
    }
    node.own.next
}

/// The chain's first request, or its second where the first is in work.
pub fn next_waiting<C, R>(
    nodes: &Slab<Node<C>>,
    places: &[Place<R>],
    chain: usize,
    head: u32,
    running: u32,
) -> u32
    ensures { result ≡ waiting_in (node_at nodes.now places.now) chain head running }
{
    if head == running {
        after(nodes, places, chain, head)
    } else {
        head
    }
}

/// Whether the request has a limit and it is reached.
fn is_due_at<C>(request: &Request<C>, now: u64) -> bool
    ensures { result ≡ is_due now request.now }
{
    request.limit != 0 && u64::from(request.limit) <= now.saturating_sub(request.submitted)
}

/// The first request from this one on whose limit is reached, or 0.
pub fn due_from<C, R>(nodes: &Slab<Node<C>>, places: &[Place<R>], head: u32, now: u64) -> u32
    requires head { IsNext (In (node_at nodes.now places.now) 0) 0 head }
    requires links { (k : ℕ) (n : Node C) → node_at nodes.now places.now k ≡ Some n → IsNext (In (node_at nodes.now places.now) 0) k n.all.next }
    ensures { IsFirstDue (node_at nodes.now places.now) now result }
{
    let mut at = head;
    for _ in 0..places.len() {
        match node_of(nodes, places, at) {
            Some(node) => {
                if is_due_at(&node.request, now) {
                    return at;
                }
                at = node.all.next;
            }
            None => return 0,
        }
    }
    0
}

/// What the session finds at a place above its floor.
pub fn look_at<'a, C, R>(
    nodes: &Slab<Node<C>>,
    place: &'a Place<R>,
    session: Session,
) -> Found<'a, R>
    ensures { found_of result ≡ found_at nodes.now session place.now }
{
    match place {
        Place::Ended(_, owner, reply) => {
            if owner.number == session.number {
                Found::Ended(reply)
            } else {
                Found::InvalidReqId
            }
        }
        Place::Linked(key) => match nodes.get(*key) {
            Some(node) => {
                if node.request.session.number == session.number {
                    Found::Pending
                } else {
                    Found::InvalidReqId
                }
            }
            None => Found::InvalidReqId,
        },
    }
}
