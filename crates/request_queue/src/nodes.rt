//! Pending requests as nodes in a slab, found by id through the list of places.
ghost use Rattle.std.specs.Prelude.{◌≡◌};
ghost use Rattle.std.specs.Option.{option_copied};
ghost use Rattle.request_queue.specs.Nodes.{key_at, last_node, node_at};

use crate::requests::Request;
use pad_words::Session;
use slab::Slab;

/// The ids of the pending requests before and after one in a chain. 0 where there is none.
#[derive(Clone, Copy, Debug, PartialEq, Eq)]
pub struct Link {
    pub prev: u32,
    pub next: u32,
}

/// A pending request with its links in the whole queue and among its session's requests.
#[derive(Drop)]
pub struct Node<C> {
    pub request: Request<C>,
    pub all: Link,
    pub own: Link,
}

impl<C> Node<C> {
    /// A request that comes behind the last ones of the two chains.
    pub fn behind(request: Request<C>, all_last: u32, own_last: u32) -> Node<C>
        ensures { result ≡ last_node request all_last own_last }
    {
        Node {
            request,
            all: Link {
                prev: all_last,
                next: 0,
            },
            own: Link {
                prev: own_last,
                next: 0,
            },
        }
    }
}

/// What stands at a request's place: the key of its node while it is pending, and then its id, session and reply.
#[derive(Drop)]
pub enum Place<R> {
    Linked(usize),
    Ended(u32, Session, R),
}

/// The key of a pending request's node.
pub fn key_of<R>(places: &[Place<R>], id: u32) -> Option<usize>
    ensures { result ≡ key_at places.now id }
{
    if id == 0 {
        return None;
    }
    match places.get(id as usize - 1) {
        Some(Place::Linked(key)) => Some(*key),
        _ => None,
    }
}

/// A pending request's node.
pub fn node_of<'a, C, R>(
    nodes: &'a Slab<Node<C>>,
    places: &[Place<R>],
    id: u32,
) -> Option<&'a Node<C>>
    ensures { option_copied result ≡ node_at nodes.now places.now id }
{
    match key_of(places, id) {
        Some(key) => nodes.get(key),
        None => None,
    }
}
