//! The links of pending requests. Chain 0 has them all in order of ids, and chains 1 to 16 have those of one session each.
ghost use Rattle.std.specs.Prelude.{◌≡◌, ◌≢◌, ℕ, ◌<◌, Some, length};
ghost use Rattle.slab.specs.Slab.{get};
ghost use Rattle.request_queue.specs.Nodes.{around, behind_last, node_at, slab_room, with_next, with_prev, BothLinked, In, NextSet, PrevSet, Relinked, Tied};
ghost use Rattle.request_queue.specs.declared.nodes.Node.{Node};

use crate::nodes::{Link, Node, Place, key_of};
use slab::Slab;

fn put_next<C>(node: &mut Node<C>, chain: usize, value: u32)
    ensures { node.new ≡ with_next chain value node.old }
{
    if chain == 0 {
        node.all.next = value;
        return;
    }
    node.own.next = value;
}

fn put_prev<C>(node: &mut Node<C>, chain: usize, value: u32)
    ensures { node.new ≡ with_prev chain value node.old }
{
    if chain == 0 {
        node.all.prev = value;
        return;
    }
    node.own.prev = value;
}

fn write_next<C>(nodes: &mut Slab<Node<C>>, key: usize, chain: usize, value: u32)
    ensures here { (n : Node C) → get nodes.old key ≡ Some n → get nodes.new key ≡ Some (with_next chain value n) }
    ensures others { (other : ℕ) → other ≢ key → get nodes.new other ≡ get nodes.old other }
    ensures room { slab_room nodes.new ≡ slab_room nodes.old }
{
    if let Some(node) = nodes.get_mut(key) {
        put_next(node, chain, value);
    }
}

fn write_prev<C>(nodes: &mut Slab<Node<C>>, key: usize, chain: usize, value: u32)
    ensures here { (n : Node C) → get nodes.old key ≡ Some n → get nodes.new key ≡ Some (with_prev chain value n) }
    ensures others { (other : ℕ) → other ≢ key → get nodes.new other ≡ get nodes.old other }
    ensures room { slab_room nodes.new ≡ slab_room nodes.old }
{
    if let Some(node) = nodes.get_mut(key) {
        put_prev(node, chain, value);
    }
}

/// The request after this one in the chain is that one. At 0 it is the chain's first.
pub fn set_next<C, R>(
    nodes: &mut Slab<Node<C>>,
    heads: &mut [u32],
    places: &[Place<R>],
    chain: usize,
    at: u32,
    value: u32,
)
    requires chain { chain < length heads.old }
    requires tied { Tied nodes.old places.now }
    requires inside { 0 < at → In (node_at nodes.old places.now) chain at }
    ensures set { NextSet (node_at nodes.old places.now) (node_at nodes.new places.now) heads.old heads.new chain at value }
    ensures tied { Tied nodes.new places.now }
    ensures heads { length heads.new ≡ length heads.old }
    ensures room { slab_room nodes.new ≡ slab_room nodes.old }
{
    if at == 0 {
        heads[chain] = value;
        return;
    }
    if let Some(key) = key_of(places, at) {
        write_next(nodes, key, chain, value);
    }
}

/// The request before this one in the chain is that one. At 0 it is the chain's last.
pub fn set_prev<C, R>(
    nodes: &mut Slab<Node<C>>,
    tails: &mut [u32],
    places: &[Place<R>],
    chain: usize,
    at: u32,
    value: u32,
)
    requires chain { chain < length tails.old }
    requires tied { Tied nodes.old places.now }
    requires inside { 0 < at → In (node_at nodes.old places.now) chain at }
    ensures set { PrevSet (node_at nodes.old places.now) (node_at nodes.new places.now) tails.old tails.new chain at value }
    ensures tied { Tied nodes.new places.now }
    ensures tails { length tails.new ≡ length tails.old }
    ensures room { slab_room nodes.new ≡ slab_room nodes.old }
{
    if at == 0 {
        tails[chain] = value;
        return;
    }
    if let Some(key) = key_of(places, at) {
        write_prev(nodes, key, chain, value);
    }
}

/// New links in a chain: what comes after `before` is `next`, and what comes before `behind` is `prev`.
#[derive(Clone, Copy, Debug, PartialEq, Eq)]
pub struct Relink {
    pub before: u32,
    pub behind: u32,
    pub next: u32,
    pub prev: u32,
}

impl Relink {
    /// This request comes behind the last one of a chain.
    pub fn behind(last: u32, id: u32) -> Relink
        ensures { result ≡ behind_last last id }
    {
        Relink {
            before: last,
            behind: 0,
            next: id,
            prev: id,
        }
    }

    /// The request with these links leaves its chain.
    pub fn without(link: &Link) -> Relink
        ensures { result ≡ around link.now }
    {
        Relink {
            before: link.prev,
            behind: link.next,
            next: link.next,
            prev: link.prev,
        }
    }
}

fn link_anew<C, R>(
    nodes: &mut Slab<Node<C>>,
    heads: &mut [u32],
    tails: &mut [u32],
    places: &[Place<R>],
    chain: usize,
    links: &Relink,
)
    requires heads { chain < length heads.old }
    requires tails { chain < length tails.old }
    requires tied { Tied nodes.old places.now }
    requires before { 0 < links.now.before → In (node_at nodes.old places.now) chain links.now.before }
    requires behind { 0 < links.now.behind → In (node_at nodes.old places.now) chain links.now.behind }
    ensures linked { Relinked (node_at nodes.old places.now) (node_at nodes.new places.now) heads.old heads.new tails.old tails.new chain links.now }
    ensures tied { Tied nodes.new places.now }
    ensures heads { length heads.new ≡ length heads.old }
    ensures tails { length tails.new ≡ length tails.old }
    ensures room { slab_room nodes.new ≡ slab_room nodes.old }
{
    set_next(nodes, heads, places, chain, links.before, links.next);
    set_prev(nodes, tails, places, chain, links.behind, links.prev);
}

/// Links the whole chain and a session's anew.
pub fn link_both<C, R>(
    nodes: &mut Slab<Node<C>>,
    heads: &mut [u32],
    tails: &mut [u32],
    places: &[Place<R>],
    chain: usize,
    all: &Relink,
    own: &Relink,
)
    requires chain { 0 < chain }
    requires heads { chain < length heads.old }
    requires tails { chain < length tails.old }
    requires tied { Tied nodes.old places.now }
    requires all_before { 0 < all.now.before → In (node_at nodes.old places.now) 0 all.now.before }
    requires all_behind { 0 < all.now.behind → In (node_at nodes.old places.now) 0 all.now.behind }
    requires own_before { 0 < own.now.before → In (node_at nodes.old places.now) chain own.now.before }
    requires own_behind { 0 < own.now.behind → In (node_at nodes.old places.now) chain own.now.behind }
    ensures linked { BothLinked (node_at nodes.old places.now) (node_at nodes.new places.now) heads.old heads.new tails.old tails.new chain all.now own.now }
    ensures tied { Tied nodes.new places.now }
    ensures heads { length heads.new ≡ length heads.old }
    ensures tails { length tails.new ≡ length tails.old }
    ensures room { slab_room nodes.new ≡ slab_room nodes.old }
{
    link_anew(nodes, heads, tails, places, 0, all);
    link_anew(nodes, heads, tails, places, chain, own);
}
