// The pool of shared terms, seen as the list of its nodes.
ghost use Rattle.std.specs.Prelude.{◌≡◌, ◌↔◌, [], length, take, slice_get};
ghost use Rattle.std.specs.Prelude.{IsTrue, IsSome, IfSome, IfOk, OnErr};
ghost use Rattle.std.specs.Option.{option_copied};
ghost use Rattle.sq_pool.specs.Nodes.{IsOver, IsPool, IsLive, Puts};
ghost use Rattle.sq_pool.specs.Trees.{node_tree, trees, tree_of, different_count};
ghost use Rattle.sq_pool.specs.Trees.{HasOneIdPerTree, KeepsIds, KeepsBelow};

use crate::{Node, TermId};
use indexmap::IndexSet;
use sq_base::NoMemory;
use std::alloc::Global;
use std::marker::Model;

/// How long a pool was at some time. What was put since then can be released.
#[derive(Clone, Copy, Debug)]
pub struct Mark {
    len: usize,
}

impl Model for Mark {
    ghost use Rattle.std.specs.Prelude.{ℕ};

    ghost Value = { ℕ };

    ghost view = { λ m. m.len };

    ghost inverse = { λ n. record { len = n } };
}

/// Terms, each of which is there once. An id is live until a mark older than it is released.
#[derive(Drop)]
pub struct Pool {
    nodes: IndexSet<Node>,
}

impl Model for Pool {
    ghost use Rattle.std.specs.Prelude.{List};
    ghost use Rattle.std.specs.Coded.{codes};
    ghost use Rattle.sq_term.specs.contracts.term.Ts as e;
    ghost use Rattle.sq_pool.specs.declared.node.Node.{Node};

    ghost Value = { List Node };

    ghost coded = { Prim.hlevel (codes, e.the_row.coded) };

    ghost use Rattle.sq_pool.specs.Nodes.{IsPool};

    ghost view = { λ p. p.nodes.keys };

    ghost invariant = { λ p. IsPool p.nodes.keys };
}

impl Pool {
    /// A pool without terms. It takes no memory.
    pub fn new(alloc: Global) -> Pool
        ensures { result ≡ [] }
    {
        Pool {
            nodes: IndexSet::new(alloc),
        }
    }

    /// How many terms there are.
    pub fn len(&self) -> usize
        ensures nodes { result ≡ length self.now }
        ensures trees { result ≡ different_count (trees self.now) }
        ensures one_id { HasOneIdPerTree self.now }
        ensures pool { IsPool self.now }
    {
        self.nodes.len()
    }

    /// Whether there are no terms.
    pub fn is_empty(&self) -> bool
        ensures { IsTrue result ↔ (length self.now ≡ 0) }
    {
        self.nodes.is_empty()
    }

    /// The node of an id, where the id is live.
    pub fn get(&self, id: TermId) -> Option<&Node>
        ensures node { option_copied result ≡ slice_get self.now id.at }
        ensures live { IsSome result ↔ IsLive self.now id }
        ensures over { IfSome result (λ x. IsOver id.at x.now) }
        ensures tree { IfSome result
            (λ x. tree_of self.now id ≡ node_tree (tree_of self.now) x.now) }
    {
        self.nodes.get_index(id.at)
    }

    /// What `release` needs to come back to the pool as it is now.
    pub fn mark(&self) -> Mark
        ensures { result ≡ length self.now }
    {
        Mark {
            len: self.nodes.len(),
        }
    }

    /// Drops what was put since the mark.
    pub fn release(&mut self, mark: Mark)
        ensures nodes { self.new ≡ take mark self.old }
        ensures ids { KeepsBelow mark self.old self.new }
    {
        self.nodes.truncate(mark.len);
    }

    /// The id of the equal node that is there, or else of this one, which is put at the end.
    ///
    /// The ids that the node holds are to be live.
    pub fn put(&mut self, node: Node) -> Result<TermId, NoMemory>
        requires { IsOver (length self.old) node }
        ensures ok { IfOk result (λ id. Puts self.old node id self.new) }
        ensures live { IfOk result (λ id. IsLive self.new id) }
        ensures tree { IfOk result (λ id. tree_of self.new id ≡ node_tree (tree_of self.old) node) }
        ensures ids { KeepsIds self.old self.new }
        ensures err { OnErr result (self.new ≡ self.old) }
    {
        put_in(&mut self.nodes, node)
    }
}

fn put_in(nodes: &mut IndexSet<Node>, node: Node) -> Result<TermId, NoMemory>
    requires pool { IsPool nodes.old.keys }
    requires over { IsOver (length nodes.old.keys) node }
    ensures ok { IfOk result (λ id. Puts nodes.old.keys node id nodes.new.keys) }
    ensures err { OnErr result (nodes.new.keys ≡ nodes.old.keys) }
    ensures pool { IsPool nodes.new.keys }
{
    let (at, _) = nodes.insert_full(node)?;
    Ok(TermId { at })
}
