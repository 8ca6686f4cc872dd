ghost use Rattle.std.specs.Prelude.{◌≡◌, ◌+◌, ◌-◌, ◌<◌, ◌≤◌, length};
ghost use Rattle.term_trees.specs.Terms.{node_count};
ghost use Rattle.term_logic.specs.Table.{tree_at};
ghost use Rattle.outline_rules.specs.States.{nodes_of, with_local, with_operand, with_global, with_pages};
ghost use Rattle.symbolic_state.specs.Growth.{Grown};

use crate::entries::{set_entry, set_last, set_some};
use crate::tracked::TrackedState;
use term_logic::{Place, TermId};

impl TrackedState {
    /// The nodes of the state with one term in the place of another.
    fn exchanged(&self, before: TermId, id: TermId) -> usize
        requires before { before < length self.now.terms }
        requires after { id < length self.now.terms }
        ensures small { result ≤ 1004096 }
        ensures nodes { result ≡ nodes_of self.now.state + node_count (tree_at self.now.terms id) - node_count (tree_at self.now.terms before) }
    {
        let all = self.nodes + self.table.nodes_of(id) as usize;
        all.saturating_sub(self.table.nodes_of(before) as usize)
    }

    /// The nodes of the state with a term more.
    fn grown(&self, id: TermId) -> usize
        requires { id < length self.now.terms }
        ensures nodes { result ≡ nodes_of self.now.state + node_count (tree_at self.now.terms id) }
        ensures small { result ≤ 1004096 }
    {
        self.nodes + self.table.nodes_of(id) as usize
    }

    /// The nodes of the state with another term for a local.
    #[tactic(auto, using(crate::proofs::Counting::slot_nodes))]
    pub(crate) fn nodes_with_local(&self, k: usize, id: TermId) -> usize
        requires { id < length self.now.terms }
        ensures nodes { result ≡ nodes_of (with_local k (tree_at self.now.terms id) self.now.state) }
        ensures small { result ≤ 1004096 }
    {
        match self.local_term(k) {
            Some(before) => self.exchanged(before, id),
            None => self.nodes,
        }
    }

    /// The nodes of the state with another term for an operand.
    #[tactic(auto, using(crate::proofs::Counting::slot_nodes))]
    pub(crate) fn nodes_with_operand(&self, k: u32, id: TermId) -> usize
        requires { id < length self.now.terms }
        ensures nodes { result ≡ nodes_of (with_operand k (tree_at self.now.terms id) self.now.state) }
        ensures small { result ≤ 1004096 }
    {
        match self.term_at(Place::Stack(k)) {
            Some(before) => self.exchanged(before, id),
            None => self.nodes,
        }
    }

    /// The nodes of the state with another term for a global.
    #[tactic(auto, using(crate::proofs::Counting::slot_nodes))]
    pub(crate) fn nodes_with_global(&self, k: usize, id: TermId) -> usize
        requires { id < length self.now.terms }
        ensures nodes { result ≡ nodes_of (with_global k (tree_at self.now.terms id) self.now.state) }
        ensures small { result ≤ 1004096 }
    {
        match self.global_entry(k) {
            Some(Some(before)) => self.exchanged(before, id),
            Some(None) => self.grown(id),
            None => self.nodes,
        }
    }

    /// The nodes of the state with another term for the page count.
    #[tactic(auto, using(crate::proofs::Counting::slot_nodes))]
    pub(crate) fn nodes_with_pages(&self, id: TermId) -> usize
        requires { id < length self.now.terms }
        ensures nodes { result ≡ nodes_of (with_pages (tree_at self.now.terms id) self.now.state) }
        ensures small { result ≤ 1004096 }
    {
        match self.pages() {
            Some(before) => self.exchanged(before, id),
            None => self.grown(id),
        }
    }

    /// Another term for a local, if there is one with that number. The state has so many nodes then.
    #[tactic(auto, using(crate::proofs::Lists::entry_trees))]
    pub(crate) fn replace_local(&mut self, k: usize, id: TermId, nodes: usize)
        requires within { id < length self.old.terms }
        requires nodes { nodes ≡ nodes_of (with_local k (tree_at self.old.terms id) self.old.state) }
        requires room { nodes ≤ 1000000 }
        ensures state { self.new ≡ record self.old { state = with_local k (tree_at self.old.terms id) self.old.state } }
        ensures kept { Grown self.old self.new }
    {
        set_entry(&mut self.state.locals, k, id);
        self.nodes = nodes;
    }

    /// Another term for an operand, if there is one at that place. The state has so many nodes then.
    #[tactic(auto, using(crate::proofs::Lists::last_trees))]
    pub(crate) fn replace_operand(&mut self, k: u32, id: TermId, nodes: usize)
        requires within { id < length self.old.terms }
        requires nodes { nodes ≡ nodes_of (with_operand k (tree_at self.old.terms id) self.old.state) }
        requires room { nodes ≤ 1000000 }
        ensures state { self.new ≡ record self.old { state = with_operand k (tree_at self.old.terms id) self.old.state } }
        ensures kept { Grown self.old self.new }
    {
        set_last(&mut self.state.stack, k as usize, id);
        self.nodes = nodes;
    }

    /// Another term for a global, if there is one with that number. The state has so many nodes then.
    #[tactic(auto, using(crate::proofs::Lists::global_sets))]
    pub(crate) fn replace_global(&mut self, k: usize, id: TermId, nodes: usize)
        requires within { id < length self.old.terms }
        requires nodes { nodes ≡ nodes_of (with_global k (tree_at self.old.terms id) self.old.state) }
        requires room { nodes ≤ 1000000 }
        ensures state { self.new ≡ record self.old { state = with_global k (tree_at self.old.terms id) self.old.state } }
        ensures kept { Grown self.old self.new }
    {
        set_some(&mut self.state.globals, k, id);
        self.nodes = nodes;
    }

    /// Another term for the page count. The state has so many nodes then.
    pub(crate) fn replace_pages(&mut self, id: TermId, nodes: usize)
        requires within { id < length self.old.terms }
        requires nodes { nodes ≡ nodes_of (with_pages (tree_at self.old.terms id) self.old.state) }
        requires room { nodes ≤ 1000000 }
        ensures state { self.new ≡ record self.old { state = with_pages (tree_at self.old.terms id) self.old.state } }
        ensures kept { Grown self.old self.new }
    {
        self.state.pages = Some(id);
        self.nodes = nodes;
    }
}
