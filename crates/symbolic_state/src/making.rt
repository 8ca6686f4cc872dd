ghost use Rattle.std.specs.Prelude.{◌≡◌, ◌==◌, ◌+◌, ◌<◌, ◌≤◌, length, IfOk, IsTrue, OnErr};
ghost use Rattle.term_trees.specs.declared.term.Term.TheVariants as term;
ghost use Rattle.term_logic.specs.Table.{tree_at, tree_here, cell_nodes, well_formed_cell, CellWithin};
ghost use Rattle.outline_rules.specs.States.{number, fresh};
ghost use Rattle.outline_rules.specs.Memory.{made_pushed};
ghost use Rattle.symbolic_state.specs.Growth.{Grown};
ghost use Rattle.symbolic_state.specs.Making.{made};
ghost use Rattle.symbolic_state.specs.Refused.{refusal_of};
ghost use Rattle.wasm_values.specs.Answers.{Gives};
ghost use Rattle.term_trees.specs.Terms.{node_count, is_low_width, is_sext_pair};
ghost use Rattle.wasm_values.specs.Operators.{num_operands};

use crate::limits::NODES;
use crate::refused::Refused;
use crate::tracked::TrackedState;
use term_logic::{TermCell, TermId};
use wasm_values::{LimitWord, NumOp, OutOfMemory, ValType};

impl TrackedState {
    /// The term of a cell.
    #[tactic(auto, using(crate::proofs::Growing::growing, crate::proofs::Grows::grown_over))]
    fn intern(&mut self, cell: TermCell) -> Result<TermId, OutOfMemory>
        requires within { CellWithin (length self.old.terms) cell }
        requires small { cell_nodes self.old.terms cell ≤ 4096 }
        requires well_formed { IsTrue (well_formed_cell cell) }
        ensures tree { IfOk result (λ id. tree_at self.new.terms id ≡ tree_here self.old.terms cell) }
        ensures within { IfOk result (λ id. id < length self.new.terms) }
        ensures state { IfOk result (λ _. self.new.state ≡ self.old.state) }
        ensures kept { IfOk result (λ _. Grown self.old self.new) }
    {
        self.table.intern(cell)
    }

    /// The term of a number.
    #[tactic(auto, using(term_logic::proofs::Trees::cell_trees))]
    pub fn number(&mut self, n: u64) -> Result<TermId, OutOfMemory>
        ensures tree { IfOk result (λ id. tree_at self.new.terms id ≡ number n) }
        ensures within { IfOk result (λ id. id < length self.new.terms) }
        ensures state { IfOk result (λ _. self.new.state ≡ self.old.state) }
        ensures kept { IfOk result (λ _. Grown self.old self.new) }
    {
        self.intern(TermCell::Num(n as i128))
    }

    /// The variable that the state doesn't have yet, and would get next.
    #[tactic(auto, using(term_logic::proofs::Trees::cell_trees))]
    pub fn fresh(&mut self) -> Result<TermId, OutOfMemory>
        ensures tree { IfOk result (λ id. tree_at self.new.terms id ≡ fresh self.old.state) }
        ensures within { IfOk result (λ id. id < length self.new.terms) }
        ensures state { IfOk result (λ _. self.new.state ≡ self.old.state) }
        ensures kept { IfOk result (λ _. Grown self.old self.new) }
    {
        let next = self.state.heap.vars;
        self.intern(TermCell::Var(next))
    }

    /// The term of a variable.
    #[tactic(auto, using(term_logic::proofs::Trees::cell_trees))]
    pub fn variable(&mut self, k: u32) -> Result<TermId, OutOfMemory>
        ensures tree { IfOk result (λ id. tree_at self.new.terms id ≡ term.Var k) }
        ensures within { IfOk result (λ id. id < length self.new.terms) }
        ensures state { IfOk result (λ _. self.new.state ≡ self.old.state) }
        ensures kept { IfOk result (λ _. Grown self.old self.new) }
    {
        self.intern(TermCell::Var(k))
    }

    /// The term of a whole number.
    #[tactic(auto, using(term_logic::proofs::Trees::cell_trees))]
    pub fn integer(&mut self, n: i128) -> Result<TermId, OutOfMemory>
        ensures tree { IfOk result (λ id. tree_at self.new.terms id ≡ term.Num n) }
        ensures within { IfOk result (λ id. id < length self.new.terms) }
        ensures state { IfOk result (λ _. self.new.state ≡ self.old.state) }
        ensures kept { IfOk result (λ _. Grown self.old self.new) }
    {
        self.intern(TermCell::Num(n))
    }

    /// How many nodes the tree of a cell over two terms has.
    fn pair_nodes(&self, a: TermId, b: TermId) -> usize
        requires first { a < length self.now.terms }
        requires second { b < length self.now.terms }
        ensures { result ≡ 1 + node_count (tree_at self.now.terms a) + node_count (tree_at self.now.terms b) }
    {
        1 + self.table.nodes_of(a) as usize + self.table.nodes_of(b) as usize
    }

    /// How many nodes the tree of a cell over a term has.
    fn single_nodes(&self, a: TermId) -> usize
        requires { a < length self.now.terms }
        ensures { result ≡ 1 + node_count (tree_at self.now.terms a) }
    {
        1 + self.table.nodes_of(a) as usize
    }

    /// The term of a cell with so many nodes, within the limit.
    #[tactic(auto, using(crate::proofs::Made::made_cells))]
    fn made(&mut self, cell: TermCell, nodes: usize) -> Result<TermId, Refused>
        requires within { CellWithin (length self.old.terms) cell }
        requires well_formed { IsTrue (well_formed_cell cell) }
        requires nodes { nodes ≡ cell_nodes self.old.terms cell }
        ensures made { Gives refusal_of (tree_at self.new.terms) result (made (tree_here self.old.terms cell)) }
        ensures within { IfOk result (λ id. id < length self.new.terms) }
        ensures state { IfOk result (λ _. self.new.state ≡ self.old.state) }
        ensures kept { IfOk result (λ _. Grown self.old self.new) }
    {
        if nodes > NODES {
            return Err(Refused::Limit(LimitWord::Nodes));
        }
        Ok(self.intern(cell)?)
    }

    /// The sum of two terms, within the limit.
    #[tactic(auto, using(crate::proofs::Made::makings))]
    pub fn sum(&mut self, a: TermId, b: TermId) -> Result<TermId, Refused>
        requires first { a < length self.old.terms }
        requires second { b < length self.old.terms }
        ensures made { Gives refusal_of (tree_at self.new.terms) result (made (term.Add (tree_at self.old.terms a) (tree_at self.old.terms b))) }
        ensures within { IfOk result (λ id. id < length self.new.terms) }
        ensures state { IfOk result (λ _. self.new.state ≡ self.old.state) }
        ensures kept { IfOk result (λ _. Grown self.old self.new) }
    {
        let nodes = self.pair_nodes(a, b);
        self.made(TermCell::Add(a, b), nodes)
    }

    /// The difference of two terms, within the limit.
    #[tactic(auto, using(crate::proofs::Made::makings))]
    pub fn difference(&mut self, a: TermId, b: TermId) -> Result<TermId, Refused>
        requires first { a < length self.old.terms }
        requires second { b < length self.old.terms }
        ensures made { Gives refusal_of (tree_at self.new.terms) result (made (term.Sub (tree_at self.old.terms a) (tree_at self.old.terms b))) }
        ensures within { IfOk result (λ id. id < length self.new.terms) }
        ensures state { IfOk result (λ _. self.new.state ≡ self.old.state) }
        ensures kept { IfOk result (λ _. Grown self.old self.new) }
    {
        let nodes = self.pair_nodes(a, b);
        self.made(TermCell::Sub(a, b), nodes)
    }

    /// The product of two terms, within the limit.
    #[tactic(auto, using(crate::proofs::Made::makings))]
    pub fn product(&mut self, a: TermId, b: TermId) -> Result<TermId, Refused>
        requires first { a < length self.old.terms }
        requires second { b < length self.old.terms }
        ensures made { Gives refusal_of (tree_at self.new.terms) result (made (term.Mul (tree_at self.old.terms a) (tree_at self.old.terms b))) }
        ensures within { IfOk result (λ id. id < length self.new.terms) }
        ensures state { IfOk result (λ _. self.new.state ≡ self.old.state) }
        ensures kept { IfOk result (λ _. Grown self.old self.new) }
    {
        let nodes = self.pair_nodes(a, b);
        self.made(TermCell::Mul(a, b), nodes)
    }

    /// An operator of one operand, within the limit.
    #[tactic(auto, using(crate::proofs::Made::makings))]
    pub fn operation_of_one(&mut self, op: NumOp, a: TermId) -> Result<TermId, Refused>
        requires term { a < length self.old.terms }
        requires well_formed { IsTrue (num_operands op == 1) }
        ensures made { Gives refusal_of (tree_at self.new.terms) result (made (term.One op (tree_at self.old.terms a))) }
        ensures within { IfOk result (λ id. id < length self.new.terms) }
        ensures state { IfOk result (λ _. self.new.state ≡ self.old.state) }
        ensures kept { IfOk result (λ _. Grown self.old self.new) }
    {
        let nodes = self.single_nodes(a);
        self.made(TermCell::One(op, a), nodes)
    }

    /// An operator of two operands, within the limit.
    #[tactic(auto, using(crate::proofs::Made::makings))]
    pub fn operation_of_two(&mut self, op: NumOp, a: TermId, b: TermId) -> Result<TermId, Refused>
        requires first { a < length self.old.terms }
        requires second { b < length self.old.terms }
        requires well_formed { IsTrue (num_operands op == 2) }
        ensures made { Gives refusal_of (tree_at self.new.terms) result (made (term.Two op (tree_at self.old.terms a) (tree_at self.old.terms b))) }
        ensures within { IfOk result (λ id. id < length self.new.terms) }
        ensures state { IfOk result (λ _. self.new.state ≡ self.old.state) }
        ensures kept { IfOk result (λ _. Grown self.old self.new) }
    {
        let nodes = self.pair_nodes(a, b);
        self.made(TermCell::Two(op, a, b), nodes)
    }

    /// The lowest bits of a term, within the limit.
    #[tactic(auto, using(crate::proofs::Made::makings))]
    pub fn low(&mut self, bits: u32, a: TermId) -> Result<TermId, Refused>
        requires term { a < length self.old.terms }
        requires well_formed { IsTrue (is_low_width bits) }
        ensures made { Gives refusal_of (tree_at self.new.terms) result (made (term.Low bits (tree_at self.old.terms a))) }
        ensures within { IfOk result (λ id. id < length self.new.terms) }
        ensures state { IfOk result (λ _. self.new.state ≡ self.old.state) }
        ensures kept { IfOk result (λ _. Grown self.old self.new) }
    {
        let nodes = self.single_nodes(a);
        self.made(TermCell::Low(bits, a), nodes)
    }

    /// The sign extension of a term, within the limit.
    #[tactic(auto, using(crate::proofs::Made::makings))]
    pub fn sign_extended(&mut self, from: u32, to: u32, a: TermId) -> Result<TermId, Refused>
        requires term { a < length self.old.terms }
        requires well_formed { IsTrue (is_sext_pair from to) }
        ensures made { Gives refusal_of (tree_at self.new.terms) result (made (term.Sext from to (tree_at self.old.terms a))) }
        ensures within { IfOk result (λ id. id < length self.new.terms) }
        ensures state { IfOk result (λ _. self.new.state ≡ self.old.state) }
        ensures kept { IfOk result (λ _. Grown self.old self.new) }
    {
        let nodes = self.single_nodes(a);
        self.made(TermCell::Sext(from, to, a), nodes)
    }

    /// How many nodes the tree of a cell has.
    fn cell_nodes(&self, cell: &TermCell) -> usize
        requires { CellWithin (length self.now.terms) cell.now }
        ensures { result ≡ cell_nodes self.now.terms cell.now }
    {
        match cell {
            TermCell::Num(_) | TermCell::Var(_) | TermCell::Own(_) | TermCell::At(_) => 1,
            TermCell::One(_, a)
            | TermCell::Low(_, a)
            | TermCell::Sext(_, _, a)
            | TermCell::Sgn(_, a) => self.single_nodes(*a),
            TermCell::Add(a, b)
            | TermCell::Sub(a, b)
            | TermCell::Mul(a, b)
            | TermCell::Two(_, a, b) => self.pair_nodes(*a, *b),
        }
    }

    /// The term of a cell, within the limit.
    pub fn make(&mut self, cell: TermCell) -> Result<TermId, Refused>
        requires within { CellWithin (length self.old.terms) cell }
        requires well_formed { IsTrue (well_formed_cell cell) }
        ensures made { Gives refusal_of (tree_at self.new.terms) result (made (tree_here self.old.terms cell)) }
        ensures within { IfOk result (λ id. id < length self.new.terms) }
        ensures state { IfOk result (λ _. self.new.state ≡ self.old.state) }
        ensures kept { IfOk result (λ _. Grown self.old self.new) }
    {
        let nodes = self.cell_nodes(&cell);
        self.made(cell, nodes)
    }

    /// The term of a cell is pushed, within the limit.
    #[tactic(auto, using(crate::proofs::Made::pushes, crate::proofs::Grows::grown))]
    pub fn push_made(&mut self, ty: ValType, cell: TermCell) -> Result<(), Refused>
        requires within { CellWithin (length self.old.terms) cell }
        requires well_formed { IsTrue (well_formed_cell cell) }
        ensures done { Gives refusal_of (λ _. self.new.state) result (made_pushed ty (tree_here self.old.terms cell) self.old.state) }
        ensures kept { IfOk result (λ _. Grown self.old self.new) }
    {
        let id = self.make(cell)?;
        self.push(ty, id)
    }
}
