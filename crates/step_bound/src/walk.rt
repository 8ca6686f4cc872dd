// The walk over a body that sums its steps.

ghost use Rattle.std.specs.Prelude.{◌≡◌, Some, None, if◌then◌else◌, OnOk, IfOk};
ghost use Rattle.wasm_syntax.specs.Items.{instr_seen};
ghost use Rattle.wasm_syntax.specs.Trees.{sequence_of};
ghost use Rattle.step_bound.specs.words.Sums.{added, joined, called, sum_over, body_bound, sums_of, stepped, begun, turned, closed, walked, begin};

use crate::bound::MAX_STEPS;
use std::alloc::Global;
use wasm_syntax::{Code, Item, Seen, Simple};
use wasm_values::{List, OutOfMemory};

/// What is known of the functions that are called: how many are imported, and the bounds of the others.
#[derive(Clone, Copy)]
pub(crate) struct Calls<'a> {
    pub(crate) imported: usize,
    pub(crate) bounds: &'a [Option<u64>],
}

impl Calls<'_> {
    /// The bound of the function with a number, if it is known.
    fn bound(&self, x: u32) -> Option<u64>
        ensures { result ≡ called self.now.imported self.now.bounds.now x }
    {
        let x = x as usize;
        if x < self.imported {
            return None;
        }
        match self.bounds.get(x - self.imported) {
            Some(bound) => *bound,
            None => None,
        }
    }
}

/// A part that is open: the sum before it, and that of its first side, where the second is being read.
#[derive(Clone, Copy, Debug)]
pub(crate) struct Part {
    before: u64,
    first: u64,
}

/// The sum of the innermost part so far, and the parts around it, the innermost last.
#[derive(Drop)]
pub(crate) struct Walk {
    steps: u64,
    around: List<Part>,
}

/// A sum with more steps.
fn add(sum: u64, n: u64) -> u64
    ensures { result ≡ added sum n }
{
    sum.saturating_add(n).min(MAX_STEPS + 1)
}

/// A sum with a call of a function that has this bound.
fn add_call(sum: u64, n: u64) -> u64
    ensures { result ≡ added (added sum 1) n }
{
    add(add(sum, 1), n)
}

impl Walk {
    /// The walk before a body.
    fn new(alloc: Global) -> Walk
        ensures { sums_of result ≡ begin }
    {
        Walk {
            steps: 0,
            around: List::new(alloc),
        }
    }

    /// A part begins.
    fn begin(&mut self) -> Result<(), OutOfMemory>
        ensures { OnOk result (sums_of self.new ≡ begun (sums_of self.old)) }
    {
        self.around.push(Part {
            before: self.steps,
            first: 0,
        })?;
        self.steps = 0;
        Ok(())
    }

    /// The first side of the innermost part is over.
    fn turn(&mut self) -> Result<(), OutOfMemory>
        ensures { OnOk result (sums_of self.new ≡ turned (sums_of self.old).steps (sums_of self.old).around) }
    {
        if let Some(part) = self.around.pop() {
            self.around.push(Part {
                before: part.before,
                first: self.steps,
            })?;
            self.steps = 0;
        }
        Ok(())
    }

    /// The innermost part is over.
    fn close(&mut self)
        ensures { sums_of self.new ≡ closed (sums_of self.old).steps (sums_of self.old).around }
    {
        if let Some(part) = self.around.pop() {
            self.steps = add(add(part.before, 2), part.first.max(self.steps));
        }
    }

    /// Takes in an instruction that holds no others. `false` comes exactly where it has no bound.
    fn step(&mut self, calls: &Calls<'_>, instr: Simple<'_>) -> bool
        ensures steps { stepped (called calls.now.imported calls.now.bounds.now) (instr_seen instr.entry) self.old.steps ≡ (if result then Some self.new.steps else None) }
        ensures around { self.new.around ≡ self.old.around }
    {
        match instr {
            Simple::Call(x) => match calls.bound(x) {
                Some(n) => {
                    self.steps = add_call(self.steps, n);
                    true
                }
                None => false,
            },
            Simple::CallIndirect(_) => false,
            _ => {
                self.steps = add(self.steps, 1);
                true
            }
        }
    }

    /// Takes in an item. `false` comes exactly where there is no bound.
    fn take(&mut self, calls: &Calls<'_>, item: &Item) -> Result<bool, OutOfMemory>
        ensures { IfOk result (λ went. walked (called calls.now.imported calls.now.bounds.now) (sums_of self.old) item.now ≡ (if went then Some (sums_of self.new) else None)) }
    {
        match item.seen() {
            Seen::One(instr) => Ok(self.step(calls, instr)),
            Seen::Block(_) => {
                self.begin()?;
                Ok(true)
            }
            Seen::Loop(_) => Ok(false),
            Seen::If(_) => {
                self.begin()?;
                Ok(true)
            }
            Seen::Else => {
                self.turn()?;
                Ok(true)
            }
            Seen::End => {
                self.close();
                Ok(true)
            }
        }
    }
}

/// The sum of the steps of a body, if it has a bound.
fn body_sum(alloc: Global, calls: &Calls<'_>, body: &Code) -> Result<Option<u64>, OutOfMemory>
    ensures { IfOk result (λ sum. sum ≡ sum_over (called calls.now.imported calls.now.bounds.now) (sequence_of body.now) 0) }
{
    let mut walk = Walk::new(alloc);
    let last = body.len() - 1;
    for n in 0..last {
        if !walk.take(calls, body.at(n))? {
            return Ok(None);
        }
    }
    Ok(Some(walk.steps))
}

/// The bound of a function with this body, if it has one by what is known.
pub(crate) fn bound_of(
    alloc: Global,
    calls: &Calls<'_>,
    body: &Code,
) -> Result<Option<u64>, OutOfMemory>
    ensures { IfOk result (λ bound. bound ≡ body_bound (called calls.now.imported calls.now.bounds.now) body.now) }
{
    match body_sum(alloc, calls, body)? {
        Some(sum) => Ok(Some(add(sum, 1))),
        None => Ok(None),
    }
}
