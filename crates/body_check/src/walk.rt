// The walk over a body, forwards and once.

ghost use Rattle.std.specs.Prelude.{◌≡◌, [], ◌∷◌, ◌++◌, true, false, Some, None, List, IfOk, OnOk};
ghost use Rattle.wasm_syntax.specs.declared.flat.Flat.{Flat};
ghost use Rattle.wasm_syntax.specs.Parts.{Part, own};
ghost use Rattle.wasm_typing.specs.Typing.{Types, Context, types_of};
ghost use Rattle.wasm_typing.specs.faults.Open.{before_part};
ghost use Rattle.body_check.specs.words.Operands.{Are, Exactly};
ghost use Rattle.body_check.specs.words.Steps.{context_in, AreNames};
ghost use Rattle.body_check.specs.words.Walks.{IsAt, Walked, Begins, Leads, MayEnd, IsOneSimple};

use crate::instrs::step;
use crate::names::Names;
use crate::open::{Floor, Labels, Open, may_end, results_of};
use crate::operands::Operands;
use std::alloc::Global;
use wasm_syntax::{Head, Item, Seen};
use wasm_typing::ValidWord;
use wasm_values::{OutOfMemory, ValType};

/// Where a walk stands: the operands, and the open blocks.
#[derive(Drop)]
pub struct Walk {
    pub operands: Operands,
    pub opens: Vec<Open>,
}

/// Takes the choice of an `if`, if it is there; other blocks take none.
fn take_choice(operands: &mut Operands, head: Head) -> bool
    ensures below { operands.new.below ≡ operands.old.below }
    ensures yes { result ≡ true → Exactly (Are operands.new) (λ ts. Are operands.old (before_part (Some head) ts)) }
    ensures no { result ≡ false → (ts : Types) → Are operands.old (before_part (Some head) ts) → ⊥ }
{
    match head {
        Head::If(_) => operands.take(ValType::I32),
        Head::Block(_) | Head::Loop(_) => true,
    }
}

fn push_open(opens: &mut Vec<Open>, block: Open) -> Result<(), OutOfMemory>
    ensures { OnOk result (opens.new.items ≡ opens.old.items ++ block ∷ []) }
{
    match opens.push(block) {
        Ok(()) => Ok(()),
        Err(_) => Err(OutOfMemory),
    }
}

impl Walk {
    /// At the head of a body. This takes no memory.
    pub fn new(alloc: Global) -> Walk
        ensures { (c : Context) → IsAt c result (own [] ∷ []) }
    {
        Walk {
            operands: Operands::new(alloc),
            opens: Vec::new(alloc),
        }
    }

    /// Goes back to the head of a body. Both lists keep their room.
    pub fn restart(&mut self)
        ensures { (c : Context) → IsAt c self.new (own [] ∷ []) }
    {
        self.operands.restart();
        self.opens.clear();
    }

    /// Opens a block, or tells that its choice isn't there.
    #[inline(always)]
    fn begin(&mut self, head: Head) -> Result<bool, OutOfMemory>
        ensures { IfOk result (λ began. (c : Context) (ps : List Part) → IsAt c self.old ps → Begins began c self.new ps head) }
    {
        if !take_choice(&mut self.operands, head) {
            return Ok(false);
        }
        let floor = self.operands.begin();
        push_open(
            &mut self.opens,
            Open {
                head,
                turned: false,
                dead: floor.dead,
                base: floor.base,
            },
        )?;
        Ok(true)
    }

    /// Passes an `else`, or tells that the operands aren't the results.
    fn turn(&mut self, results: Option<ValType>) -> Result<bool, OutOfMemory>
        ensures { IfOk result (λ led. (c : Context) (ps : List Part) → types_of results ≡ c.results → IsAt c self.old ps → Leads led c self.new ps Flat.Else) }
    {
        match self.opens.pop() {
            Some(open) => {
                if !self.operands.finish(results_of(open.head)) {
                    return Ok(false);
                }
                self.operands.turn_side();
                push_open(
                    &mut self.opens,
                    Open {
                        head: open.head,
                        turned: true,
                        dead: open.dead,
                        base: open.base,
                    },
                )?;
                Ok(true)
            }
            None => {
                if !self.operands.finish(results) {
                    return Ok(false);
                }
                self.operands.turn_side();
                Ok(true)
            }
        }
    }

    /// Closes the innermost block, or tells that the operands aren't its results.
    fn end(&mut self) -> Result<bool, OutOfMemory>
        ensures { IfOk result (λ led. (c : Context) (ps : List Part) → IsAt c self.old ps → Leads led c self.new ps Flat.End) }
    {
        match self.opens.pop() {
            Some(open) => {
                if !may_end(open.head, open.turned) {
                    return Ok(false);
                }
                if !self.operands.finish(results_of(open.head)) {
                    return Ok(false);
                }
                self.operands.end(Floor {
                    base: open.base,
                    dead: open.dead,
                });
                self.operands.give_with(results_of(open.head))?;
                Ok(true)
            }
            None => Ok(true),
        }
    }

    /// Goes on behind an item, or tells what is wrong with it.
    pub fn advance(
        &mut self,
        names: &Names<'_>,
        item: &Item,
    ) -> Result<Option<ValidWord>, OutOfMemory>
        requires names { AreNames names.now }
        requires simple { IsOneSimple item.now }
        ensures { IfOk result (λ fault. (ps : List Part) → IsAt (context_in names.now) self.old ps → Walked fault (context_in names.now) self.new ps item.now) }
    {
        let led = match item.seen() {
            Seen::One(instr) => {
                let labels = Labels {
                    opens: self.opens.as_slice(),
                    results: names.results,
                };
                return step(&mut self.operands, names, &labels, instr);
            }
            Seen::Block(ty) => self.begin(Head::Block(ty))?,
            Seen::Loop(ty) => self.begin(Head::Loop(ty))?,
            Seen::If(ty) => self.begin(Head::If(ty))?,
            Seen::Else => self.turn(names.results)?,
            Seen::End => self.end()?,
        };
        if led {
            Ok(None)
        } else {
            Ok(Some(ValidWord::Stack))
        }
    }
}
