// The operands of all open blocks in one list, as far as they are known.

ghost use Rattle.std.specs.Prelude.{◌≡◌, ◌≤◌, [], ◌∷◌, ◌++◌, true, false, length, reverse, OnOk, IfOk, IsTrue};
ghost use Rattle.wasm_values.specs.declared.number.ValType.{ValType};
ghost use Rattle.wasm_typing.specs.Typing.{Types, types_of, Turns, Takes};
ghost use Rattle.body_check.specs.words.Operands.{Exactly, IsOfType, IsCommon, Are, lower, Popped, TookAny, Pushed, Advances, IsStuck, Goes, Took, Gave};

use crate::open::Floor;
use std::alloc::Global;
use std::marker::Model;
use wasm_values::{OutOfMemory, ValType};

/// Types of the operands of all open blocks, the topmost last; the innermost block's begin at `base`. `None` is an operand of any
/// type, and in dead code any operands may lie below the innermost block's own.
#[derive(Drop)]
pub struct Operands {
    items: Vec<Option<ValType>>,
    base: usize,
    dead: bool,
}

impl Model for Operands {
    ghost use Rattle.std.specs.Prelude.{◌≤◌, length, take, drop};
    ghost use Rattle.body_check.specs.words.Known.{Known};

    ghost Value = { Known };

    ghost view = { λ s. record { below = take s.base s.items.items; here = drop s.base s.items.items; dead = s.dead } };

    ghost invariant = { λ s. s.base ≤ length s.items.items };
}

/// Whether an operand may have this type.
fn may_be(known: Option<ValType>, ty: ValType) -> bool
    ensures yes { result ≡ true → IsOfType known ty }
    ensures no { result ≡ false → IsOfType known ty → ⊥ }
{
    match (known, ty) {
        (None, _) | (Some(ValType::I32), ValType::I32) | (Some(ValType::I64), ValType::I64) => true,
        _ => false,
    }
}

/// What is known of an operand of which two things are known, unless they differ.
fn common(first: Option<ValType>, second: Option<ValType>) -> Option<Option<ValType>>
    ensures { IsCommon result first second }
{
    match (first, second) {
        (None, known) | (known, None) => Some(known),
        (Some(ValType::I32), Some(ValType::I32)) | (Some(ValType::I64), Some(ValType::I64)) => Some(
            first,
        ),
        _ => None,
    }
}

impl Operands {
    /// No operands.
    pub fn new(alloc: Global) -> Operands
        ensures { result ≡ record { below = []; here = []; dead = false } }
    {
        Operands {
            items: Vec::new(alloc),
            base: 0,
            dead: false,
        }
    }

    /// Back to no operands. The list keeps its room.
    pub fn restart(&mut self)
        ensures { self.new ≡ record { below = []; here = []; dead = false } }
    {
        self.items.clear();
        self.base = 0;
        self.dead = false;
    }

    /// A block begins with no operands of its own. What is answered is where those of the block around it began.
    pub fn begin(&mut self) -> Floor
        ensures now { self.new ≡ record { below = self.old.below ++ self.old.here; here = []; dead = false } }
        ensures floor { result ≡ record { base = length self.old.below; dead = self.old.dead } }
    {
        let floor = Floor {
            base: self.base,
            dead: self.dead,
        };
        self.base = self.items.len();
        self.dead = false;
        floor
    }

    /// A block that has no operands left ends: those of the block around it, which begin at this floor, are on top again.
    pub fn end(&mut self, floor: Floor)
        requires { self.old.here ≡ [] }
        ensures { floor.base ≤ length self.old.below → self.new ≡ lower floor self.old.below }
    {
        if floor.base > self.base {
            return;
        }
        self.base = floor.base;
        self.dead = floor.dead;
    }

    /// The other side of a block begins, with no operands of its own.
    pub fn turn_side(&mut self)
        requires { self.old.here ≡ [] }
        ensures { self.new ≡ record { below = self.old.below; here = []; dead = false } }
    {
        self.dead = false;
    }

    /// Puts an operand on top.
    pub fn push(&mut self, known: Option<ValType>) -> Result<(), OutOfMemory>
        ensures now { OnOk result (self.new ≡ record self.old { here = self.old.here ++ known ∷ [] }) }
        ensures below { self.new.below ≡ self.old.below }
        ensures pushed { OnOk result (Pushed known (Are self.old) (Are self.new)) }
    {
        match self.items.push(known) {
            Ok(()) => {}
            Err(_) => return Err(OutOfMemory),
        }
        Ok(())
    }

    /// Takes the innermost block's topmost operand off, if it has one.
    fn pop(&mut self) -> Option<Option<ValType>>
        ensures { Popped result self.old self.new }
    {
        if self.items.len() > self.base {
            self.items.pop()
        } else {
            None
        }
    }

    /// Whether code is dead.
    fn is_dead(&self) -> bool
        ensures { result ≡ self.now.dead }
    {
        self.dead
    }

    /// Takes an operand of this type, or tells that there is none.
    pub fn take(&mut self, ty: ValType) -> bool
        ensures below { self.new.below ≡ self.old.below }
        ensures took { Took result (Are self.old) (Are self.new) (ty ∷ []) }
    {
        match self.pop() {
            Some(known) => may_be(known, ty),
            None => self.is_dead(),
        }
    }

    /// Takes an operand of any type and tells what is known of its type, or tells that there is none.
    fn take_any(&mut self) -> Option<Option<ValType>>
        ensures below { self.new.below ≡ self.old.below }
        ensures took { TookAny result (Are self.old) (Are self.new) }
    {
        match self.pop() {
            Some(known) => Some(known),
            None => { if self.is_dead() { Some(None) } else { None } }
        }
    }

    /// Takes operands of these types, the last of them on top, or tells that they are not there.
    pub fn take_all(&mut self, types: &[ValType]) -> bool
        ensures below { self.new.below ≡ self.old.below }
        ensures took { Took result (Are self.old) (Are self.new) (reverse types.now) }
    {
        let mut n = types.len();
        while n > 0 {
            n -= 1;
            if !self.take(types[n]) {
                return false;
            }
        }
        true
    }

    /// Puts operands of these types on top, the last of them topmost.
    pub fn give_all(&mut self, types: &[ValType]) -> Result<(), OutOfMemory>
        ensures below { self.new.below ≡ self.old.below }
        ensures gave { OnOk result (Gave (Are self.old) (Are self.new) (reverse types.now)) }
    {
        for ty in types {
            self.push(Some(*ty))?;
        }
        Ok(())
    }

    /// Operands of some types become operands of others, or it tells that they are not there.
    pub fn turn(&mut self, takes: &[ValType], gives: &[ValType]) -> Result<bool, OutOfMemory>
        ensures below { self.new.below ≡ self.old.below }
        ensures goes { IfOk result (λ went. Goes went (Are self.old) (Are self.new) (Turns (reverse takes.now) (reverse gives.now))) }
    {
        if !self.take_all(takes) {
            return Ok(false);
        }
        self.give_all(gives)?;
        Ok(true)
    }

    /// Takes one operand away, if there is one.
    pub fn drop_one(&mut self) -> bool
        ensures below { self.new.below ≡ self.old.below }
        ensures goes { Goes result (Are self.old) (Are self.new) (λ ins outs. (t : ValType) × Turns (t ∷ []) [] ins outs) }
    {
        match self.take_any() {
            Some(_) => true,
            None => false,
        }
    }

    /// Takes a choice and two operands of one type, and gives one of that type, if they are there.
    pub fn select(&mut self) -> Result<bool, OutOfMemory>
        ensures below { self.new.below ≡ self.old.below }
        ensures goes { IfOk result (λ went. Goes went (Are self.old) (Are self.new) (λ ins outs. (t : ValType) × Turns (ValType.I32 ∷ t ∷ t ∷ []) (t ∷ []) ins outs)) }
    {
        if !self.take(ValType::I32) {
            return Ok(false);
        }
        let first = match self.take_any() {
            Some(first) => first,
            None => return Ok(false),
        };
        let second = match self.take_any() {
            Some(second) => second,
            None => return Ok(false),
        };
        match common(first, second) {
            Some(known) => {
                self.push(known)?;
                Ok(true)
            }
            None => Ok(false),
        }
    }

    /// From here on code is dead: it may find any operands.
    pub fn die(&mut self)
        ensures { self.new ≡ record { below = self.old.below; here = []; dead = true } }
    {
        self.items.truncate(self.base);
        self.dead = true;
    }

    /// Takes operands of these types, after which code is dead.
    pub fn leave(&mut self, types: &[ValType]) -> bool
        ensures below { self.new.below ≡ self.old.below }
        ensures goes { Goes result (Are self.old) (Are self.new) (λ ins outs. Takes (reverse types.now) ins) }
    {
        if !self.take_all(types) {
            return false;
        }
        self.die();
        true
    }

    /// Whether there may be no operands.
    fn is_clear(&self) -> bool
        ensures clear { result ≡ true → self.now.here ≡ [] }
        ensures yes { result ≡ true → Are self.now [] }
        ensures no { result ≡ false → Are self.now [] → ⊥ }
    {
        self.items.as_slice().len() == self.base
    }

    /// Whether the operands are exactly these results, which are then taken. Else what is left of them means nothing.
    pub fn finish(&mut self, results: Option<ValType>) -> bool
        ensures below { self.new.below ≡ self.old.below }
        ensures taken { result ≡ true → self.new.here ≡ [] }
        ensures yes { result ≡ true → Are self.old (types_of results) }
        ensures no { result ≡ false → Are self.old (types_of results) → ⊥ }
    {
        match results {
            Some(ty) => self.take(ty) && self.is_clear(),
            None => self.is_clear(),
        }
    }

    /// Takes these results, if they are there, after which code is dead.
    pub fn leave_with(&mut self, results: Option<ValType>) -> bool
        ensures below { self.new.below ≡ self.old.below }
        ensures goes { Goes result (Are self.old) (Are self.new) (λ ins outs. Takes (types_of results) ins) }
    {
        match results {
            Some(ty) => self.leave(&[ty]),
            None => self.leave(&[]),
        }
    }

    /// Takes a choice and these results, if they are there, after which code is dead.
    pub fn choose_with(&mut self, results: Option<ValType>) -> bool
        ensures below { self.new.below ≡ self.old.below }
        ensures goes { Goes result (Are self.old) (Are self.new) (λ ins outs. Takes (ValType.I32 ∷ types_of results) ins) }
    {
        match results {
            Some(ty) => self.leave(&[ty, ValType::I32]),
            None => self.leave(&[ValType::I32]),
        }
    }

    /// Takes a choice over these results, if they are there, and keeps these.
    pub fn keep_with(&mut self, results: Option<ValType>) -> Result<bool, OutOfMemory>
        ensures below { self.new.below ≡ self.old.below }
        ensures goes { IfOk result (λ went. Goes went (Are self.old) (Are self.new) (Turns (ValType.I32 ∷ types_of results) (types_of results))) }
    {
        match results {
            Some(ty) => self.turn(&[ty, ValType::I32], &[ty]),
            None => self.turn(&[ValType::I32], &[]),
        }
    }

    /// Puts these results on top.
    pub fn give_with(&mut self, results: Option<ValType>) -> Result<(), OutOfMemory>
        ensures below { self.new.below ≡ self.old.below }
        ensures gave { OnOk result (Gave (Are self.old) (Are self.new) (types_of results)) }
    {
        match results {
            Some(ty) => self.give_all(&[ty]),
            None => self.give_all(&[]),
        }
    }
}
