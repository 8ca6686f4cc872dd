ghost use Rattle.std.specs.Prelude.{◌≡◌, ◌++◌, IfOk, OnOk};
ghost use Rattle.wasm_write.specs.Encoding.{runs_of, run_text, body_text, func_text};

use crate::entry::{Entry, value_type_code, write_vector};
use crate::instrs::write_code;
use crate::number::{write_number, write_sized};
use std::alloc::Global;
use wasm_syntax::Func;
use wasm_values::{Bytes, List, OutOfMemory, ValType, is_same_type};

/// A run of equal locals.
type Run = (usize, ValType);

/// The longest runs of equal locals.
fn runs_of(alloc: Global, locals: &[ValType]) -> Result<List<Run>, OutOfMemory>
    ensures { IfOk result (λ runs. runs ≡ runs_of locals.now) }
{
    let mut runs = List::new(alloc);
    let [first, rest @ ..] = locals else {
        return Ok(runs);
    };
    let mut count: usize = 1;
    let mut ty = *first;
    for next in rest {
        if is_same_type(ty, *next) {
            count += 1;
        } else {
            runs.push((count, ty))?;
            count = 1;
            ty = *next;
        }
    }
    runs.push((count, ty))?;
    Ok(runs)
}

impl Entry for Run {
    ghost text = { run_text };

    fn write(&self, _alloc: Global, out: &mut Bytes) -> Result<(), OutOfMemory> {
        write_number(out, self.0 as u64)?;
        out.push(value_type_code(self.1))
    }
}

fn write_body(alloc: Global, out: &mut Bytes, func: &Func) -> Result<(), OutOfMemory>
    ensures { OnOk result (out.new ≡ out.old ++ body_text func.now) }
{
    let runs = runs_of(alloc, func.locals.as_slice())?;
    write_vector(alloc, out, runs.as_slice())?;
    write_code(alloc, out, &func.body)
}

impl Entry for Func {
    ghost text = { func_text };

    fn write(&self, alloc: Global, out: &mut Bytes) -> Result<(), OutOfMemory> {
        let mut body = Bytes::new(alloc);
        write_body(alloc, &mut body, self)?;
        write_sized(out, body.as_slice())
    }
}
