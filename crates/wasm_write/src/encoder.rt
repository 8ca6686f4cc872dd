ghost use Rattle.std.specs.Prelude.{◌≡◌, ◌++◌, IfOk, OnOk, Ok, MatchResult};
ghost use Rattle.wasm_syntax.specs.declared.module.Marks.{Marks};
ghost use Rattle.binary_grammar.specs.declared.fault.DecodeFault.{DecodeFault};
ghost use Rattle.binary_grammar.specs.Bounds.{the_bounds};
ghost use Rattle.binary_grammar.specs.ModuleGrammar.{Spells};
ghost use Rattle.binary_grammar.specs.words.SectionReading.{module_at};
ghost use Rattle.wasm_write.specs.Writable.{Writable};
ghost use Rattle.wasm_write.specs.Encoding.{first_sections, last_sections, encoded};

use crate::fault::EncodeFault;
use crate::number::write_bytes;
use crate::sections::{write_customs, write_funcs, write_section_of, write_start, write_tables};
use std::alloc::Global;
use wasm_binary::{DecodeFault, Decoded, decode};
use wasm_syntax::Module;
use wasm_values::{Bytes, OutOfMemory};

const HEADER: [u8; 8] = [0x00, 0x61, 0x73, 0x6d, 0x01, 0x00, 0x00, 0x00];

#[tactic(auto, unfolding(crate::specs::Encoding::first_sections))]
fn write_first(alloc: Global, out: &mut Bytes, module: &Module) -> Result<(), OutOfMemory>
    ensures { OnOk result (out.new ≡ out.old ++ first_sections «module».now) }
{
    let customs = module.customs.as_slice();
    write_customs(alloc, out, 0, customs)?;
    write_section_of(alloc, out, 1, module.types.as_slice())?;
    write_customs(alloc, out, 1, customs)?;
    write_section_of(alloc, out, 2, module.imports.as_slice())?;
    write_customs(alloc, out, 2, customs)?;
    write_funcs(alloc, out, module.funcs.as_slice())?;
    write_customs(alloc, out, 3, customs)?;
    write_tables(alloc, out, module.tables.as_slice())?;
    write_customs(alloc, out, 4, customs)?;
    write_section_of(alloc, out, 5, module.memories.as_slice())?;
    write_customs(alloc, out, 5, customs)?;
    write_section_of(alloc, out, 6, module.globals.as_slice())?;
    write_customs(alloc, out, 6, customs)
}

#[tactic(auto, unfolding(crate::specs::Encoding::last_sections))]
fn write_last(alloc: Global, out: &mut Bytes, module: &Module) -> Result<(), OutOfMemory>
    ensures { OnOk result (out.new ≡ out.old ++ last_sections «module».now) }
{
    let customs = module.customs.as_slice();
    write_section_of(alloc, out, 7, module.exports.as_slice())?;
    write_customs(alloc, out, 7, customs)?;
    write_start(alloc, out, module.start)?;
    write_customs(alloc, out, 8, customs)?;
    write_section_of(alloc, out, 9, module.elems.as_slice())?;
    write_customs(alloc, out, 9, customs)?;
    write_section_of(alloc, out, 10, module.funcs.as_slice())?;
    write_customs(alloc, out, 10, customs)?;
    write_section_of(alloc, out, 11, module.segments.as_slice())?;
    write_customs(alloc, out, 11, customs)
}

#[tactic(auto, unfolding(crate::specs::Encoding::encoded))]
fn write_module(alloc: Global, module: &Module) -> Result<Bytes, OutOfMemory>
    ensures { IfOk result (λ bytes. bytes ≡ encoded «module».now) }
{
    let mut out = Bytes::new(alloc);
    write_bytes(&mut out, &HEADER)?;
    write_first(alloc, &mut out, module)?;
    write_last(alloc, &mut out, module)?;
    Ok(out)
}

/// The one shortest text of a module.
///
/// Takes time and memory in proportion to the text. A module that is not writable has a text too, of which nothing more is
/// promised.
pub fn encode(alloc: Global, module: &Module) -> Result<Bytes, EncodeFault>
    ensures text { IfOk result (λ bytes. bytes ≡ encoded «module».now) }
    // The text of a writable module spells it.
    ensures spelled { Writable «module».now → IfOk result (λ bytes. (k : Marks) × Spells bytes «module».now k) }
    // So that it is what the text is read as.
    ensures read { Writable «module».now → IfOk result (λ bytes. (k : Marks) × (module_at the_bounds bytes ≡ Ok (record { «module» = «module».now; marks = k }))) }
{
    Ok(write_module(alloc, module)?)
}

/// A module's text, read again: the module, or want of memory.
pub fn decoded_again(alloc: Global, module: &Module) -> Result<Decoded, DecodeFault>
    ensures same { Writable «module».now → MatchResult result (λ again. again.«module» ≡ «module».now) (λ fault. fault ≡ DecodeFault.OutOfMemory) }
    // Its marks are those of the text.
    ensures marks { IfOk result (λ again. Spells (encoded «module».now) again.«module» again.marks) }
{
    match encode(alloc, module) {
        Ok(text) => decode(alloc, text.as_slice()),
        Err(EncodeFault::OutOfMemory) => Err(DecodeFault::OutOfMemory),
    }
}
