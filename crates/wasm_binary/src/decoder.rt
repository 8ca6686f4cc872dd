ghost use Rattle.std.specs.Prelude.{◌≡◌, ◌≤◌, ◌-◌, ◌<◌, ℕ, List, [], length, IfOk, OnOk, IfErr, IsTrue, Ok, Err};
ghost use Rattle.wasm_syntax.specs.declared.module.Module.{Module};
ghost use Rattle.wasm_syntax.specs.declared.module.Marks.{Marks};
ghost use Rattle.binary_grammar.specs.declared.fault.DecodeFault.{DecodeFault};
ghost use Rattle.binary_grammar.specs.ModuleGrammar.{Spells, InLimits};
ghost use Rattle.binary_grammar.specs.Plans.{Fault, Refused};
ghost use Rattle.binary_grammar.specs.Bounds.{the_bounds};
ghost use Rattle.binary_grammar.specs.words.Reading.{Gives};
ghost use Rattle.wasm_binary.specs.words.Drafts.{finished};
ghost use Rattle.wasm_binary.specs.words.Kinds.{is_late};
ghost use Rattle.binary_grammar.specs.words.SectionReading.{after_of, with_section, no_sections, sections_at, funcs_of, places_of, finished_at, header, magic_at, header_at, module_at};

use crate::read::{malformed, place};
use crate::sections::read_section;
use binary_grammar::{Body, DecodeFault, DecodeWord, Decoded, Draft, Section};
use std::alloc::Global;
use std::mem;
use wasm_syntax::{Custom, Func, Marks, Module};
use wasm_values::{List, OutOfMemory};

const HEADER: [u8; 8] = [0x00, 0x61, 0x73, 0x6d, 0x01, 0x00, 0x00, 0x00];

fn no_module(alloc: Global) -> Module
    ensures { result ≡ no_sections.«module» }
{
    Module {
        types: List::new(alloc),
        imports: List::new(alloc),
        funcs: List::new(alloc),
        tables: List::new(alloc),
        memories: List::new(alloc),
        globals: List::new(alloc),
        exports: List::new(alloc),
        start: None,
        elems: List::new(alloc),
        segments: List::new(alloc),
        customs: List::new(alloc),
    }
}

fn no_marks(alloc: Global) -> Marks
    ensures { result ≡ no_sections.marks }
{
    Marks {
        len: 0,
        types: List::new(alloc),
        imports: List::new(alloc),
        funcs: List::new(alloc),
        tables: List::new(alloc),
        memories: List::new(alloc),
        globals: List::new(alloc),
        exports: List::new(alloc),
        start: 0,
        elems: List::new(alloc),
        segments: List::new(alloc),
        code: List::new(alloc),
    }
}

fn new_draft(alloc: Global) -> Draft
    ensures { result ≡ no_sections }
{
    Draft {
        module: no_module(alloc),
        marks: no_marks(alloc),
        declared: List::new(alloc),
        bodies: List::new(alloc),
        last: 0,
        after: 0,
    }
}

fn after_of(old: u8, id: u8, entries: usize) -> u8
    ensures { result ≡ after_of old id entries }
{
    if entries == 0 { old } else { id }
}

/// Goes behind a section with this id and so many entries.
fn pass(draft: &mut Draft, id: u8, entries: usize)
    ensures { draft.new ≡ record draft.old { last = id; after = after_of draft.old.after id entries } }
{
    draft.last = id;
    draft.after = after_of(draft.after, id, entries);
}

/// Adds a section that stands behind the memories.
fn add_late(draft: &mut Draft, section: Section)
    requires { IsTrue (is_late section) }
    ensures { draft.new ≡ with_section draft.old section }
{
    match section {
        Section::Globals(globals, places) => {
            pass(draft, 6, globals.len());
            draft.module.globals = globals;
            draft.marks.globals = places;
        }
        Section::Exports(exports, places) => {
            pass(draft, 7, exports.len());
            draft.module.exports = exports;
            draft.marks.exports = places;
        }
        Section::Start(index, place) => {
            pass(draft, 8, 1);
            draft.module.start = Some(index);
            draft.marks.start = place;
        }
        Section::Elems(elems, places) => {
            pass(draft, 9, elems.len());
            draft.module.elems = elems;
            draft.marks.elems = places;
        }
        Section::Bodies(bodies) => {
            pass(draft, 10, bodies.len());
            draft.bodies = bodies;
        }
        Section::Segments(segments, places) => {
            pass(draft, 11, segments.len());
            draft.module.segments = segments;
            draft.marks.segments = places;
        }
        _ => unreachable!(),
    }
}

fn add_section(draft: &mut Draft, section: Section) -> Result<(), OutOfMemory>
    ensures { OnOk result (draft.new ≡ with_section draft.old section) }
{
    match section {
        Section::Custom(name, bytes) => {
            let after = draft.after;
            draft.module.customs.push(Custom { after, name, bytes })?;
        }
        Section::Types(types, places) => {
            pass(draft, 1, types.len());
            draft.module.types = types;
            draft.marks.types = places;
        }
        Section::Imports(imports, places) => {
            pass(draft, 2, imports.len());
            draft.module.imports = imports;
            draft.marks.imports = places;
        }
        Section::Funcs(types, places) => {
            pass(draft, 3, types.len());
            draft.declared = types;
            draft.marks.funcs = places;
        }
        Section::Tables(tables, places) => {
            pass(draft, 4, tables.len());
            draft.module.tables = tables;
            draft.marks.tables = places;
        }
        Section::Memories(memories, places) => {
            pass(draft, 5, memories.len());
            draft.module.memories = memories;
            draft.marks.memories = places;
        }
        late => add_late(draft, late),
    }
    Ok(())
}

/// Reads sections up to the end of the bytes into a draft.
fn read_sections(
    alloc: Global,
    draft: &mut Draft,
    bytes: &[u8],
    end: usize,
) -> Result<(), DecodeFault>
    ensures { Gives (λ u. draft.new) result (sections_at the_bounds (length bytes.now) draft.old end bytes.now) }
{
    let mut rest = bytes;
    for _ in 0..bytes.len() {
        if rest.is_empty() {
            break;
        }
        let (section, after) = read_section(alloc, draft.last, draft.declared.len(), rest, end)?;
        add_section(draft, section)?;
        rest = after;
    }
    Ok(())
}

/// The functions of these types and bodies, and the places of their instructions.
fn join_funcs(
    alloc: Global,
    declared: &[u32],
    bodies: List<Body>,
) -> Result<(List<Func>, List<List<usize>>), OutOfMemory>
    requires { length declared.now ≡ length bodies }
    ensures funcs { IfOk result (λ x. x.0 ≡ funcs_of declared.now bodies) }
    ensures places { IfOk result (λ x. x.1 ≡ places_of bodies) }
{
    let mut funcs = List::new(alloc);
    let mut code = List::new(alloc);
    for body in bodies.into_vec() {
        let Body {
            locals,
            code: body,
            places,
        } = body;
        let ty = declared[funcs.len()];
        funcs.push(Func { ty, locals, body })?;
        code.push(places)?;
    }
    Ok((funcs, code))
}

/// Puts the functions of a draft's types and bodies into its module, and their places and the length of the bytes into its
/// marks.
#[tactic(auto, unfolding(binary_grammar::specs::words::SectionReading::finished_at))]
fn finish(alloc: Global, draft: &mut Draft, len: usize) -> Result<(), DecodeFault>
    ensures { Gives (λ u. finished draft.new) result (finished_at len draft.old) }
{
    if draft.bodies.len() != draft.declared.len() {
        return Err(malformed(len, DecodeWord::Count));
    }
    let bodies = mem::replace(&mut draft.bodies, List::new(alloc));
    let (funcs, code) = join_funcs(alloc, draft.declared.as_slice(), bodies)?;
    draft.module.funcs = funcs;
    draft.marks.len = len;
    draft.marks.code = code;
    Ok(())
}

/// The module of a finished draft, and its marks.
fn take_apart(draft: Draft) -> Decoded
    ensures { result ≡ finished draft }
{
    let Draft {
        module,
        marks,
        declared: _,
        bodies: _,
        last: _,
        after: _,
    } = draft;
    Decoded { module, marks }
}

#[tactic(auto, unfolding(binary_grammar::specs::words::SectionReading::magic_at, binary_grammar::specs::words::Reading::then_at, binary_grammar::specs::words::Reading::done_at))]
fn read_magic<'a>(magic: &[u8], bytes: &'a [u8], end: usize) -> Result<&'a [u8], DecodeFault>
    ensures { Gives (λ x. x.now) result (magic_at magic.now end bytes.now) }
{
    match magic {
        [] => Ok(bytes),
        [wanted, more @ ..] => match bytes {
            [] => Err(malformed(end, DecodeWord::End)),
            [byte, rest @ ..] => {
                if byte == wanted {
                    read_magic(more, rest, end)
                } else {
                    Err(malformed(place(bytes, end), DecodeWord::Magic))
                }
            }
        },
    }
}

#[tactic(auto, unfolding(binary_grammar::specs::words::SectionReading::header_at, binary_grammar::specs::words::Reading::then_at, binary_grammar::specs::words::Reading::done_at))]
fn read_header(bytes: &[u8], end: usize) -> Result<&[u8], DecodeFault>
    ensures { Gives (λ x. x.now) result (header_at end bytes.now) }
{
    if bytes.len() < 8 {
        return Err(malformed(end, DecodeWord::End));
    }
    read_magic(&HEADER, bytes, end)
}

/// Reads all of the bytes into a draft that has no sections yet, and finishes it.
#[tactic(auto, unfolding(binary_grammar::specs::words::SectionReading::module_at, binary_grammar::specs::words::Reading::then_at, binary_grammar::specs::words::Reading::done_at))]
fn read_draft(alloc: Global, draft: &mut Draft, bytes: &[u8]) -> Result<(), DecodeFault>
    requires { draft.old ≡ no_sections }
    ensures { Gives (λ u. finished draft.new) result (module_at the_bounds bytes.now) }
{
    let end = bytes.len();
    let rest = read_header(bytes, end)?;
    read_sections(alloc, draft, rest, end)?;
    finish(alloc, draft, end)
}

// One call owns the draft, and has one way out beside its answer: each such way drops all lists of a module and its marks.
fn read_module(alloc: Global, bytes: &[u8]) -> Result<Decoded, DecodeFault>
    ensures { Gives (λ d. d) result (module_at the_bounds bytes.now) }
{
    let mut draft = new_draft(alloc);
    read_draft(alloc, &mut draft, bytes)?;
    Ok(take_apart(draft))
}

/// The module that the bytes spell within the limits, and where its entries stand.
///
/// Takes time and memory in proportion to the bytes and the locals that they declare.
pub fn decode(alloc: Global, bytes: &[u8]) -> Result<Decoded, DecodeFault>
    // What is decoded is spelled so, within the limits.
    ensures found { IfOk result (λ d. Spells bytes.now d.module d.marks × InLimits the_bounds d.module) }
    // What is spelled so, within the limits, is decoded, unless memory runs out.
    ensures spelled { (m : Module) (k : Marks) → Spells bytes.now m k → InLimits the_bounds m → Gives (λ d. d) result (Ok (record { «module» = m; marks = k })) }
    // A refusal is the fault of the item that is wanted next behind the longest reading, or want of memory.
    ensures fault { IfErr result (Refused the_bounds bytes.now) }
    // Where the bytes have a fault, it is answered, unless memory runs out.
    ensures refused { (f : DecodeFault) → Fault the_bounds bytes.now f → Gives (λ d. d) result (Err f) }
    // The same as a function of the bytes.
    ensures exact { Gives (λ d. d) result (module_at the_bounds bytes.now) }
{
    read_module(alloc, bytes)
}
