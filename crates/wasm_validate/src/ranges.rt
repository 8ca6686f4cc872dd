// The numbers of a module, read so that their ranges are known.

ghost use Rattle.std.specs.Prelude.{◌≡◌, ℕ, ◌<◌, ◌^◌, List, Some, All, IfSome, IsTrue};
ghost use Rattle.wasm_values.specs.declared.number.ValType.{ValType};
ghost use Rattle.wasm_syntax.specs.declared.module.GlobalType.{GlobalType};
ghost use Rattle.wasm_syntax.specs.declared.module.Import.{Import};
ghost use Rattle.wasm_syntax.specs.declared.module.Func.{Func};
ghost use Rattle.wasm_syntax.specs.declared.module.Export.{Export};
ghost use Rattle.wasm_syntax.specs.declared.module.Custom.{Custom};
ghost use Rattle.wasm_syntax.specs.declared.module.Global.{Global};
ghost use Rattle.wasm_syntax.specs.declared.module.Elem.{Elem};
ghost use Rattle.wasm_syntax.specs.declared.module.Segment.{Segment};
ghost use Rattle.wasm_syntax.specs.Items.{instr_seen};
ghost use Rattle.wasm_syntax.specs.Trees.{instruction_of, sequence_of};
ghost use Rattle.wasm_typing.specs.Valid.{const_type, IsWord, ValInRange, InstructionInRange, SequenceInRange, LimitsInRange, BytesInRange, ImportInRange, ExportInRange, InRange, GlobalValid, ElemValid, SegmentValid, PartsValid};
ghost use Rattle.body_check.specs.words.Walks.{IsOneSimple, ItemInRange};

use wasm_syntax::{
    Code, Custom, Elem, Export, ExportKind, Func, Import, ImportKind, Instr, Item, Limits, Module,
    Seen, Segment, Simple,
};
use wasm_values::{Bytes, List, Text, Val};

fn are_bytes(bytes: &[u8])
    ensures { BytesInRange bytes.now }
{
    let _len = bytes.len();
}

fn are_words(words: &[u32])
    ensures { All IsWord words.now }
{
    let _len = words.len();
}

fn read_text(text: &Text)
    ensures { BytesInRange text.now }
{
    are_bytes(text.as_str().as_bytes());
}

fn read_bytes(bytes: &Bytes)
    ensures { BytesInRange bytes.now }
{
    are_bytes(bytes.as_slice());
}

fn read_words(words: &List<u32>)
    ensures { All IsWord words.now }
{
    are_words(words.as_slice());
}

fn read_limits(limits: &Limits)
    ensures { LimitsInRange limits.now }
{
    let _min = limits.min;
    if let Some(max) = limits.max {
        let _max = max;
    }
}

fn read_value(value: Val)
    ensures { ValInRange value }
{
    match value {
        Val::I32(n) => {
            let _n = n;
        }
        Val::I64(n) => {
            let _n = n;
        }
    }
}

fn read_import(kind: &ImportKind)
    ensures { ImportInRange kind.now }
{
    match kind {
        ImportKind::Func(ty) => {
            let _ty = *ty;
        }
        ImportKind::Table(limits) | ImportKind::Memory(limits) => read_limits(limits),
        ImportKind::Global(_) => {}
    }
}

fn read_export(kind: ExportKind)
    ensures { ExportInRange kind }
{
    match kind {
        ExportKind::Func(n)
        | ExportKind::Table(n)
        | ExportKind::Memory(n)
        | ExportKind::Global(n) => {
            let _n = n;
        }
    }
}

fn read_const(instrs: &[Instr])
    ensures { (globals : List GlobalType) (t : ValType) → const_type globals instrs.now ≡ Some t → SequenceInRange (sequence_of instrs.now) }
{
    match instrs {
        [Instr::Const(value)] => read_value(*value),
        [Instr::GlobalGet(x)] => {
            let _x = *x;
        }
        _ => {}
    }
}

fn read_instr(instr: Simple<'_>)
    ensures { InstructionInRange (instruction_of (instr_seen instr.entry)) }
{
    match instr {
        Simple::Const(value) => read_value(value),
        Simple::LocalGet(x) | Simple::LocalSet(x) | Simple::LocalTee(x) => {
            let _x = x;
        }
        Simple::GlobalGet(x) | Simple::GlobalSet(x) => {
            let _x = x;
        }
        Simple::Load(_, align, offset) | Simple::Store(_, align, offset) => {
            let _numbers = (align, offset);
        }
        Simple::Br(l) | Simple::BrIf(l) => {
            let _l = l;
        }
        Simple::BrTable(ls, l) => {
            are_words(ls);
            let _l = l;
        }
        Simple::Call(f) => {
            let _f = f;
        }
        Simple::CallIndirect(t) => {
            let _t = t;
        }
        _ => {}
    }
}

fn read_item(item: &Item)
    requires { IsOneSimple item.now }
    ensures { ItemInRange item.now }
{
    if let Seen::One(instr) = item.seen() {
        read_instr(instr);
    }
}

fn read_body(body: &Code)
    ensures { SequenceInRange (sequence_of body.now) }
{
    let last = body.len() - 1;
    for n in 0..last {
        read_item(body.at(n));
    }
}

fn read_one_import(import: &Import)
    ensures { BytesInRange import.now.module × BytesInRange import.now.name × ImportInRange import.now.kind }
{
    read_text(&import.module);
    read_text(&import.name);
    read_import(&import.kind);
}

fn read_imports(module: &Module)
    ensures { All (λ (i : Import). BytesInRange i.module × BytesInRange i.name × ImportInRange i.kind) «module».now.imports }
{
    for import in module.imports.as_slice() {
        read_one_import(import);
    }
}

fn read_one_func(func: &Func)
    ensures { IsWord func.now.ty × SequenceInRange (sequence_of func.now.body) }
{
    let _ty = func.ty;
    read_body(&func.body);
}

fn read_funcs(module: &Module)
    ensures { All (λ (f : Func). IsWord f.ty × SequenceInRange (sequence_of f.body)) «module».now.funcs }
{
    for func in module.funcs.as_slice() {
        read_one_func(func);
    }
}

fn read_one_export(export: &Export)
    ensures { BytesInRange export.now.name × ExportInRange export.now.kind }
{
    read_text(&export.name);
    read_export(export.kind);
}

fn read_exports(module: &Module)
    ensures { All (λ (e : Export). BytesInRange e.name × ExportInRange e.kind) «module».now.exports }
{
    for export in module.exports.as_slice() {
        read_one_export(export);
    }
}

fn read_one_custom(custom: &Custom)
    ensures { (custom.now.after < 256) × BytesInRange custom.now.name × BytesInRange custom.now.bytes }
{
    let _after = custom.after;
    read_text(&custom.name);
    read_bytes(&custom.bytes);
}

fn read_customs(module: &Module)
    ensures { All (λ (s : Custom). (s.after < 256) × BytesInRange s.name × BytesInRange s.bytes) «module».now.customs }
{
    for custom in module.customs.as_slice() {
        read_one_custom(custom);
    }
}

fn read_one_elem(elem: &Elem)
    ensures { (globals : List GlobalType) (t : ValType) → const_type globals elem.now.offset ≡ Some t → IsWord elem.now.table × SequenceInRange (sequence_of elem.now.offset) × All IsWord elem.now.funcs }
{
    let _table = elem.table;
    read_const(elem.offset.as_slice());
    read_words(&elem.funcs);
}

fn read_elems(module: &Module)
    requires { All (ElemValid «module».now) «module».now.elems }
    ensures { All (λ (e : Elem). IsWord e.table × SequenceInRange (sequence_of e.offset) × All IsWord e.funcs) «module».now.elems }
{
    for elem in module.elems.as_slice() {
        read_one_elem(elem);
    }
}

fn read_one_segment(segment: &Segment)
    ensures { (globals : List GlobalType) (t : ValType) → const_type globals segment.now.offset ≡ Some t → IsWord segment.now.memory × SequenceInRange (sequence_of segment.now.offset) × BytesInRange segment.now.bytes }
{
    let _memory = segment.memory;
    read_const(segment.offset.as_slice());
    read_bytes(&segment.bytes);
}

fn read_segments(module: &Module)
    requires { All (SegmentValid «module».now) «module».now.segments }
    ensures { All (λ (s : Segment). IsWord s.memory × SequenceInRange (sequence_of s.offset) × BytesInRange s.bytes) «module».now.segments }
{
    for segment in module.segments.as_slice() {
        read_one_segment(segment);
    }
}

fn read_globals(module: &Module)
    requires { All (GlobalValid «module».now) «module».now.globals }
    ensures { All (λ (g : Global). SequenceInRange (sequence_of g.init)) «module».now.globals }
{
    for global in module.globals.as_slice() {
        read_const(global.init.as_slice());
    }
}

fn read_all_limits(limits: &[Limits])
    ensures { All LimitsInRange limits.now }
{
    for one in limits {
        read_limits(one);
    }
}

/// Reads all numbers of a module whose parts are valid.
pub(crate) fn read_numbers(module: &Module)
    requires { PartsValid «module».now }
    ensures { InRange «module».now }
{
    read_imports(module);
    read_funcs(module);
    read_all_limits(module.tables.as_slice());
    read_all_limits(module.memories.as_slice());
    read_globals(module);
    read_exports(module);
    if let Some(start) = module.start {
        let _start = start;
    }
    read_elems(module);
    read_segments(module);
    read_customs(module);
}
