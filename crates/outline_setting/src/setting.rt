//! A module with its notes and its exposure.

ghost use Rattle.std.specs.Prelude.{◌≡◌, ◌<◌, length, slice_get, map, Some, IfOk, IsSome, is_some};
ghost use Rattle.std.specs.Option.{option_map};
ghost use Rattle.body_check.specs.words.Answers.{IsScopeOf};
ghost use Rattle.wasm_typing.specs.Valid.{Valid, func_types_of, imported_globals_of, globals_of};
ghost use Rattle.escape_analysis.specs.Exposure.{exposure_of, imported_funcs, is_exposed, has_private_table};
ghost use Rattle.outline_rules.specs.Settings.{setting, global_type, stability_of, is_memory_private, least_pages, func_type, defined_func, notes_of, contract_of, invariant_of, lemma_named, private_globals};

use crate::noted::places_of;
use crate::privates::privates_of;
use body_check::{Scope, scope_of};
use escape_analysis::{Exposure, Stability};
use notes::{Assertion, Contract, FuncNotes, Lemma, Notes};
use std::alloc::Global;
use std::collections::HashMap;
use std::marker::Model;
use wasm_syntax::{Func, FuncType, GlobalType, Module};
use wasm_validate::ValidModule;
use wasm_values::{List, OutOfMemory, ValType};

/// A module with its notes. Beside them stand its exposure, what its entries may name, and where notes of functions stand.
#[derive(Drop)]
pub struct Setting<'a> {
    code: &'a ValidModule,
    notes: &'a Notes,
    exposure: &'a Exposure,
    scope: Scope,
    places: HashMap<u32, usize>,
    privates: List<(usize, ValType)>,
    none: FuncType,
}

impl<'a> Model for Setting<'a> {
    ghost use Rattle.std.specs.Prelude.{nat_eq};
    ghost use Rattle.std.specs.HashMap.{get};
    ghost use Rattle.outline_rules.specs.Settings.{Setting as WithNotes, setting};
    ghost use Rattle.outline_setting.specs.Coding.{setting_code};
    ghost use Rattle.outline_setting.specs.words.Kept.{IsKept};

    ghost Value = { WithNotes };

    ghost coded = { setting_code };

    ghost view = { λ s. setting s.code.now s.notes.now };

    ghost invariant = { λ s. IsKept s.code.now s.notes.now s.exposure.now s.scope (get nat_eq s.places) s.privates s.none };
}

/// What the entries of a module may name.
fn scope_within(alloc: Global, module: &Module) -> Result<Scope, OutOfMemory>
    requires { Valid «module».now }
    ensures { IfOk result (λ scope. IsScopeOf «module».now scope) }
{
    match scope_of(alloc, module) {
        Ok(scope) => Ok(scope),
        Err(_) => Err(OutOfMemory),
    }
}

/// The stability with a number.
fn stability_at(stabilities: &[Stability], k: u32) -> Option<Stability>
    ensures { result ≡ slice_get stabilities.now k }
{
    stabilities.get(k as usize).copied()
}

impl<'a> Setting<'a> {
    /// A module with its notes and its exposure.
    pub fn new(
        alloc: Global,
        code: &'a ValidModule,
        notes: &'a Notes,
        exposure: &'a Exposure,
    ) -> Result<Setting<'a>, OutOfMemory>
        requires { exposure.now ≡ exposure_of code.now }
        ensures { IfOk result (λ s. s ≡ setting code.now notes.now) }
    {
        let module = code.module();
        let scope = scope_within(alloc, module)?;
        let privates = privates_of(
            alloc,
            module,
            scope.globals.as_slice(),
            exposure.globals.as_slice(),
        )?;
        let places = places_of(alloc, notes.funcs.as_slice())?;
        Ok(Setting {
            code,
            notes,
            exposure,
            scope,
            places,
            privates,
            none: FuncType {
                params: List::new(alloc),
                results: List::new(alloc),
            },
        })
    }

    /// The module, lent.
    pub fn module(&self) -> &'a Module
        ensures same { result.now ≡ self.now.code }
        ensures valid { Valid self.now.code }
    {
        self.code.module()
    }

    /// The notes, lent.
    pub fn notes(&self) -> &'a Notes
        ensures { result.now ≡ self.now.notes }
    {
        self.notes
    }

    /// The types of all globals, imports first.
    pub fn globals(&self) -> &[GlobalType]
        ensures { result.now ≡ globals_of self.now.code }
    {
        self.scope.globals.as_slice()
    }

    /// How many globals the module imports.
    pub fn imported_globals(&self) -> usize
        ensures { result ≡ length (imported_globals_of self.now.code) }
    {
        self.scope.imported.len()
    }

    /// The type of a global's values.
    pub fn global_type(&self, k: u32) -> ValType
        ensures { result ≡ global_type self.now k }
    {
        match self.scope.globals.get(k as usize) {
            Some(global) => global.value,
            None => ValType::I32,
        }
    }

    /// The stability of a global, where there is one with this number.
    pub fn stability_of(&self, k: u32) -> Option<Stability>
        ensures { result ≡ stability_of self.now k }
    {
        stability_at(self.exposure.globals.as_slice(), k)
    }

    /// The private globals in index order, each with its type.
    pub fn private_globals(&self) -> &[(usize, ValType)]
        ensures { result.now ≡ private_globals self.now }
    {
        self.privates.as_slice()
    }

    /// Whether the memory is private.
    pub fn is_memory_private(&self) -> bool
        ensures { result ≡ is_memory_private self.now }
    {
        self.exposure.memory
    }

    /// Whether the table is private.
    pub fn has_private_table(&self) -> bool
        ensures { result ≡ has_private_table self.now.code }
    {
        self.exposure.table
    }

    /// The minimum of the memory, in pages.
    pub fn least_pages(&self) -> u32
        ensures { result ≡ least_pages self.now }
    {
        match self.code.module().memories.as_slice().first() {
            Some(memory) => memory.min,
            None => 0,
        }
    }

    /// How many functions there are, imported ones counted.
    pub fn func_count(&self) -> usize
        ensures { result ≡ length (func_types_of self.now.code) }
    {
        self.scope.funcs.len()
    }

    /// How many functions the module imports.
    pub fn imported_funcs(&self) -> usize
        ensures { result ≡ imported_funcs self.now.code }
    {
        self.scope.funcs.len() - self.code.module().funcs.len()
    }

    /// Whether others can call a function.
    pub fn is_exposed(&self, f: u32) -> bool
        requires { f < length (func_types_of self.now.code) }
        ensures { result ≡ is_exposed self.now.code f }
    {
        self.exposure.exposed.as_slice()[f as usize]
    }

    /// The type of a function; `[] -> []` where there is none.
    pub fn func_type(&self, f: u32) -> &FuncType
        ensures { result.now ≡ func_type self.now f }
    {
        match self.scope.funcs.get(f as usize) {
            Some(ty) => match self.code.module().types.as_slice().get(*ty as usize) {
                Some(ty) => ty,
                None => &self.none,
            },
            None => &self.none,
        }
    }

    /// The function that a number names, where the module defines it.
    pub fn defined_func(&self, f: u32) -> Option<&'a Func>
        ensures { option_map (λ func. func.now) result ≡ defined_func self.now f }
    {
        let imported = self.imported_funcs();
        if (f as usize) < imported {
            return None;
        }
        self.code
            .module()
            .funcs
            .as_slice()
            .get(f as usize - imported)
    }

    /// The notes of a function, where it has some: the first with its number.
    pub fn notes_of(&self, f: u32) -> Option<&'a FuncNotes>
        ensures { option_map (λ n. n.now) result ≡ notes_of self.now f }
    {
        match self.places.get(&f) {
            Some(place) => self.notes.funcs.as_slice().get(*place),
            None => None,
        }
    }

    /// The contract of a function, where it has one.
    pub fn contract_of(&self, f: u32) -> Option<&'a Contract>
        ensures { option_map (λ contract. contract.now) result ≡ contract_of self.now f }
    {
        match self.notes_of(f) {
            Some(notes) => notes.contract.as_ref(),
            None => None,
        }
    }

    /// The invariant.
    pub fn invariant_of(&self) -> &'a Assertion
        ensures { result.now ≡ invariant_of self.now }
    {
        &self.notes.invariant
    }

    /// The first lemma with a name.
    pub fn lemma_named(&self, name: &str) -> Option<&'a Lemma>
        ensures { option_map (λ lemma. lemma.now) result ≡ lemma_named self.now name.now }
    {
        self.notes
            .lemmas
            .as_slice()
            .iter()
            .find(|lemma| lemma.name.as_str() == name)
    }
}
