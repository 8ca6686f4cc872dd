ghost use Rattle.std.specs.Prelude.{◌≡◌, ◌↔◌, ◌≤◌, ◌⊎◌, ℕ, List, length, Ok, Err};
ghost use Rattle.wasm_syntax.specs.declared.module.Module.{Module};
ghost use Rattle.wasm_syntax.specs.declared.module.Marks.{Marks};
ghost use Rattle.binary_grammar.specs.declared.fault.DecodeFault.{DecodeFault};
ghost use Rattle.binary_grammar.specs.declared.fault.DecodeFault.TheVariants as DecodeFault;
ghost use Rattle.binary_grammar.specs.declared.section.Decoded.{Decoded};
ghost use Rattle.binary_grammar.specs.declared.section.Section.{Section};
ghost use Rattle.binary_grammar.specs.Bounds.{the_bounds};
ghost use Rattle.binary_grammar.specs.words.SectionReading.{module_at};
ghost use Rattle.binary_grammar.specs.ModuleGrammar.{Spells, InLimits, AreParts};
ghost use Rattle.binary_grammar.specs.Readings.{Item, Wanted, Given, Left, Plan, Want, Reads, ReadsTo, accept};
ghost use Rattle.binary_grammar.specs.Plans.{ReadsModule, Fault, module_plan, whole_file};

/// Bytes spell at most one module, with one set of marks.
pub fn one_module()
    ensures { (bytes : List ℕ) (m n : Module) (j k : Marks) → Spells bytes m j → Spells bytes n k → (m ≡ n) × (j ≡ k) }
{}

/// A complete reading exists exactly where the bytes spell a module within the limits, and gives that module: its sections
/// are always the parts of one, with its marks.
pub fn complete_readings()
    ensures spelled { (bytes : List ℕ) (r : Decoded) → ReadsModule the_bounds bytes r ↔ (Spells bytes r.module r.marks × InLimits the_bounds r.module) }
    ensures parts { (bytes : List ℕ) (sections : List Section) → ReadsTo (module_plan the_bounds (length bytes)) (whole_file bytes) sections → (r : Decoded) × AreParts sections r.module r.marks × (r.marks.len ≡ length bytes) }
{}

/// What the bytes are read as, item by item, is their complete reading, or their fault.
pub fn readings()
    ensures complete { (bytes : List ℕ) (r : Decoded) → (module_at the_bounds bytes ≡ Ok r) ↔ ReadsModule the_bounds bytes r }
    ensures fault { (bytes : List ℕ) (f : DecodeFault) → (module_at the_bounds bytes ≡ Err f) ↔ Fault the_bounds bytes f }
{}

/// Bytes that have no complete reading have one fault: a word or a limit, and never want of memory.
pub fn one_fault()
    ensures some { (bytes : List ℕ) → ((r : Decoded) × ReadsModule the_bounds bytes r) ⊎ ((f : DecodeFault) × Fault the_bounds bytes f) }
    ensures not_both { (bytes : List ℕ) (r : Decoded) (f : DecodeFault) → ReadsModule the_bounds bytes r → Fault the_bounds bytes f → ⊥ }
    ensures one { (bytes : List ℕ) (f g : DecodeFault) → Fault the_bounds bytes f → Fault the_bounds bytes g → f ≡ g }
    ensures of_bytes { (bytes : List ℕ) → Fault the_bounds bytes DecodeFault.OutOfMemory → ⊥ }
{}

/// No reading goes past an item that is not accepted.
pub fn longest_reading()
    ensures { (p q : Plan (List Section)) (left after stop : Left) (items others : List Item) (k : Wanted) (more : (Given k → Plan (List Section))) (f : DecodeFault) →
        Reads p left items q after → Reads p left others (Want k more) stop → accept k stop ≡ Err f → length items ≤ length others }
{}
