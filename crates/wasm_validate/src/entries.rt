// The entries of a section, one after another.

ghost use Rattle.std.specs.Prelude.{◌≡◌, ℕ, Option, length};
ghost use Rattle.wasm_typing.specs.declared.fault.ValidWord.{ValidWord as Word};
ghost use Rattle.wasm_typing.specs.faults.Faults.{NoFault, FirstFault};
ghost use Rattle.body_check.specs.words.Answers.{Answers};

use wasm_typing::{ValidFault, ValidWord};

/// What is wrong with the entries of a section.
pub(crate) trait Rows<X> {
    /// The word of the first condition that the entry with a number fails, if it fails one.
    ghost fault: { Self → ℕ → X → Option Word };

    /// What has to be known of the module.
    ghost Known: { Self → Type 0 };

    /// That word.
    fn fault_of(&self, number: usize, entry: &X) -> Option<ValidWord>
        requires { Known self.now }
        ensures { result ≡ fault self.now number entry.now };
}

/// Looks at the entries of a section in the order of the file.
pub(crate) fn check_entries<X, R: Rows<X>>(
    rows: &R,
    entries: &[X],
    places: &[usize],
) -> Result<(), ValidFault>
    requires places { length places.now ≡ length entries.now }
    requires known { R.Known rows.now }
    ensures { Answers (λ done. NoFault (R.fault rows.now) entries.now) (FirstFault (R.fault rows.now) entries.now places.now) result }
{
    for (number, entry) in entries.iter().enumerate() {
        if let Some(word) = rows.fault_of(number, entry) {
            return Err(ValidFault::Invalid {
                at: places[number],
                word,
            });
        }
    }
    Ok(())
}
