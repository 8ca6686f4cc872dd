// Open blocks, and what branches to their labels take.

ghost use Rattle.std.specs.Prelude.{◌≡◌, true, false, Some, slice_get, option_map};
ghost use Rattle.wasm_typing.specs.Typing.{Context, types_of};
ghost use Rattle.wasm_typing.specs.faults.Open.{part_results};
ghost use Rattle.body_check.specs.words.Steps.{taken_by_branch, labels_in};
ghost use Rattle.body_check.specs.words.Walks.{MayEnd};

use wasm_syntax::Head;
use wasm_values::ValType;

/// Where the operands of a block begin, and whether its code is dead.
#[derive(Clone, Copy)]
pub struct Floor {
    pub base: usize,
    pub dead: bool,
}

/// A block that is open. `turned` tells that its `else` was passed, `base` and `dead` are the floor of the block around it.
#[derive(Clone, Copy)]
pub struct Open {
    pub head: Head,
    pub turned: bool,
    pub dead: bool,
    pub base: usize,
}

/// The open blocks, the innermost last, and the results of the function, which a branch to its own label takes.
#[derive(Clone, Copy)]
pub struct Labels<'a> {
    pub opens: &'a [Open],
    pub results: Option<ValType>,
}

/// The results of a block.
pub(crate) fn results_of(head: Head) -> Option<ValType>
    ensures { (c : Context) → types_of result ≡ part_results c (Some head) }
{
    match head {
        Head::Block(ty) | Head::Loop(ty) | Head::If(ty) => ty,
    }
}

/// What a branch to a block's label takes.
pub(crate) fn label_type(head: Head) -> Option<ValType>
    ensures { types_of result ≡ taken_by_branch head }
{
    match head {
        Head::Block(ty) | Head::If(ty) => ty,
        Head::Loop(_) => None,
    }
}

/// Whether a block may end: an `if` without `else` has no result.
pub(crate) fn may_end(head: Head, turned: bool) -> bool
    ensures yes { result ≡ true → MayEnd head turned }
    ensures no { result ≡ false → MayEnd head turned → ⊥ }
{
    match head {
        Head::If(Some(_)) => turned,
        _ => true,
    }
}

/// What a branch to a label takes, by its number.
pub(crate) fn label_at(labels: &Labels<'_>, l: u32) -> Option<Option<ValType>>
    ensures { option_map types_of result ≡ slice_get (labels_in labels.now) l }
{
    let l = l as usize;
    let depth = labels.opens.len();
    if l < depth {
        return Some(label_type(labels.opens[depth - 1 - l].head));
    }
    if l == depth {
        Some(labels.results)
    } else {
        None
    }
}
