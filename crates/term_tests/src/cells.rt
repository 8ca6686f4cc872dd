// Formulas of a row's cell, and leaves that are in scope.

ghost use Rattle.std.specs.Prelude.{◌≡◌, ◌≤◌, IfOk, IsTrue};
ghost use Rattle.term_trees.specs.Formulas.{formula_nodes, well_formed_formula};

use std::alloc::Global;
use std::test::Fail;
use term_logic::{
    Bounds, Boxed, Formula, LeafIds, Place, Term, TermCell, TermTable, formula_in_scope,
    formula_nodes, ground, ground_at,
};
use wasm_values::OutOfMemory;

/// `(and (<= (item) 1) (< (index) 2))`.
fn small_items(alloc: Global) -> Result<Formula, OutOfMemory>
    ensures well_formed { IfOk result (λ f. IsTrue (well_formed_formula f)) }
    ensures small { IfOk result (λ f. formula_nodes f ≤ 7) }
{
    let item = Formula::Le(Term::At(Place::Item), Term::Num(1));
    let index = Formula::Lt(Term::At(Place::Index), Term::Num(2));
    Ok(Formula::And(Boxed::new(alloc, item)?, Boxed::new(alloc, index)?))
}

fn is_judged(f: &Formula) -> bool
    requires { IsTrue (well_formed_formula f.now) }
{
    ground(f).is_none()
        && ground_at(f, 1, 0) == Some(true)
        && ground_at(f, 2, 0) == Some(false)
        && ground_at(f, 0, 2) == Some(false)
        && ground_at(f, 0, 1 << 120).is_none()
}

fn is_counted_and_in_scope(f: &Formula) -> bool {
    let places = [Place::Index, Place::Item];
    let both = Bounds {
        variables: 0,
        own: 0,
        places: &places,
    };
    let one = Bounds {
        variables: 0,
        own: 0,
        places: &places[..1],
    };
    formula_nodes(f) == 7 && formula_in_scope(f, &both) && !formula_in_scope(f, &one)
}

fn are_small_items_judged(alloc: Global) -> Result<bool, OutOfMemory> {
    let f = small_items(alloc)?;
    Ok(is_judged(&f) && is_counted_and_in_scope(&f))
}

#[test]
fn a_formula_of_a_row_is_judged(rt: HostRuntime) -> Result<(), Fail> {
    assert!(rt; are_small_items_judged(rt.alloc())?);
    Ok(())
}

/// Whether a formula over the table has, at the cell with position 1 and value 7, the tree that it should have.
fn is_moved(table: &mut TermTable, f: &Formula) -> Result<bool, OutOfMemory>
    requires well_formed { IsTrue (well_formed_formula f.now) }
    requires small { formula_nodes f.now ≤ 7 }
{
    let shared = table.put_formula(f)?;
    let index = table.intern(TermCell::Num(1))?;
    let item = table.intern(TermCell::Num(7))?;
    let leaves = LeafIds::none().with_cell(index, item);
    if table.replaced_id_formula_nodes(&shared, &leaves) > 4096 {
        return Ok(false);
    }
    let moved = table.put_replaced_id_formula(&shared, &leaves)?;
    let nodes = table.formula_nodes(&moved);
    let tree = table.formula_tree(&moved)?;
    Ok(
        nodes == 7
            && table.is_replaced_formula(&tree, &LeafIds::none(), &moved)
            && ground(&tree) == Some(false),
    )
}

fn are_small_items_moved(alloc: Global, table: &mut TermTable) -> Result<bool, OutOfMemory> {
    let f = small_items(alloc)?;
    is_moved(table, &f)
}

#[test]
fn a_formula_of_a_row_is_moved(rt: HostRuntime) -> Result<(), Fail> {
    let alloc = rt.alloc();
    let mut table = TermTable::new(alloc);
    assert!(rt; are_small_items_moved(alloc, &mut table)?);
    Ok(())
}
