// Functions are tried after those that they call, so that one round more is enough.

ghost use Rattle.std.specs.Prelude.{◌≡◌};
ghost use Rattle.step_bound.specs.Bounds.{imported_funcs};
ghost use Rattle.step_bound.specs.words.Tables.{IsRight};

use crate::table::{Sought, settle};
use std::alloc::Global;
use wasm_syntax::{Code, Seen, Simple};
use wasm_values::{List, OutOfMemory};

/// A function that is being looked through, by its place, and the item where that goes on.
#[derive(Clone, Copy)]
struct Visit {
    func: usize,
    at: usize,
}

/// Which functions were entered, and which are being looked through, the last one innermost.
#[derive(Drop)]
struct Search {
    entered: List<bool>,
    visits: List<Visit>,
}

/// The next call, from an item on, of a function of the module that was not entered, with the item after it.
fn next_call(imported: usize, entered: &[bool], body: &Code, from: usize) -> Option<Visit> {
    for at in from..body.len() {
        if let Seen::One(Simple::Call(x)) = body.at(at).seen() {
            let x = x as usize;
            if imported <= x && x - imported < entered.len() && !entered[x - imported] {
                return Some(Visit {
                    func: x - imported,
                    at: at + 1,
                });
            }
        }
    }
    None
}

impl Search {
    /// No function was entered, of so many.
    fn new(alloc: Global, count: usize) -> Result<Search, OutOfMemory> {
        let mut entered = List::new(alloc);
        for _ in 0..count {
            entered.push(false)?;
        }
        Ok(Search {
            entered,
            visits: List::new(alloc),
        })
    }

    /// Enters a function, unless it was entered before.
    fn enter(&mut self, func: usize) -> Result<(), OutOfMemory> {
        if func < self.entered.len() && !self.entered.as_slice()[func] {
            self.entered.set(func, true);
            self.visits.push(Visit { func, at: 0 })?;
        }
        Ok(())
    }

    /// Goes on with a function: enters the next one that it calls, or tries its own bound where there is none left.
    fn go_on(
        &mut self,
        alloc: Global,
        sought: &Sought<'_>,
        known: &mut List<Option<u64>>,
        visit: Visit,
    ) -> Result<(), OutOfMemory>
        requires imported { sought.now.imported ≡ imported_funcs sought.now.module.now }
        requires right { IsRight sought.now.module.now known.old }
        ensures { IsRight sought.now.module.now known.new }
    {
        if visit.func >= known.len() {
            return Ok(());
        }
        let body = &sought.module.funcs.as_slice()[visit.func].body;
        match next_call(sought.imported, self.entered.as_slice(), body, visit.at) {
            Some(call) => {
                self.visits.push(Visit {
                    func: visit.func,
                    at: call.at,
                })?;
                self.enter(call.func)
            }
            None => {
                settle(alloc, sought, known, visit.func)?;
                Ok(())
            }
        }
    }
}

/// Tries each function once, after those that it calls where no cycle of calls keeps from it. Each turn enters a function or
/// leaves one, so there are at most three for each.
pub(crate) fn try_after_calls(
    alloc: Global,
    sought: &Sought<'_>,
    known: &mut List<Option<u64>>,
) -> Result<(), OutOfMemory>
    requires imported { sought.now.imported ≡ imported_funcs sought.now.module.now }
    requires right { IsRight sought.now.module.now known.old }
    ensures { IsRight sought.now.module.now known.new }
{
    let count = known.len();
    let mut search = Search::new(alloc, count)?;
    let mut root = 0;
    for _ in 0..count.saturating_mul(3) {
        match search.visits.pop() {
            Some(visit) => search.go_on(alloc, sought, known, visit)?,
            None => {
                if root >= count {
                    return Ok(());
                }
                search.enter(root)?;
                root += 1;
            }
        }
    }
    Ok(())
}
