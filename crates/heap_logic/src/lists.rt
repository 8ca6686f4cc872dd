ghost use Rattle.std.specs.Prelude.{◌≡◌, ◌<◌, ◌++◌, length, remove, OnOk, OnErr};

use std::alloc::Global;
use std::mem;
use wasm_values::{List, OutOfMemory};

/// Adds items at the end: all, or none after a refusal.
pub(crate) fn extend<T: Drop>(list: &mut List<T>, more: List<T>) -> Result<(), OutOfMemory>
    ensures ok { OnOk result (list.new ≡ list.old ++ more) }
    ensures err { OnErr result (list.new ≡ list.old) }
{
    let before = list.len();
    for item in more.into_vec() {
        match list.push(item) {
            Ok(()) => {}
            Err(error) => {
                list.truncate(before);
                return Err(error);
            }
        }
    }
    Ok(())
}

/// Takes an item out; later ones move down by one.
pub(crate) fn remove_at<T: Drop>(alloc: Global, list: &mut List<T>, at: usize)
    requires { at < length list.old }
    ensures { list.new ≡ remove list.old at }
{
    let mut items = mem::replace(list, List::new(alloc)).into_vec();
    let _ = items.remove(at);
    *list = List::from_vec(items);
}
