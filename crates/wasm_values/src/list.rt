ghost use Rattle.std.specs.Prelude.{◌≡◌, [], ◌∷◌, ◌++◌, ◌<◌, length, take, slice_set, IfOk, MatchOption, OnOk, OnErr};
ghost use Rattle.std.specs.Cmp.Lexicographic.{pointwise};

use crate::duplicate::Duplicate;
use crate::error::OutOfMemory;
use std::alloc::Global;
use std::marker::Model;

/// A `Vec` that contracts see as the list of its items. It keeps its allocator.
#[derive(Debug, Drop)]
pub struct List<T> {
    items: Vec<T>,
}

impl<T> Model for List<T> {
    ghost use Rattle.std.specs.Prelude.{List};
    ghost use Rattle.std.specs.Coded.{coded_list};

    ghost Value = { List T };

    ghost coded = { coded_list T.code };

    ghost view = { λ l. l.items.items };
}

impl<T> List<T> {
    /// An empty list, which takes no memory.
    pub fn new(alloc: Global) -> List<T>
        ensures { result ≡ [] }
    {
        List {
            items: Vec::new(alloc),
        }
    }

    /// The list of a vector's items, with the vector's allocator.
    pub fn from_vec(items: Vec<T>) -> List<T>
        ensures { result ≡ items.items }
    {
        List { items }
    }

    /// The items as a vector, with the list's allocator.
    pub fn into_vec(self) -> Vec<T>
        ensures { result.items ≡ self }
    {
        let List { items } = self;
        items
    }

    /// The items, lent.
    pub fn as_slice(&self) -> &[T]
        ensures { result.now ≡ self.now }
    {
        self.items.as_slice()
    }

    /// How many items there are.
    pub fn len(&self) -> usize
        ensures { result ≡ length self.now }
    {
        self.items.len()
    }

    /// Takes the last item off. `None` comes exactly where the list is empty.
    pub fn pop(&mut self) -> Option<T>
        ensures { MatchOption result ((self.old ≡ []) × (self.new ≡ [])) (λ last. self.old ≡ self.new ++ last ∷ []) }
    {
        self.items.pop()
    }
}

impl<T: Drop> List<T> {
    /// Adds an item at the end. After a refusal the item is dropped.
    pub fn push(&mut self, item: T) -> Result<(), OutOfMemory>
        ensures ok { OnOk result (self.new ≡ self.old ++ item ∷ []) }
        ensures err { OnErr result (self.new ≡ self.old) }
    {
        Ok(self.items.push(item)?)
    }

    /// Puts an item in the place of the one at `i`, which is dropped.
    pub fn set(&mut self, i: usize, item: T)
        requires { i < length self.old }
        ensures { self.new ≡ slice_set self.old i item }
    {
        self.items[i] = item;
    }

    /// Keeps the first `n` items, or all where there are fewer.
    pub fn truncate(&mut self, n: usize)
        ensures { self.new ≡ take n self.old }
    {
        self.items.truncate(n);
    }
}

impl<T: Duplicate> List<T> {
    /// A list that equals this one, of its own memory.
    pub fn copy(&self, alloc: Global) -> Result<List<T>, OutOfMemory>
        ensures { IfOk result (λ copied. copied ≡ self.now) }
    {
        let mut copied = List::new(alloc);
        for item in self.items.as_slice() {
            copied.push(item.duplicate(alloc)?)?;
        }
        Ok(copied)
    }
}

impl<T: PartialEq> PartialEq for List<T> {
    ghost use Rattle.std.specs.Cmp.Lexicographic.{pointwise, lists_per};

    ghost eq = { λ x y. pointwise T.eq x y };

    ghost laws = { lists_per T.laws };

    fn eq(&self, other: &Self) -> bool {
        equal(self.as_slice(), other.as_slice())
    }
}

/// Whether two slices have equal items, one by one.
fn equal<'a, T: PartialEq>(a: &'a [T], b: &'a [T]) -> bool
    ensures { result ≡ pointwise T.eq a.now b.now }
{
    PartialEq::eq(&a, &b)
}
