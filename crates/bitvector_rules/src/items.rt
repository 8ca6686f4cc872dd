ghost use Rattle.std.specs.Prelude.{◌≡◌};
ghost use Rattle.std.specs.Option.{option_copied, option_map};
ghost use Rattle.bitvector_rules.specs.Facts.{one_of, two_of, is_empty};

/// Whether a list has no items.
pub(crate) fn is_empty<T>(items: &[T]) -> bool
    ensures { result ≡ is_empty items.now }
{
    match items.split_first() {
        Some(_) => false,
        None => true,
    }
}

/// The item of a list of one.
pub(crate) fn one_of<T>(items: &[T]) -> Option<&T>
    ensures { option_copied result ≡ one_of items.now }
{
    let (first, rest) = items.split_first()?;
    if rest.is_empty() { Some(first) } else { None }
}

/// The items of a list of two.
pub(crate) fn two_of<T>(items: &[T]) -> Option<(&T, &T)>
    ensures { option_map (λ p. (p.0.now, p.1.now)) result ≡ two_of items.now }
{
    let (first, rest) = items.split_first()?;
    let second = one_of(rest)?;
    Some((first, second))
}
