//! Whether bound keys match keys that are held.
ghost use Rattle.std.specs.Prelude.{◌≡◌, ◌↔◌, IsTrue};
ghost use Rattle.key_proc.specs.Matching.{same_key, is_any, matches_key, matches, begins, agrees, count_any};

use key_names::Key;

/// Tells whether the two keys are one.
fn is_same(a: Key, b: Key) -> bool
    ensures test { result ≡ same_key a b }
    ensures same { IsTrue (same_key a b) ↔ (a ≡ b) }
{
    a == b
}

/// Tells whether the bound key stands for each key.
fn is_any(bound: Key) -> bool
    ensures { result ≡ is_any bound }
{
    is_same(bound, Key::Any)
}

/// Tells whether a bound key matches a key.
fn matches_key(bound: Key, key: Key) -> bool
    ensures { result ≡ matches_key bound key }
{
    is_any(bound) || is_same(bound, key)
}

/// Tells whether bound keys match as many keys, each its own.
pub(crate) fn matches(bound: &[Key], keys: &[Key]) -> bool
    ensures { result ≡ matches bound.now keys.now }
{
    match bound {
        [] => keys.is_empty(),
        [first, rest @ ..] => match keys {
            [] => false,
            [key, more @ ..] => matches_key(*first, *key) && matches(rest, more),
        },
    }
}

/// Tells whether there are more bound keys than keys, and the first of them match.
pub(crate) fn begins(bound: &[Key], keys: &[Key]) -> bool
    ensures { result ≡ begins bound.now keys.now }
{
    keys.len() < bound.len() && matches(&bound[..keys.len()], keys)
}

/// Tells whether bound keys match keys at each place that both have, as they do where they match some first keys, or
/// begin with all.
pub(crate) fn agrees(bound: &[Key], keys: &[Key]) -> bool
    ensures { result ≡ agrees bound.now keys.now }
{
    match bound {
        [] => true,
        [first, rest @ ..] => match keys {
            [] => true,
            [key, more @ ..] => matches_key(*first, *key) && agrees(rest, more),
        },
    }
}

/// Returns the number of bound keys that stand for each key.
pub(crate) fn count_any(bound: &[Key]) -> usize
    ensures { result ≡ count_any bound.now }
{
    bound.iter().filter(|key| is_any(**key)).count()
}
