// SPDX-License-Identifier: MIT OR Apache-2.0
//! The keys of a table, and the values at its keys.
ghost use Rattle.std.specs.Prelude.{◌≡◌, ◌≤◌, IfOk, map, length, string_bytes, bytes_eq};
ghost use Rattle.std.specs.List.{list_all, list_any};
ghost use Rattle.std.specs.BTreeMap.{keys};
ghost use Rattle.toml.specs.View.{table_view, view, items_view};
ghost use Rattle.ffa_manifest.specs.Reading.{Exact};
ghost use Rattle.ffa_manifest.specs.Keys.{only_keys as only_keys_in, value_at as value_in, text_at as text_in, natural as natural_of, integer_at as number_in, items_at as items_in};

use crate::error::ManifestError;
use toml::{Table, Value};

pub(crate) fn is_among(key: &str, names: &[&str]) -> bool
    ensures { result ≡ list_any (λ n. bytes_eq key.now n.now) names.now }
{
    names.iter().any(|name| key == *name)
}

fn are_among(table: &Table, names: &[&str]) -> bool
    ensures { result ≡ list_all (λ k. list_any (λ n. bytes_eq (string_bytes k) n.now) names.now) (keys table.now) }
{
    table.keys().all(|key| is_among(key.as_str(), names))
}

/// Rejects a table that has a key other than these.
#[tactic(auto, using(crate::proofs::Views::are_among_view), unfolding(crate::specs::Keys::only_keys))]
pub(crate) fn only_keys(table: &Table, names: &[&str]) -> Result<(), ManifestError>
    ensures { Exact (λ u. u) result (only_keys_in (map (λ n. n.now) names.now) (table_view table.now)) }
{
    if are_among(table, names) {
        Ok(())
    } else {
        Err(ManifestError::UnknownKey)
    }
}

fn value_at<'a>(table: &'a Table, key: &str) -> Result<&'a Value, ManifestError>
    ensures { Exact (λ v. view v.now) result (value_in key.now (table_view table.now)) }
{
    match table.get(key) {
        None => Err(ManifestError::MissingKey),
        Some(value) => Ok(value),
    }
}

/// Returns the text of the string at a key. Returns an error if the key is missing, or if its value is not a string.
#[tactic(auto, unfolding(crate::specs::Keys::text_at))]
pub(crate) fn text_at<'a>(table: &'a Table, key: &str) -> Result<&'a str, ManifestError>
    ensures { Exact (λ t. t.now) result (text_in key.now (table_view table.now)) }
{
    match value_at(table, key)?.as_str() {
        None => Err(ManifestError::WrongKind),
        Some(text) => Ok(text),
    }
}

#[tactic(auto, unfolding(crate::specs::Keys::natural))]
fn natural(number: i64) -> Option<u64>
    ensures { result ≡ natural_of number }
{
    u64::try_from(number).ok()
}

/// Returns the integer at a key, or `None` for an integer below 0. Returns an error if the key is missing, or if its
/// value is not an integer.
#[tactic(auto, unfolding(crate::specs::Keys::integer_at))]
pub(crate) fn integer_at(table: &Table, key: &str) -> Result<Option<u64>, ManifestError>
    ensures { Exact (λ n. n) result (number_in key.now (table_view table.now)) }
{
    match value_at(table, key)?.as_integer() {
        None => Err(ManifestError::WrongKind),
        Some(number) => Ok(natural(number)),
    }
}

/// Returns the items of the array at a key. Returns this cause if the array has no items, or more than `most`.
#[tactic(auto, using(crate::proofs::Views::item_count_view), unfolding(crate::specs::Keys::items_at))]
pub(crate) fn items_at<'a>(
    table: &'a Table,
    key: &str,
    most: usize,
    cause: ManifestError,
) -> Result<&'a [Value], ManifestError>
    ensures items { Exact (λ vs. items_view vs.now) result (items_in key.now most cause (table_view table.now)) }
    ensures few { IfOk result (λ vs. length vs.now ≤ most) }
{
    let items = match value_at(table, key)?.as_array() {
        None => return Err(ManifestError::WrongKind),
        Some(items) => items.as_slice(),
    };
    if 1 <= items.len() && items.len() <= most {
        Ok(items)
    } else {
        Err(cause)
    }
}
