//! The values of a table's keys: whole numbers, truth values and arrays.
ghost use Rattle.std.specs.Prelude.{◌≡◌, ◌≤◌, ◌<◌, option_map, IfOk, IfSome, MatchResult, vec_len};
ghost use Rattle.std.specs.List.{list_all, filter_map};
ghost use Rattle.toml.specs.View.{view, table_view, array_view};
ghost use Rattle.toml.specs.Data as toml_data;
ghost use Rattle.hda_files.specs.Values as values;
ghost use Rattle.hda_files.specs.Arrays.{values_in, tables_in};

use crate::fault::{FileFault, Key, Place};
use toml::value::Array;
use toml::{Table, Value};

/// The value at a key, if the table has it.
pub(crate) fn value_at<'a>(table: &'a Table, key: Key) -> Option<&'a Value>
    ensures { option_map (λ value. view value.now) result ≡ values.value_at (table_view table.now) key }
{
    table.get(key.name())
}

/// The number, if it is one from `least` to `most`.
pub(crate) fn within(least: u32, most: u32, number: i64) -> Option<u32>
    ensures value { result ≡ values.within least most number }
    ensures bound { IfSome result (λ n. n ≤ most) }
{
    match u32::try_from(number) {
        Ok(n) if least <= n && n <= most => Some(n),
        _ => None,
    }
}

/// The value as a whole number from `least` to `most`.
fn number_of(value: &Value, place: Place, key: Key, least: u32, most: u32) -> Result<u32, FileFault>
    ensures value { result ≡ values.number_of place key least most (view value.now) }
    ensures bound { IfOk result (λ n. n ≤ most) }
{
    let number = value.as_integer().ok_or(FileFault::WrongType(place, key))?;
    within(least, most, number).ok_or(FileFault::OutOfRange(place, key))
}

/// The whole number at a key that must be given, from `least` to `most`.
fn required_number(
    table: &Table,
    place: Place,
    key: Key,
    least: u32,
    most: u32,
) -> Result<u32, FileFault>
    ensures value { result ≡ values.required_number (table_view table.now) place key least most }
    ensures bound { IfOk result (λ n. n ≤ most) }
{
    match value_at(table, key) {
        Some(value) => number_of(value, place, key, least, most),
        None => Err(FileFault::MissingKey(place, key)),
    }
}

/// The whole number at a key, from `least` to `most`, if the key is given.
fn given_number(
    table: &Table,
    place: Place,
    key: Key,
    least: u32,
    most: u32,
) -> Result<Option<u32>, FileFault>
    ensures value { result ≡ values.given_number (table_view table.now) place key least most }
    ensures bound { IfOk result (λ given. IfSome given (λ n. n ≤ most)) }
{
    match value_at(table, key) {
        Some(value) => {
            let number = number_of(value, place, key, least, most)?;
            Ok(Some(number))
        }
        None => Ok(None),
    }
}

/// The 32-bit word at a key that must be given.
pub(crate) fn required_word(table: &Table, place: Place, key: Key) -> Result<u32, FileFault>
    ensures { result ≡ values.required_number (table_view table.now) place key 0 values.most_word }
{
    required_number(table, place, key, 0, u32::MAX)
}

/// The 32-bit word at a key, or what holds where the key is not given.
pub(crate) fn word_or(table: &Table, place: Place, key: Key, default: u32) -> Result<u32, FileFault>
    ensures { result ≡ values.number_or (table_view table.now) place key 0 values.most_word default }
{
    let given = given_number(table, place, key, 0, u32::MAX)?;
    Ok(given.unwrap_or(default))
}

/// The whole number at a key that must be given, from `least` to `most`.
pub(crate) fn required_byte(
    table: &Table,
    place: Place,
    key: Key,
    least: u8,
    most: u8,
) -> Result<u8, FileFault>
    ensures value { result ≡ values.required_number (table_view table.now) place key least most }
    ensures bound { IfOk result (λ n. n ≤ most) }
{
    let number = required_number(table, place, key, u32::from(least), u32::from(most))?;
    Ok(number as u8)
}

/// The whole number at a key, from `least` to `most`, if the key is given.
pub(crate) fn given_byte(
    table: &Table,
    place: Place,
    key: Key,
    least: u8,
    most: u8,
) -> Result<Option<u8>, FileFault>
    ensures value { result ≡ values.given_number (table_view table.now) place key least most }
    ensures bound { IfOk result (λ given. IfSome given (λ n. n ≤ most)) }
{
    match given_number(table, place, key, u32::from(least), u32::from(most))? {
        Some(number) => Ok(Some(number as u8)),
        None => Ok(None),
    }
}

/// The whole number at a key, from `least` to `most`, or what holds where the key is not given.
pub(crate) fn byte_or(
    table: &Table,
    place: Place,
    key: Key,
    least: u8,
    most: u8,
    default: u8,
) -> Result<u8, FileFault>
    ensures { result ≡ values.number_or (table_view table.now) place key least most default }
{
    let given = given_byte(table, place, key, least, most)?;
    Ok(given.unwrap_or(default))
}

/// The whole number at a key, from `least` to `most`, if the key is given.
pub(crate) fn given_short(
    table: &Table,
    place: Place,
    key: Key,
    least: u16,
    most: u16,
) -> Result<Option<u16>, FileFault>
    ensures { result ≡ values.given_number (table_view table.now) place key least most }
{
    match given_number(table, place, key, u32::from(least), u32::from(most))? {
        Some(number) => Ok(Some(number as u16)),
        None => Ok(None),
    }
}

/// The whole number at a key, from `least` to `most`, or what holds where the key is not given.
pub(crate) fn short_or(
    table: &Table,
    place: Place,
    key: Key,
    least: u16,
    most: u16,
    default: u16,
) -> Result<u16, FileFault>
    ensures { result ≡ values.number_or (table_view table.now) place key least most default }
{
    let given = given_short(table, place, key, least, most)?;
    Ok(given.unwrap_or(default))
}

/// The truth value at a key, false where the key is not given.
pub(crate) fn flag_at(table: &Table, place: Place, key: Key) -> Result<bool, FileFault>
    ensures { result ≡ values.flag_at (table_view table.now) place key }
{
    match value_at(table, key) {
        Some(value) => value.as_bool().ok_or(FileFault::WrongType(place, key)),
        None => Ok(false),
    }
}

/// The value as an array.
pub(crate) fn array_of(value: &Value, place: Place, key: Key) -> Result<&Array, FileFault>
    ensures { MatchResult result
        (λ array. toml_data.as_array (view value.now) ≡ Some (array_view array.now))
        (λ fault. (toml_data.as_array (view value.now) ≡ None) × (fault ≡ FileFault.WrongType place key)) }
{
    value.as_array().ok_or(FileFault::WrongType(place, key))
}

/// Whether each value of the array is a table.
fn all_tables(array: &Array) -> bool
    ensures { result ≡ list_all values.is_table (values_in array.now) }
{
    array.iter().all(|value| value.is_table())
}

/// The value as an array of 1 to `most` tables.
fn tables_of(value: &Value, place: Place, key: Key, most: usize) -> Result<&Array, FileFault>
    ensures value { MatchResult result
        (λ array. values.tables_of place key most (view value.now) ≡ Ok (tables_in array.now))
        (λ fault. values.tables_of place key most (view value.now) ≡ Err fault) }
    ensures few { IfOk result (λ array. vec_len array.now ≤ most) }
{
    let array = array_of(value, place, key)?;
    if !all_tables(array) {
        return Err(FileFault::WrongType(place, key));
    }
    let count = array.len();
    if count < 1 || count > most {
        return Err(FileFault::OutOfRange(place, key));
    }
    Ok(array)
}

/// The array of 1 to `most` tables at a key that must be given.
pub(crate) fn tables_at(
    table: &Table,
    place: Place,
    key: Key,
    most: usize,
) -> Result<&Array, FileFault>
    ensures value { MatchResult result
        (λ array. values.tables_at (table_view table.now) place key most ≡ Ok (tables_in array.now))
        (λ fault. values.tables_at (table_view table.now) place key most ≡ Err fault) }
    ensures few { IfOk result (λ array. vec_len array.now ≤ most) }
{
    match value_at(table, key) {
        Some(value) => tables_of(value, place, key, most),
        None => Err(FileFault::MissingKey(place, key)),
    }
}
