//! Arrays of whole numbers.
ghost use Rattle.std.specs.Prelude.{◌≡◌, ◌≤◌, length, vec_len, IfOk, IfErr, IfSome, MatchResult, All};
ghost use Rattle.std.specs.List.{list_all, filter_map};
ghost use Rattle.toml.specs.View.{view, array_view};
ghost use Rattle.hda_files.specs.Values as values;
ghost use Rattle.hda_files.specs.Arrays.{values_in};
ghost use Rattle.hda_files.specs.Readers.{IsMeant};

use crate::fault::{FileFault, Key, Place};
use crate::values::{array_of, within};
use hda_items::Items;
use std::alloc::Global;
use toml::Value;
use toml::value::Array;

/// The value as a whole number from 0 to `most`.
fn number_up_to(value: &Value, most: u16) -> Option<u16>
    ensures { result ≡ values.number_up_to most (view value.now) }
{
    let number = value.as_integer()?;
    let number = within(0, u32::from(most), number)?;
    Some(number as u16)
}

/// The value as a whole number of 8 bits.
fn byte_of(value: &Value) -> Option<u8>
    ensures { result ≡ values.number_up_to 255 (view value.now) }
{
    let number = value.as_integer()?;
    let number = within(0, 255, number)?;
    Some(number as u8)
}

/// Whether each value of the array is a whole number.
fn all_integers(array: &Array) -> bool
    ensures { result ≡ list_all values.is_integer (values_in array.now) }
{
    array.iter().all(|value| value.is_integer())
}

/// Whether each value of the array is a whole number from 0 to `most`.
fn all_up_to(array: &Array, most: u16) -> bool
    ensures { result ≡ list_all (values.is_up_to most) (values_in array.now) }
{
    array
        .iter()
        .all(|value| number_up_to(value, most).is_some())
}

/// The value as an array of at most `count` whole numbers from 0 to `most`.
fn numbers_of(
    value: &Value,
    place: Place,
    key: Key,
    count: usize,
    most: u16,
) -> Result<&Array, FileFault>
    ensures value { MatchResult result
        (λ array. values.numbers_of place key count most (view value.now) ≡ Ok
        (filter_map (values.number_up_to most) (values_in array.now)))
        (λ fault. values.numbers_of place key count most (view value.now) ≡ Err fault) }
    ensures few { IfOk result (λ array. vec_len array.now ≤ count) }
{
    let array = array_of(value, place, key)?;
    if !all_integers(array) {
        return Err(FileFault::WrongType(place, key));
    }
    if array.len() > count || !all_up_to(array, most) {
        return Err(FileFault::OutOfRange(place, key));
    }
    Ok(array)
}

/// The whole numbers from 0 to `most` among the values of an array.
fn numbers_in(alloc: Global, array: &Array, most: u16) -> Result<Items<u16>, FileFault>
    ensures list { IfOk result (λ numbers. numbers ≡ filter_map (λ value. values.number_up_to most (view value))
        array.now.items) }
    ensures memory { IfErr result (λ fault. fault ≡ FileFault.OutOfMemory) }
{
    let numbers = array
        .iter()
        .filter_map(|value| number_up_to(value, most))
        .collect(alloc)?;
    Ok(Items::from_vec(numbers))
}

/// The whole numbers of 8 bits among the values of an array.
fn bytes_in(alloc: Global, array: &Array) -> Result<Items<u8>, FileFault>
    ensures list { IfOk result (λ numbers. numbers ≡ filter_map (λ value. values.number_up_to 255 (view value))
        array.now.items) }
    ensures memory { IfErr result (λ fault. fault ≡ FileFault.OutOfMemory) }
{
    let numbers = array
        .iter()
        .filter_map(|value| byte_of(value))
        .collect(alloc)?;
    Ok(Items::from_vec(numbers))
}

/// The value as an array of at most `count` whole numbers from 0 to `most`: the numbers.
pub(crate) fn read_numbers(
    alloc: Global,
    value: &Value,
    place: Place,
    key: Key,
    count: usize,
    most: u16,
) -> Result<Items<u16>, FileFault>
    ensures value { IsMeant result (values.numbers_of place key count most (view value.now)) }
    ensures few { IfOk result (λ numbers. length numbers ≤ count) }
    ensures bound { IfOk result (λ numbers. All (λ number. number ≤ most) numbers) }
{
    let array = numbers_of(value, place, key, count, most)?;
    numbers_in(alloc, array, most)
}

/// The value as an array of at most `count` whole numbers of 8 bits: the numbers.
pub(crate) fn read_bytes(
    alloc: Global,
    value: &Value,
    place: Place,
    key: Key,
    count: usize,
) -> Result<Items<u8>, FileFault>
    ensures value { IsMeant result (values.numbers_of place key count 255 (view value.now)) }
    ensures few { IfOk result (λ numbers. length numbers ≤ count) }
{
    let array = numbers_of(value, place, key, count, 255)?;
    bytes_in(alloc, array)
}
