//! What a plan says at a key.

use std::fmt;
use toml::{Table, Value};

/// The value at the place of a key, as `post.2.max_watts` for the key `max_watts` of the second post.
pub(crate) fn value_at<'a>(table: &'a Table, place: &str) -> Option<&'a Value> {
    if let Some(value) = table.get(place) {
        return Some(value);
    }
    let (list, rest) = place.split_once('.')?;
    let (number, key) = rest.split_once('.')?;
    let number: usize = number.parse().ok()?;
    let post = table.get(list)?.get(number.checked_sub(1)?)?;
    post.as_table()?.get(key)
}

/// A value in words.
#[derive(Clone, Copy)]
pub(crate) struct Described<'a>(pub(crate) &'a Value);

impl fmt::Display for Described<'_> {
    fn fmt<W: fmt::Write>(&self, f: &mut fmt::Formatter<W>) -> fmt::Result {
        match self.0 {
            Value::String(text) => write!(f, "the text {:?}", text.as_str()),
            Value::Integer(number) => write!(f, "the number {number}"),
            Value::Float(_) => f.write_str("a number with a fraction"),
            Value::Boolean(truth) => write!(f, "{truth}"),
            Value::Datetime(_) => f.write_str("a date or a time"),
            Value::Table(_) => f.write_str("a table"),
            Value::Array(items) => describe_list(f, items),
        }
    }
}

/// A list: how many items it has, and the first that is no table.
fn describe_list<W: fmt::Write>(f: &mut fmt::Formatter<W>, items: &[Value]) -> fmt::Result {
    write!(f, "a list with {} items", items.len())?;
    match number_of_no_table(items) {
        Some(number) => write!(f, ", whose item {number} is no table"),
        None => Ok(()),
    }
}

/// The number of the first item that is no table, from 1.
fn number_of_no_table(items: &[Value]) -> Option<usize> {
    for (place, item) in items.iter().enumerate() {
        if item.as_table().is_none() {
            return Some(place + 1);
        }
    }
    None
}
