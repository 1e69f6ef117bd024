//! The terms of a document's fields.
ghost use Rattle.std.specs.Prelude.{◌≡◌, ◌&&◌, nat_le, [], ◌∷◌, map, pos, is_some, option_to_list, string_bytes, IfOk};
ghost use Rattle.std.specs.Fmt.{signed_decimal};
ghost use Rattle.std.specs.List.{list_any};
ghost use Rattle.serde_json.specs.Data.{boolean, array};
ghost use Rattle.serde_json.specs.View.{view, items_view};
ghost use Rattle.eb_fields.specs.Fields.{names};
ghost use Rattle.eb_fields.specs.Fields as spec;
ghost use Rattle.eb_doc.specs.FieldTerms.{plain_value, plain_values, field_values, named_values, field_terms, is_long, has_long_value, item_count, most_items};
ghost use Rattle.eb_doc.specs.FieldTerms as field;
ghost use Rattle.eb_doc.specs.WithFields.{Adds};

use crate::LineFault;
use eb_base::{NoMemory, Terms};
use eb_fields::{Fields, MAX_VALUE_BYTES, field_term};
use serde_json::Value;
use std::alloc::Global;

/// The most items of an array that gives values of a field.
pub const MAX_ITEMS: usize = 16;

// The terms, and then a field's term.
fn with_text(alloc: Global, name: &str, text: &str, terms: Terms) -> Result<Terms, LineFault>
    ensures { Adds (is_long text.now) (spec.field_term name.now text.now ∷ []) terms result }
{
    let term = field_term(alloc, name, text)?;
    if term.bytes().len() - name.len() > MAX_VALUE_BYTES + 2 {
        return Err(LineFault::TooLong);
    }
    let mut all = terms;
    all.push(term)?;
    Ok(all)
}

// The word of a boolean.
fn word(is: bool) -> &'static str
    ensures { Some result.now ≡ plain_value (boolean is) }
{
    if is { "true" } else { "false" }
}

// A number in decimal.
fn decimal(alloc: Global, n: u64) -> Result<String, NoMemory>
    ensures { IfOk result (λ text. string_bytes text ≡ signed_decimal (pos n)) }
{
    Ok(n.to_string(alloc)?)
}

// A number in decimal, with a minus before a negative one.
fn signed(alloc: Global, n: i64) -> Result<String, NoMemory>
    ensures { IfOk result (λ text. string_bytes text ≡ signed_decimal n) }
{
    Ok(n.to_string(alloc)?)
}

// The terms, and then the term of a value, if it has a text.
fn with_plain(alloc: Global, name: &str, value: &Value, terms: Terms) -> Result<Terms, LineFault>
    ensures { let values = option_to_list (plain_value (view value.now)) in
        Adds (list_any is_long values) (map (spec.field_term name.now) values) terms result }
{
    if let Some(text) = value.as_str() {
        return with_text(alloc, name, text, terms);
    }
    if let Some(is) = value.as_bool() {
        return with_text(alloc, name, word(is), terms);
    }
    if let Some(n) = value.as_u64() {
        return with_text(alloc, name, decimal(alloc, n)?.as_str(), terms);
    }
    if let Some(n) = value.as_i64() {
        return with_text(alloc, name, signed(alloc, n)?.as_str(), terms);
    }
    Ok(terms)
}

// Whether a value has a text.
fn is_plain(value: &Value) -> bool
    ensures { result ≡ is_some (plain_value (view value.now)) }
{
    value.is_string() || value.is_boolean() || value.is_u64() || value.is_i64()
}

// Whether each of these has a text.
fn are_plain(items: &[Value]) -> bool
    ensures { result ≡ field.are_plain (items_view items.now) }
{
    match items.split_first() {
        Some((first, rest)) => is_plain(first) && are_plain(rest),
        None => true,
    }
}

// The terms, and then those of the items.
fn with_items(alloc: Global, name: &str, items: &[Value], terms: Terms) -> Result<Terms, LineFault>
    ensures { let values = plain_values (items_view items.now) in
        Adds (list_any is_long values) (map (spec.field_term name.now) values) terms result }
{
    match items.split_first() {
        Some((first, rest)) => {
            let more = with_plain(alloc, name, first, terms)?;
            with_items(alloc, name, rest, more)
        }
        None => Ok(terms),
    }
}

// Whether an array may have this many items.
fn are_few(items: &[Value]) -> bool
    ensures { result ≡ nat_le (item_count (items_view items.now)) most_items }
{
    items.len() <= MAX_ITEMS
}

// Whether an array of these gives values.
fn give_values(items: &[Value]) -> bool
    ensures { result ≡ (nat_le (item_count (items_view items.now)) most_items && field.are_plain (items_view items.now)) }
{
    are_few(items) && are_plain(items)
}

// The terms, and then those of an array.
fn with_array(alloc: Global, name: &str, items: &[Value], terms: Terms) -> Result<Terms, LineFault>
    ensures { let values = field_values (array (items_view items.now)) in
        Adds (list_any is_long values) (map (spec.field_term name.now) values) terms result }
{
    if give_values(items) {
        return with_items(alloc, name, items, terms);
    }
    Ok(terms)
}

// The terms, and then those of a member.
fn with_member(alloc: Global, name: &str, member: &Value, terms: Terms) -> Result<Terms, LineFault>
    ensures { let values = field_values (view member.now) in
        Adds (list_any is_long values) (map (spec.field_term name.now) values) terms result }
{
    match member.as_array() {
        Some(items) => with_array(alloc, name, items.as_slice(), terms),
        None => with_plain(alloc, name, member, terms),
    }
}

// The terms, and then those of a field.
fn with_field(alloc: Global, name: &str, value: &Value, terms: Terms) -> Result<Terms, LineFault>
    ensures { let values = named_values name.now (view value.now) in
        Adds (list_any is_long values) (map (spec.field_term name.now) values) terms result }
{
    match value.get(name) {
        Some(member) => with_member(alloc, name, member, terms),
        None => Ok(terms),
    }
}

/// The terms, and then those of the fields, field by field.
pub(crate) fn with_fields(
    alloc: Global,
    fields: Fields<'_>,
    value: &Value,
    terms: Terms,
) -> Result<Terms, LineFault>
    ensures { Adds (has_long_value (names fields.entry) (view value.now)) (field_terms (names fields.entry) (view value.now)) terms result }
{
    match fields.split_first() {
        Some((name, rest)) => {
            let more = with_field(alloc, name, value, terms)?;
            with_fields(alloc, rest, value, more)
        }
        None => Ok(terms),
    }
}
