// The fields of a range query, written as in a script.
ghost use Rattle.std.specs.Prelude.{IfSome, length, ◌≡◌};

use cell_core::{Field, Fields, Text, Texts};
use std::alloc::Global;

// Appends a text, if the list is short.
fn push_text(alloc: Global, texts: &mut Texts, text: &str) -> bool {
    if texts.len() > 9 {
        return false;
    }
    match Text::new(alloc, text) {
        Ok(text) => texts.push(text).is_ok(),
        Err(_) => false,
    }
}

fn push_list(alloc: Global, texts: &mut Texts, list: &str) -> bool {
    'texts: for text in list.split('|') {
        if !push_text(alloc, texts, text) {
            return false;
        }
    }
    true
}

// A few texts with `|` between them.
fn among(alloc: Global, list: &str) -> Option<Field> {
    let mut texts = Texts::new(alloc);
    if push_list(alloc, &mut texts, list) {
        Some(Field::Among(texts))
    } else {
        drop(texts);
        None
    }
}

// Two texts with `~` between them.
fn between(alloc: Global, ends: &str) -> Option<Field> {
    let (low, high) = ends.split_once('~').unwrap_or(("", ""));
    let Ok(low) = Text::new(alloc, low) else {
        return None;
    };
    let Ok(high) = Text::new(alloc, high) else {
        drop(low);
        return None;
    };
    Some(Field::Between(low, high))
}

fn one(alloc: Global, text: &str) -> Option<Field> {
    match Text::new(alloc, text) {
        Ok(text) => Some(Field::One(text)),
        Err(_) => None,
    }
}

fn field(alloc: Global, asked: &str) -> Option<Field> {
    if asked == "*" {
        return Some(Field::Any);
    }
    if asked == "?" {
        return Some(Field::All);
    }
    if let Some(list) = asked.strip_prefix('|') {
        return among(alloc, list);
    }
    if let Some(ends) = asked.strip_prefix('~') {
        return between(alloc, ends);
    }
    one(alloc, asked.strip_prefix('=').unwrap_or(asked))
}

fn push_field(fields: &mut Fields, field: Field) -> bool {
    if fields.len() > 2 {
        drop(field);
        return false;
    }
    fields.push(field).is_ok()
}

fn push(alloc: Global, fields: &mut Fields, asked: &str) -> bool {
    match field(alloc, asked) {
        Some(field) => push_field(fields, field),
        None => false,
    }
}

/// The fields of three dimensions.
pub fn three(alloc: Global, asked: &[&str; 3]) -> Option<Fields>
    ensures { IfSome result (λ fields. length fields ≡ 3) }
{
    let mut fields = Fields::new(alloc);
    let are_made = push(alloc, &mut fields, asked[0])
        && push(alloc, &mut fields, asked[1])
        && push(alloc, &mut fields, asked[2]);
    if are_made && fields.len() == 3 {
        return Some(fields);
    }
    drop(fields);
    None
}

/// A field for each of three dimensions, with commas between them.
pub fn fields(alloc: Global, asked: &str) -> Option<Fields>
    ensures { IfSome result (λ fields. length fields ≡ 3) }
{
    let mut parts = asked.split(',');
    let words = [
        parts.next().unwrap_or("*"),
        parts.next().unwrap_or("*"),
        parts.next().unwrap_or("*"),
    ];
    three(alloc, &words)
}
