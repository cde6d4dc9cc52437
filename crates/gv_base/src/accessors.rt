//! What a table of names keeps beside its texts, so that no accessor is searched for.
ghost use Rattle.std.specs.Prelude.{◌≡◌, [], ◌∷◌, ◌++◌, IfOk, OnOk, OnErr, Some, false, List, ℕ, length, map, string_bytes, bytes_eq, if◌then◌else◌};
ghost use Rattle.std.specs.List.{list_any};
ghost use Rattle.gv_base.specs.Names.{name_of, with_name, prefix_of, capitalized, accessor_text};
ghost use Rattle.gv_base.specs.Accessors.{spelled, accessors_of, all_accessors, with_accessor, with_new, uncapitalized, AreProperties};

use crate::OutOfMemory;
use crate::ids::Name;
use indexmap::IndexSet;
use std::alloc::Global;

/// The names of a property's accessors, each where the table has it.
#[derive(Clone, Copy)]
pub struct Accessors {
    pub getter: Option<Name>,
    pub setter: Option<Name>,
}

impl Accessors {
    fn with(self, write: bool, name: Name) -> Accessors
        ensures { result ≡ with_accessor write name self }
    {
        if write {
            Accessors {
                setter: Some(name),
                ..self
            }
        } else {
            Accessors {
                getter: Some(name),
                ..self
            }
        }
    }
}

/// The two properties whose accessor a text is. They are one where no ASCII letter begins them.
#[derive(Drop)]
struct Properties {
    write: bool,
    capital: String,
    small: String,
}

/// Puts a new text last, with its accessors, and notes its name at its properties.
pub fn put(
    alloc: Global,
    texts: &mut IndexSet<String>,
    accessors: &mut Vec<Accessors>,
    text: &str,
) -> Result<Name, OutOfMemory>
    requires new { list_any (bytes_eq text.now) (spelled texts.old.keys) ≡ false }
    requires kept { accessors.old.items ≡ all_accessors (spelled texts.old.keys) }
    ensures name { IfOk result (λ name. name_of (spelled texts.new.keys) text.now ≡ Some name) }
    ensures put { OnOk result (spelled texts.new.keys ≡ with_name (spelled texts.old.keys) text.now) }
    ensures err { OnErr result (spelled texts.new.keys ≡ spelled texts.old.keys) }
    ensures kept { accessors.new.items ≡ all_accessors (spelled texts.new.keys) }
{
    let own = find_accessors(alloc, texts, text)?;
    let properties = properties_of(alloc, text)?;
    let owned = String::from_str(alloc, text)?;
    let name = push(texts, accessors, owned, own)?;
    note(texts, accessors, &properties, name);
    Ok(name)
}

/// The accessors of a text that the table has.
fn find_accessors(
    alloc: Global,
    texts: &IndexSet<String>,
    text: &str,
) -> Result<Accessors, OutOfMemory>
    ensures { IfOk result (λ found. found ≡ accessors_of (spelled texts.now.keys) text.now) }
{
    Ok(Accessors {
        getter: find_accessor(alloc, texts, false, text)?,
        setter: find_accessor(alloc, texts, true, text)?,
    })
}

fn find_accessor(
    alloc: Global,
    texts: &IndexSet<String>,
    write: bool,
    property: &str,
) -> Result<Option<Name>, OutOfMemory>
    ensures { IfOk result (λ found. found ≡ name_of (spelled texts.now.keys) (accessor_text write property.now)) }
{
    let accessor = spell_accessor(alloc, write, property)?;
    Ok(texts.get_index_of(accessor.as_str()))
}

fn spell_accessor(alloc: Global, write: bool, property: &str) -> Result<String, OutOfMemory>
    ensures { IfOk result (λ text. string_bytes text ≡ accessor_text write property.now) }
{
    let prefix = if write { "set" } else { "get" };
    match property.as_bytes() {
        [first @ b'a'..=b'z', ..] => {
            let capital = char::from(first.to_ascii_uppercase());
            let rest = &property[1..];
            format!(in alloc; "{prefix}{capital}{rest}")
        }
        _ => format!(in alloc; "{prefix}{property}"),
    }
}

/// The properties whose accessor the text is.
fn properties_of(alloc: Global, text: &str) -> Result<Option<Properties>, OutOfMemory>
    ensures { IfOk result (AreProperties text.now) }
{
    match text.as_bytes() {
        [_, _, _, b'a'..=b'z', ..] => Ok(None),
        [b'g', b'e', b't', ..] => Ok(Some(spell_properties(alloc, false, &text[3..])?)),
        [b's', b'e', b't', ..] => Ok(Some(spell_properties(alloc, true, &text[3..])?)),
        _ => Ok(None),
    }
}

fn spell_properties(alloc: Global, write: bool, capital: &str) -> Result<Properties, OutOfMemory>
    requires { capitalized capital.now ≡ capital.now }
    ensures { IfOk result (λ found. AreProperties (prefix_of write ++ capital.now) (Some found)) }
{
    Ok(Properties {
        write,
        capital: String::from_str(alloc, capital)?,
        small: spell_small(alloc, capital)?,
    })
}

fn spell_small(alloc: Global, property: &str) -> Result<String, OutOfMemory>
    ensures { IfOk result (λ text. string_bytes text ≡ uncapitalized property.now) }
{
    match property.as_bytes() {
        [first @ b'A'..=b'Z', ..] => {
            let small = char::from(first.to_ascii_lowercase());
            let rest = &property[1..];
            format!(in alloc; "{small}{rest}")
        }
        _ => String::from_str(alloc, property),
    }
}

/// Puts a new text and what is kept for it last, or neither.
fn push(
    texts: &mut IndexSet<String>,
    accessors: &mut Vec<Accessors>,
    text: String,
    own: Accessors,
) -> Result<Name, OutOfMemory>
    requires { list_any (bytes_eq (string_bytes text)) (spelled texts.old.keys) ≡ false }
    ensures name { IfOk result (λ name. name ≡ length (spelled texts.old.keys)) }
    ensures texts { OnOk result (spelled texts.new.keys ≡ spelled texts.old.keys ++ string_bytes text ∷ []) }
    ensures accessors { OnOk result (accessors.new.items ≡ accessors.old.items ++ own ∷ []) }
    ensures err_texts { OnErr result (spelled texts.new.keys ≡ spelled texts.old.keys) }
    ensures err_accessors { OnErr result (accessors.new.items ≡ accessors.old.items) }
{
    texts.reserve(1)?;
    accessors.push(own)?;
    match texts.insert_full(text) {
        Ok((name, _)) => Ok(name),
        Err(_) => unreachable!(),
    }
}

/// Notes a new name at its properties, where the table has them.
fn note(
    texts: &IndexSet<String>,
    accessors: &mut [Accessors],
    properties: &Option<Properties>,
    name: Name,
)
    requires { length accessors.old ≡ length texts.now.keys }
    ensures noted { (of : List ℕ → Accessors) → accessors.old ≡ map of (spelled texts.now.keys)
        → accessors.new ≡ map (with_new properties.now name of) (spelled texts.now.keys) }
    ensures len { length accessors.new ≡ length accessors.old }
{
    if let Some(properties) = properties {
        let write = properties.write;
        note_at(texts, accessors, properties.capital.as_str(), write, name);
        note_at(texts, accessors, properties.small.as_str(), write, name);
    }
}

fn note_at(
    texts: &IndexSet<String>,
    accessors: &mut [Accessors],
    property: &str,
    write: bool,
    name: Name,
)
    requires { length accessors.old ≡ length texts.now.keys }
    ensures noted { (of : List ℕ → Accessors) → accessors.old ≡ map of (spelled texts.now.keys)
        → accessors.new ≡ map
        (λ text. if bytes_eq property.now text then with_accessor write name (of text) else of text)
        (spelled texts.now.keys) }
    ensures len { length accessors.new ≡ length accessors.old }
{
    // The proof takes from this call that no text stands twice.
    let _len = texts.len();
    if let Some(place) = texts.get_index_of(property) {
        accessors[place] = accessors[place].with(write, name);
    }
}
