//! The keys and the entries that are answered.

ghost use Rattle.std.specs.Prelude.{◌≡◌, IfOk, option_copied};
ghost use Rattle.gv_heap.specs.Heap.{object_at};
ghost use Rattle.gv_groups.specs.Groups as spec;
ghost use Rattle.gv_groups.specs.Gathering.{put_at, with_entries, put_entries};

use crate::copies::gather_entries;
use crate::gather::with_value;
use crate::group::{Gathering, Group, Pending};
use crate::throws::{no_entry, no_key};
use crate::turn::{GroupTurn, go_group};
use gv_base::{ExceptionKind, Names, ObjId, OutOfMemory, Value};
use gv_classes::Classes;
use gv_heap::{Entries, Heap, MapKey, Object};
use gv_rows::key_of;
use gv_texts::{TextTurn, start_text};
use std::alloc::Global;

/// The turn behind a key with its value: a string with parts is a key by its text.
pub(crate) fn keying(
    alloc: Global,
    names: &Names,
    classes: &Classes,
    heap: &mut Heap,
    group: Group,
    shown: Value,
    value: Value,
) -> Result<GroupTurn, OutOfMemory>
    ensures { spec.Turns heap.old (spec.keying names.now classes.now heap.old group shown value) result heap.new }
{
    if has_parts(heap, shown) {
        let turn = start_text(alloc, names, classes, heap, shown)?;
        texted(alloc, heap, group, shown, value, turn)
    } else {
        plain_key(alloc, names, classes, heap, group, shown, value)
    }
}

/// The turn behind a key that is no string with parts.
fn plain_key(
    alloc: Global,
    names: &Names,
    classes: &Classes,
    heap: &mut Heap,
    group: Group,
    shown: Value,
    value: Value,
) -> Result<GroupTurn, OutOfMemory>
    ensures { spec.Turns heap.old (spec.plain_key names.now classes.now heap.old group shown value) result heap.new }
{
    match key_of(alloc, names, classes, heap, shown)? {
        Some(key) => putting(alloc, heap, group, key, shown, value),
        None => {
            let message = no_key(alloc, names, classes, heap, shown)?;
            Ok(GroupTurn::Thrown(ExceptionKind::UnsupportedOperationException, message))
        }
    }
}

/// The turn behind a turn of the text of a key.
pub(crate) fn texted(
    alloc: Global,
    heap: &mut Heap,
    group: Group,
    shown: Value,
    value: Value,
    turn: TextTurn,
) -> Result<GroupTurn, OutOfMemory>
    ensures { spec.Turns heap.old (spec.texted group shown value turn) result heap.new }
{
    match turn {
        TextTurn::Text(text) => putting(alloc, heap, group, MapKey::GText(text), shown, value),
        TextTurn::Asks {
            walk,
            receiver,
            question,
        } => Ok(GroupTurn::Asks {
            group: group.with_pending(Pending::Key { walk, shown, value }),
            receiver,
            question,
        }),
    }
}

/// The turn behind a value that is put at a key.
fn putting(
    alloc: Global,
    heap: &mut Heap,
    group: Group,
    key: MapKey,
    shown: Value,
    value: Value,
) -> Result<GroupTurn, OutOfMemory>
    ensures { spec.Turns heap.old (spec.going (put_at group key shown value)) result heap.new }
{
    let group = put_in(group, key, shown, value)?;
    go_group(alloc, heap, group)
}

fn put_in(group: Group, key: MapKey, shown: Value, value: Value) -> Result<Group, OutOfMemory>
    ensures { IfOk result (λ more. more ≡ put_at group key shown value) }
{
    let Group {
        closure,
        source,
        gathering,
        handed,
        pending,
    } = group;
    Ok(Group {
        closure,
        source,
        gathering: with_value(gathering, key, shown, value)?,
        handed,
        pending,
    })
}

/// The turn behind an answer that is to be an entry, or entries.
pub(crate) fn collecting(
    alloc: Global,
    names: &Names,
    classes: &Classes,
    heap: &mut Heap,
    group: Group,
    answer: Value,
) -> Result<GroupTurn, OutOfMemory>
    ensures { spec.Turns heap.old (spec.collecting names.now classes.now heap.old group answer) result heap.new }
{
    match answered_entry(heap, answer) {
        Answered::Map(id) => joining(alloc, heap, group, id),
        Answered::Pair(key, value) => keying(alloc, names, classes, heap, group, key, value),
        Answered::Other => {
            let message = no_entry(alloc)?;
            Ok(GroupTurn::Thrown(ExceptionKind::IllegalArgumentException, message))
        }
    }
}

/// What an answer is that is to be an entry.
#[derive(Clone, Copy, Debug, PartialEq, Eq)]
pub(crate) enum Answered {
    Map(ObjId),
    Pair(Value, Value),
    Other,
}

fn answered_entry(heap: &Heap, answer: Value) -> Answered
    ensures { result ≡ spec.answered_entry heap.now answer }
{
    match answer {
        Value::Obj(id) => answered_object(id, heap.get(id)),
        _ => Answered::Other,
    }
}

fn answered_object(id: ObjId, object: Option<&Object>) -> Answered
    ensures { result ≡ spec.answered_object id (option_copied object.entry) }
{
    match object {
        Some(Object::Map(_)) => Answered::Map(id),
        Some(Object::List(elements)) => answered_list(elements.as_slice()),
        _ => Answered::Other,
    }
}

/// A list of two is a key and its value.
fn answered_list(elements: &[Value]) -> Answered
    ensures { result ≡ spec.answered_list elements.now }
{
    match elements {
        [key, value] => Answered::Pair(*key, *value),
        _ => Answered::Other,
    }
}

/// The turn behind a map whose entries are gathered.
fn joining(
    alloc: Global,
    heap: &mut Heap,
    group: Group,
    map: ObjId,
) -> Result<GroupTurn, OutOfMemory>
    ensures { spec.Turns heap.old (spec.joining heap.old group map) result heap.new }
{
    let group = joined(alloc, heap, group, map)?;
    go_group(alloc, heap, group)
}

fn joined(alloc: Global, heap: &Heap, group: Group, map: ObjId) -> Result<Group, OutOfMemory>
    ensures { IfOk result (λ more. more ≡ spec.joined heap.now group map) }
{
    let Group {
        closure,
        source,
        gathering,
        handed,
        pending,
    } = group;
    let gathering = match heap.get(map) {
        Some(Object::Map(held)) => with_held(alloc, held, gathering)?,
        _ => gathering,
    };
    Ok(Group {
        closure,
        source,
        gathering,
        handed,
        pending,
    })
}

fn with_held(alloc: Global, held: &Entries, gathering: Gathering) -> Result<Gathering, OutOfMemory>
    ensures { IfOk result (λ more. more ≡ put_entries gathering held.now) }
{
    match gathering {
        Gathering::Entries(mut entries) => {
            gather_entries(alloc, held, &mut entries)?;
            Ok(Gathering::Entries(entries))
        }
        other => Ok(other),
    }
}

/// Whether a value is a string with parts.
fn has_parts(heap: &Heap, value: Value) -> bool
    ensures { result ≡ spec.has_parts heap.now value }
{
    match value {
        Value::Obj(id) => matches!(heap.get(id), Some(Object::GString(_))),
        _ => false,
    }
}
