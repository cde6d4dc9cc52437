//! Calls of built-in methods on one long list, map or text, for `bench/rows.py` to time. The words are `list`, `map` or `text`, and
//! how many elements, entries or words it has. The status is 0 where each call answers, and with what is expected.
#![tactic(auto)]

ghost use Rattle.std.specs.Prelude.{◌≡◌, true};
ghost use Rattle.gv_lists.specs.Rows as lists;
ghost use Rattle.gv_maps.specs.Rows as maps;

mod takes;

use crate::takes::{is_receiver, takes_all};
use gv_base::{Names, Value};
use gv_classes::Classes;
use gv_heap::{Heap, Object};
use gv_lists::call_list;
use gv_maps::call_map;
use gv_natives::{Kind, built_in};
use gv_rows::Done;
use gv_strings::call_string;
use std::alloc::Global;
use std::env;
use std::process::ExitCode;

const CELLS: u64 = 64_000_000;

/// What calls need.
#[derive(Drop)]
struct Bench {
    alloc: Global,
    names: Names,
    classes: Classes,
    heap: Heap,
}

fn main(rt: HostRuntime) -> ExitCode {
    let Ok(mut words) = env::args(&rt) else {
        return ExitCode::FAILURE;
    };
    let (Some(_), Some(what), Some(size)) = (words.next(), words.next(), words.next()) else {
        return ExitCode::FAILURE;
    };
    let Ok(size) = size.as_str().parse::<i32>() else {
        return ExitCode::FAILURE;
    };
    match run(rt.alloc(), what.as_str(), size) {
        Some(()) => ExitCode::SUCCESS,
        None => ExitCode::FAILURE,
    }
}

fn run(alloc: Global, what: &str, size: i32) -> Option<()> {
    let mut names = Names::new(alloc);
    let Ok(classes) = Classes::new(alloc, &mut names) else {
        return None;
    };
    let mut bench = Bench {
        alloc,
        names,
        classes,
        heap: Heap::new(alloc, CELLS),
    };
    match what {
        "list" => bench.lists(size),
        "map" => bench.maps(size),
        _ => bench.texts(size),
    }
}

/// Whether a number, a truth or an object is the one that is expected.
fn is(value: Value, expected: Value) -> Option<()> {
    if value == expected { Some(()) } else { None }
}

fn value_of(done: Done) -> Option<Value> {
    match done {
        Done::Value(value) => Some(value),
        _ => None,
    }
}

fn is_list(heap: &Heap, receiver: Value) -> bool
    ensures { result ≡ true → lists.IsReceiver heap.now receiver }
{
    match receiver {
        Value::Obj(id) => matches!(heap.get(id), Some(Object::List(_) | Object::Range(_))),
        _ => false,
    }
}

fn is_map(heap: &Heap, receiver: Value) -> bool
    ensures { result ≡ true → maps.IsReceiver heap.now receiver }
{
    match receiver {
        Value::Obj(id) => matches!(heap.get(id), Some(Object::Map(_))),
        _ => false,
    }
}

impl Bench {
    fn list_row(&mut self, name: &str, receiver: Value, args: &[Value]) -> Option<Value> {
        let Ok(arity) = u8::try_from(args.len()) else {
            return None;
        };
        let table = built_in();
        let Some(native) = table.find(name, Kind::List, arity) else {
            return None;
        };
        let row = *table.row(native);
        let is_row = matches!(row.kind, Kind::List)
            && !row.walks
            && usize::from(row.arity) == args.len();
        if is_row && takes_all(&self.heap, &row, args) && is_list(&self.heap, receiver) {
            let (names, classes, heap) = (&self.names, &self.classes, &mut self.heap);
            value_of(call_list(self.alloc, names, classes, heap, native, receiver, args))
        } else {
            None
        }
    }

    fn map_row(&mut self, name: &str, receiver: Value, args: &[Value]) -> Option<Value> {
        let Ok(arity) = u8::try_from(args.len()) else {
            return None;
        };
        let table = built_in();
        let Some(native) = table.find(name, Kind::Map, arity) else {
            return None;
        };
        let row = *table.row(native);
        let is_row = matches!(row.kind, Kind::Map)
            && !row.walks
            && usize::from(row.arity) == args.len();
        if is_row && takes_all(&self.heap, &row, args) && is_map(&self.heap, receiver) {
            let (names, classes, heap) = (&self.names, &self.classes, &mut self.heap);
            value_of(call_map(self.alloc, names, classes, heap, native, receiver, args))
        } else {
            None
        }
    }

    fn text_row(&mut self, name: &str, receiver: Value, args: &[Value]) -> Option<Value> {
        let Ok(arity) = u8::try_from(args.len()) else {
            return None;
        };
        let table = built_in();
        let Some(native) = table.find(name, Kind::String, arity) else {
            return None;
        };
        let row = *table.row(native);
        let is_row = matches!(row.kind, Kind::String)
            && !row.walks
            && usize::from(row.arity) == args.len();
        if is_row && takes_all(&self.heap, &row, args) && is_receiver(&self.heap, receiver) {
            let (names, classes, heap) = (&self.names, &self.classes, &mut self.heap);
            value_of(call_string(self.alloc, names, classes, heap, native, receiver, args))
        } else {
            None
        }
    }

    fn text(&mut self, text: &str) -> Option<Value> {
        match self.heap.make_text(text) {
            Ok(id) => Some(Value::Obj(id)),
            Err(_) => None,
        }
    }

    /// A list that grows by one element after the other, calls that read the whole of it, and one that takes it all away.
    fn lists(&mut self, size: i32) -> Option<()> {
        let Ok(list) = self.heap.make_list(Vec::new(self.alloc)) else {
            return None;
        };
        let list = Value::Obj(list);
        for n in 0..size {
            self.list_row("add", list, &[Value::Int(n)])?;
            self.list_row("putAt", list, &[Value::Int(-1), Value::Int(n)])?;
        }
        let reverse = self.list_row("reverse", list, &[])?;
        let both = self.list_row("plus", list, &[reverse])?;
        self.list_row("addAll", both, &[list])?;
        for name in ["take", "drop", "multiply"] {
            self.list_row(name, both, &[Value::Int(2)])?;
        }
        for n in 0..size {
            is(
                self.list_row("getAt", reverse, &[Value::Int(n)])?,
                self.list_row("pop", list, &[])?,
            )?;
        }
        is(self.list_row("isEmpty", list, &[])?, Value::Bool(true))
    }

    /// A map that grows by one entry after the other, and calls that read the whole of it.
    fn maps(&mut self, size: i32) -> Option<()> {
        let Ok(map) = self.heap.make_map() else {
            return None;
        };
        let map = Value::Obj(map);
        for n in 0..size {
            self.map_row("put", map, &[Value::Int(n), Value::Int(n)])?;
        }
        let copy = self.map_row("plus", map, &[map])?;
        self.map_row("putAll", map, &[copy])?;
        for n in 0..size {
            is(self.map_row("get", copy, &[Value::Int(n)])?, Value::Int(n))?;
        }
        let keys = self.map_row("keySet", map, &[])?;
        self.map_row("values", map, &[])?;
        is(self.list_row("size", keys, &[])?, Value::Int(size))
    }

    /// Calls that read the whole of a text, or make one as long.
    fn texts(&mut self, size: i32) -> Option<()> {
        let (blank, letter) = (self.text(" ")?, self.text("a")?);
        let (piece, absent) = (self.text("aa ")?, self.text("aaab")?);
        let text = self.text_row("multiply", piece, &[Value::Int(size)])?;
        let replaced = self.text_row("replace", text, &[blank, letter])?;
        for name in ["reverse", "trim", "toList"] {
            self.text_row(name, text, &[])?;
        }
        for name in ["indexOf", "lastIndexOf"] {
            is(self.text_row(name, text, &[absent])?, Value::Int(-1))?;
        }
        self.text_row("compareTo", text, &[replaced])?;
        self.text_row("padLeft", text, &[Value::Int(1), piece])?;
        self.text_row("substring", text, &[Value::Int(1)])?;
        let pieces = self.text_row("tokenize", text, &[])?;
        is(self.list_row("size", pieces, &[])?, Value::Int(size))?;
        let count = self.text_row("count", replaced, &[letter])?;
        is(count, self.text_row("size", text, &[])?)
    }
}
