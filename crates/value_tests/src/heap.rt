use gv_base::{MetaObject, Text, Value};
use gv_heap::{Bound, Heap, HeapError, Items, MapKey, Object, Origin, Part, Slot};
use std::test::Fail;

// The list itself takes one of the four cells.
#[test]
fn a_list_grows_by_the_cells_that_are_left(rt: HostRuntime) -> Result<(), Fail> {
    let mut heap = Heap::new(rt.alloc(), 4);
    let list = heap.make_list(Vec::new(rt.alloc()))?;
    heap.push(list, Value::Int(1))?;
    heap.insert(list, 0, Value::Null)?;
    heap.push(list, Value::Int(2))?;
    let refused = heap.push(list, Value::Int(3));
    assert_eq!(rt; refused, Err(HeapError::CellsSpent));
    assert_eq!(rt;
        heap.list(list),
        [Value::Null, Value::Int(1), Value::Int(2)].as_slice()
    );
    heap.set_item(list, 1, Value::Bool(true));
    assert_eq!(rt; heap.remove_item(list, 0), Value::Null);
    assert_eq!(rt;
        heap.list(list),
        [Value::Bool(true), Value::Int(2)].as_slice()
    );
    heap.clear(list);
    assert_eq!(rt; heap.list(list).len(), 0);
    assert_eq!(rt; heap.push(list, Value::Int(3)), Err(HeapError::CellsSpent));
    Ok(())
}

#[test]
fn an_empty_list_takes_a_cell(rt: HostRuntime) {
    let mut heap = Heap::new(rt.alloc(), 0);
    let refused = heap.make_list(Vec::new(rt.alloc()));
    assert_eq!(rt; refused, Err(HeapError::CellsSpent));
    assert_eq!(rt; heap.cells_left(), 0);
}

// A String is one cell, and one more for each eight bytes begun.
#[test]
fn texts_take_cells_by_their_bytes(rt: HostRuntime) {
    for (text, price) in [
        ("", 1),
        ("a", 2),
        ("12345678", 2),
        ("123456789", 3),
        ("Größe Größe", 3),
    ] {
        let mut heap = Heap::new(rt.alloc(), price);
        assert_eq!(rt; heap.make_text(text), Ok(0), "{text}");
        assert_eq!(rt; heap.cells_left(), 0, "{text}");
        let mut heap = Heap::new(rt.alloc(), price - 1);
        assert_eq!(rt; heap.make_text(text), Err(HeapError::CellsSpent), "{text}");
        assert_eq!(rt; heap.cells_left(), price - 1, "{text}");
    }
}

// The map itself takes one of the four cells, and a key that is there takes none.
#[test]
fn a_key_that_is_there_keeps_its_place(rt: HostRuntime) -> Result<(), Fail> {
    let mut heap = Heap::new(rt.alloc(), 4);
    let map = heap.make_map()?;
    heap.put(map, MapKey::Long(1), Value::Long(1), Value::Null)?;
    heap.put(map, MapKey::Null, Value::Null, Value::Null)?;
    heap.put(map, MapKey::Int(1), Value::Int(1), Value::Int(4))?;
    heap.put(map, MapKey::Long(1), Value::Obj(0), Value::Int(7))?;
    let refused = heap.put(map, MapKey::Int(2), Value::Null, Value::Null);
    assert_eq!(rt; refused, Err(HeapError::CellsSpent));
    let kept = [
        (Value::Long(1), Value::Int(7)),
        (Value::Null, Value::Null),
        (Value::Int(1), Value::Int(4)),
    ];
    let entries = heap.map(map);
    assert_eq!(rt; entries.len(), kept.len());
    for (place, (shown, value)) in kept.into_iter().enumerate() {
        assert_eq!(rt; entries.at(place).1, Slot { shown, value });
    }
    Ok(())
}

#[test]
fn a_text_is_no_key_of_a_gstring(rt: HostRuntime) -> Result<(), Fail> {
    let mut heap = Heap::new(rt.alloc(), 9);
    let map = heap.make_map()?;
    let text = MapKey::Text(Text::from_str(rt.alloc(), "k")?);
    let gtext = MapKey::GText(Text::from_str(rt.alloc(), "k")?);
    heap.put(map, gtext, Value::Obj(1), Value::Int(3))?;
    assert_eq!(rt; heap.remove_key(map, &text), None);
    heap.put(map, text, Value::Obj(2), Value::Int(4))?;
    let gtext = MapKey::GText(Text::from_str(rt.alloc(), "k")?);
    assert_eq!(rt; heap.remove_key(map, &gtext), Some(Value::Int(3)));
    assert_eq!(rt; heap.map(map).get(&gtext), None);
    assert_eq!(rt; heap.map(map).len(), 1);
    heap.clear(map);
    assert!(rt; !heap.map(map).contains(&gtext));
    Ok(())
}

#[test]
fn each_object_takes_its_price(rt: HostRuntime) -> Result<(), Fail> {
    let mut heap = Heap::new(rt.alloc(), 100);
    let list = heap.make_list(vec![in rt.alloc(); Value::Null, Value::Int(1)]?)?;
    assert_eq!(rt; (list, heap.cells_left()), (0, 97));
    let map = heap.make_map()?;
    assert_eq!(rt; (map, heap.cells_left()), (1, 96));
    let literal = heap.make_literal("x")?;
    assert_eq!(rt; (literal, heap.cells_left()), (2, 96));
    let entry = heap.make_entry(Value::Null, Value::Int(2))?;
    assert_eq!(rt; (entry, heap.cells_left()), (3, 95));
    let meta = heap.make_meta(MetaObject::Class {
        of: Value::Class(4),
        side: false,
    })?;
    assert_eq!(rt; (meta, heap.cells_left()), (4, 94));
    let range = heap.make_range(5, 1, true, false)?;
    assert_eq!(rt; (range, heap.cells_left()), (5, 93));
    let instance = heap.make_instance(7, vec![in rt.alloc(); Value::Null, Value::Null]?, 1)?;
    assert_eq!(rt; (instance, heap.cells_left()), (6, 90));
    let place = heap.make_place(Value::Int(5), true)?;
    assert_eq!(rt; (place, heap.cells_left()), (0, 89));
    let free = heap.make_place(Value::Null, false)?;
    assert_eq!(rt; (free, heap.cells_left()), (1, 89));
    heap.take_cell()?;
    assert_eq!(rt; heap.cells_left(), 88);
    heap.set_field(instance, 1, Value::Int(9));
    heap.set_place(place, Value::Bool(false));
    assert_eq!(rt; heap.place(place), Value::Bool(false));
    assert_eq!(rt; heap.text(literal), "x");
    assert_eq!(rt;
        heap.instance(instance).fields.as_slice(),
        [Value::Null, Value::Int(9)].as_slice()
    );
    let ends = match heap.at(range) {
        Object::Range(range) => (range.ends(), range.open_end(), range.long()),
        _ => ((0, 0), false, false),
    };
    assert_eq!(rt; ends, ((5, 1), true, false));
    Ok(())
}

#[test]
fn closures_and_gstrings_take_their_prices(rt: HostRuntime) -> Result<(), Fail> {
    let mut heap = Heap::new(rt.alloc(), 100);
    let closure = heap.make_closure(2, 1, Value::Class(8), vec![in rt.alloc(); 0, 1]?)?;
    assert_eq!(rt; (closure, heap.cells_left()), (0, 97));
    let copy = heap.copy_closure(closure, Value::Int(1), 1)?;
    assert_eq!(rt; (copy, heap.cells_left()), (1, 94));
    let args = Items::from_vec(vec![in rt.alloc(); Value::Int(3)]?);
    let curried = heap.make_bound(Bound::Curried {
        of: closure,
        at: 0,
        args,
    })?;
    assert_eq!(rt; (curried, heap.cells_left()), (2, 93));
    let piece = Part::Piece(Text::from_str(rt.alloc(), "n = ")?);
    let parts = vec![in rt.alloc(); piece, Part::Value(Value::Int(1)), Part::Lazy(closure)]?;
    let gstring = heap.make_gstring(parts)?;
    assert_eq!(rt; (gstring, heap.cells_left()), (3, 90));
    heap.set_delegate(closure, Value::Null);
    heap.set_strategy(closure, 4);
    let changed = heap.closure(closure);
    assert_eq!(rt; (changed.delegate, changed.strategy), (Value::Null, 4));
    let copied = heap.closure(copy);
    assert_eq!(rt; (copied.delegate, copied.strategy), (Value::Int(1), 1));
    assert!(rt; matches!(&copied.origin, Origin::Written { body: 2, .. }));
    assert_eq!(rt; heap.closure(curried).delegate, Value::Obj(0));
    assert_eq!(rt; heap.gstring(gstring).len(), 3);
    Ok(())
}
