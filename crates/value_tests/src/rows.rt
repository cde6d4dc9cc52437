use gv_base::{ExceptionKind, Value};
use gv_rows::{Done, Message, Walk, from_end, integer_of, natural, null_argument, number_in};

#[test]
fn places_count_from_the_end(rt: HostRuntime) {
    assert_eq!(rt; from_end(3, 2), 2);
    assert_eq!(rt; from_end(3, 3), 3);
    assert_eq!(rt; from_end(3, -1), 2);
    assert_eq!(rt; from_end(3, -4), -1);
    assert_eq!(rt; from_end(0, -1), -1);
    assert_eq!(rt; natural(-1), None);
    assert_eq!(rt; natural(7), Some(7));
    assert_eq!(rt; integer_of(5), Value::Int(5));
    assert_eq!(rt; integer_of(4294967296), Value::Int(2147483647));
    assert_eq!(rt; number_in(Value::Long(-4)), Some(-4));
    assert_eq!(rt; number_in(Value::Bool(true)), None);
}

#[test]
fn walks_end_where_their_ranges_do(rt: HostRuntime) {
    assert_eq!(rt; Walk::new(5, 1, -1, false).len(), 4);
    assert_eq!(rt; Walk::new(5, 1, -1, true).len(), 3);
    assert_eq!(rt; Walk::new(5, -1, 0, false).len(), 5);
    assert_eq!(rt; Walk::new(0, 0, 0, true).len(), 0);
}

#[test]
fn exceptions_have_their_messages(rt: HostRuntime) {
    assert_eq!(rt; Message::none().text(), None);
    let Done::Thrown(kind, message) = null_argument(rt.alloc(), "take") else {
        return;
    };
    assert_eq!(rt; kind, ExceptionKind::IllegalArgumentException);
    assert_eq!(rt; message.text(), Some("Null argument: take"));
}
