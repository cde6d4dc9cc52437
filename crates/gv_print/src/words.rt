//! Texts of what has no parts.

ghost use Rattle.std.specs.Prelude.{◌≡◌, true, OnOk};
ghost use Rattle.gv_print.specs.Texts as spec;

use crate::so_far::{Out, part, put_if};
use crate::strings::put_string;
use gv_base::{Names, OutOfMemory};
use gv_tree::{
    Answer, AssignOp, Atom, BinaryOp, Ident, Leave, MemberOp, Modifiers, TypeOp, TypeTree, UnaryOp,
    VarType,
};
use itoa::Buffer;

pub(crate) fn unary_text(op: UnaryOp) -> &'static str
    ensures { result.now ≡ spec.unary_text op }
{
    match op {
        UnaryOp::Not => "!",
        UnaryOp::Minus => "-",
        UnaryOp::Plus => "+",
        UnaryOp::Increment => "++",
        UnaryOp::Decrement => "--",
        UnaryOp::IncrementAfter => "++",
        UnaryOp::DecrementAfter => "--",
    }
}

pub(crate) fn binary_text(op: BinaryOp) -> &'static str
    ensures { result.now ≡ spec.binary_text op }
{
    match op {
        BinaryOp::Multiply => " * ",
        BinaryOp::Mod => " % ",
        BinaryOp::Plus => " + ",
        BinaryOp::Minus => " - ",
        BinaryOp::LeftShift => " << ",
        BinaryOp::RightShift => " >> ",
        BinaryOp::RightShiftUnsigned => " >>> ",
        BinaryOp::Range => " .. ",
        BinaryOp::HalfOpenRange => " ..< ",
        BinaryOp::Less => " < ",
        BinaryOp::LessEqual => " <= ",
        BinaryOp::Greater => " > ",
        BinaryOp::GreaterEqual => " >= ",
        BinaryOp::In => " in ",
        BinaryOp::Equal => " == ",
        BinaryOp::NotEqual => " != ",
        BinaryOp::Compare => " <=> ",
        BinaryOp::BitAnd => " & ",
        BinaryOp::BitXor => " ^ ",
        BinaryOp::BitOr => " | ",
        BinaryOp::And => " && ",
        BinaryOp::Or => " || ",
    }
}

pub(crate) fn type_op_text(op: TypeOp) -> &'static str
    ensures { result.now ≡ spec.type_op_text op }
{
    match op {
        TypeOp::InstanceOf => " instanceof ",
        TypeOp::As => " as ",
    }
}

pub(crate) fn assign_text(op: AssignOp) -> &'static str
    ensures { result.now ≡ spec.assign_text op }
{
    match op {
        AssignOp::Plain => " = ",
        AssignOp::Plus => " += ",
        AssignOp::Minus => " -= ",
        AssignOp::Multiply => " *= ",
        AssignOp::Mod => " %= ",
        AssignOp::LeftShift => " <<= ",
        AssignOp::RightShift => " >>= ",
        AssignOp::RightShiftUnsigned => " >>>= ",
        AssignOp::BitAnd => " &= ",
        AssignOp::BitOr => " |= ",
        AssignOp::BitXor => " ^= ",
    }
}

pub(crate) fn member_text(op: MemberOp) -> &'static str
    ensures { result.now ≡ spec.member_text op }
{
    match op {
        MemberOp::Dot => ".",
        MemberOp::Safe => "?.",
        MemberOp::Spread => "*.",
        MemberOp::Pointer => ".&",
    }
}

pub(crate) fn leave_text(leave: Leave) -> &'static str
    ensures { result.now ≡ spec.leave_text leave }
{
    match leave {
        Leave::Break => "break",
        Leave::Continue => "continue",
    }
}

/// Whether an operator stands behind its operand.
pub(crate) fn is_behind(op: UnaryOp) -> bool
    ensures { result ≡ spec.is_behind op }
{
    matches!(op, UnaryOp::IncrementAfter | UnaryOp::DecrementAfter)
}

/// Whether an operator is one of the two signs.
fn is_sign(op: UnaryOp) -> bool
    ensures { result ≡ spec.is_sign op }
{
    matches!(op, UnaryOp::Minus | UnaryOp::Plus)
}

/// The blank between a sign and its operand, where that begins with a digit or a sign.
pub(crate) fn gap(op: UnaryOp, begins_signed: bool) -> &'static str
    ensures { result.now ≡ spec.gap op begins_signed }
{
    if is_sign(op) && begins_signed {
        " "
    } else {
        ""
    }
}

pub(crate) fn put_ident(names: &Names, ident: Ident, out: &mut Out) -> Result<(), OutOfMemory>
    ensures { OnOk result (out.new ≡ spec.ident_printed names.now ident out.old) }
{
    out.put(names.text(ident.name))
}

pub(crate) fn put_atom(names: &Names, atom: Atom, out: &mut Out) -> Result<(), OutOfMemory>
    ensures { OnOk result (out.new ≡ spec.atom_printed names.now atom out.old) }
{
    match atom {
        Atom::Null => out.put("null"),
        Atom::Bool(true) => out.put("true"),
        Atom::Bool(false) => out.put("false"),
        Atom::Int(number) => out.put(Buffer::new().format(number)),
        Atom::Long(number) => {
            out.put(Buffer::new().format(number))?;
            out.put("L")
        }
        Atom::Text(text) => put_string(names.text(text), out),
        Atom::Name(name) => out.put(names.text(name)),
        Atom::This => out.put("this"),
        Atom::Super => out.put("super"),
    }
}

pub(crate) fn put_type(names: &Names, class: TypeTree, out: &mut Out) -> Result<(), OutOfMemory>
    ensures { OnOk result (out.new ≡ spec.type_printed names.now class out.old) }
{
    match class {
        TypeTree::Int(_) => out.put("int"),
        TypeTree::Long(_) => out.put("long"),
        TypeTree::Boolean(_) => out.put("boolean"),
        TypeTree::Class(name) => put_ident(names, name, out),
    }
}

pub(crate) fn put_written(names: &Names, class: VarType, out: &mut Out) -> Result<(), OutOfMemory>
    ensures { OnOk result (out.new ≡ spec.written_printed names.now class out.old) }
{
    match class {
        VarType::Def => out.put("def"),
        VarType::Typed(class) => put_type(names, class, out),
    }
}

pub(crate) fn put_answer(names: &Names, answer: Answer, out: &mut Out) -> Result<(), OutOfMemory>
    ensures { OnOk result (out.new ≡ spec.answer_printed names.now answer out.old) }
{
    match answer {
        Answer::Void => out.put("void"),
        Answer::Value(class) => put_written(names, class, out),
    }
}

/// The type of a parameter, with `...` where it takes the rest.
pub(crate) fn put_param_type(
    names: &Names,
    is_rest: bool,
    class: Option<VarType>,
    out: &mut Out,
) -> Result<(), OutOfMemory>
    ensures { OnOk result (out.new ≡ spec.if_there (spec.param_type_printed names.now is_rest) class out.old) }
{
    let Some(class) = class else {
        return Ok(());
    };
    put_written(names, class, out)?;
    put_if(is_rest, "...", out)?;
    out.put(" ")
}

/// The type of the variable of a loop.
pub(crate) fn put_loop_type(
    names: &Names,
    class: Option<VarType>,
    out: &mut Out,
) -> Result<(), OutOfMemory>
    ensures { OnOk result (out.new ≡ spec.if_there (spec.loop_type_printed names.now) class out.old) }
{
    let Some(class) = class else {
        return Ok(());
    };
    put_written(names, class, out)?;
    out.put(" ")
}

/// The types of a catch.
pub(crate) fn put_types(
    names: &Names,
    classes: &[TypeTree],
    out: &mut Out,
) -> Result<(), OutOfMemory>
    ensures { OnOk result (out.new ≡ spec.types_printed names.now classes.now out.old) }
{
    if classes.is_empty() {
        return Ok(());
    }
    let mut is_first = true;
    for class in classes {
        part(is_first, " | ", out)?;
        put_type(names, *class, out)?;
        is_first = false;
    }
    out.put(" ")
}

/// Names with a text between them.
pub(crate) fn put_idents(
    names: &Names,
    between: &str,
    idents: &[Ident],
    out: &mut Out,
) -> Result<(), OutOfMemory>
    ensures { OnOk result (out.new ≡ spec.parted between.now (spec.ident_printed names.now) true idents.now out.old) }
{
    let mut is_first = true;
    for ident in idents {
        part(is_first, between, out)?;
        put_ident(names, *ident, out)?;
        is_first = false;
    }
    Ok(())
}

pub(crate) fn put_modifiers(modifiers: Modifiers, out: &mut Out) -> Result<(), OutOfMemory>
    ensures { OnOk result (out.new ≡ spec.modifiers_printed modifiers out.old) }
{
    put_if(modifiers.is_public, "public ", out)?;
    put_if(modifiers.is_private, "private ", out)?;
    put_if(modifiers.is_protected, "protected ", out)?;
    put_if(modifiers.is_static, "static ", out)?;
    put_if(modifiers.is_final, "final ", out)
}
