use gv_accessors::{Known, convert};
use gv_base::{Names, OutOfMemory};
use gv_events::Words;
use gv_lex::lex;
use gv_stmts::parse;
use gv_tree::{Answer, Atom, Expr, Member, Method, Param, Script, Stmt, Top, TypeTree, VarType};
use std::alloc::Global;
use std::test::Fail;

fn known(names: &mut Names) -> Result<Known, OutOfMemory> {
    let words = Words {
        it: names.intern("it")?,
        field: names.intern("Field")?,
        groovy: names.intern("groovy")?,
        transform: names.intern("transform")?,
    };
    Ok(Known {
        declare: gv_declare::Known::new(names)?,
        words,
        value: names.intern("#v")?,
    })
}

fn type_text(names: &Names, class: VarType) -> &str {
    match class {
        VarType::Def => "def",
        VarType::Typed(TypeTree::Int(_)) => "int",
        VarType::Typed(TypeTree::Long(_)) => "long",
        VarType::Typed(TypeTree::Boolean(_)) => "boolean",
        VarType::Typed(TypeTree::Class(ident)) => names.text(ident.name),
    }
}

fn name_text<'a>(names: &'a Names, x: &Expr) -> &'a str {
    match x {
        Expr::Atom(_, Atom::Name(name)) => names.text(*name),
        _ => "..",
    }
}

// A body of the two forms that accessors have, and `..` for all others.
fn body_text(alloc: Global, names: &Names, body: &[Stmt]) -> Result<String, OutOfMemory> {
    match body {
        [Stmt::Return(_, Some(x))] => format!(in alloc; "return {}", name_text(names, x.get())),
        [Stmt::Expr(x)] => match x.get() {
            Expr::Assign(_, _, target, source) => format!(in alloc;
                "{} = {}",
                name_text(names, target.get()),
                name_text(names, source.get())
            ),
            _ => format!(in alloc; ".."),
        },
        _ => format!(in alloc; ".."),
    }
}

fn params_text(alloc: Global, names: &Names, params: &[Param]) -> Result<String, OutOfMemory> {
    let mut text = String::new(alloc);
    for param in params {
        let class = match param.written {
            Some(class) => type_text(names, class),
            None => "_",
        };
        let dots = if param.is_rest { "..." } else { "" };
        let one = format!(in alloc; "{class}{dots} {};", names.text(param.ident.name))?;
        text.push_str(one.as_str())?;
    }
    Ok(text)
}

fn method_text(alloc: Global, names: &Names, method: &Method) -> Result<String, OutOfMemory> {
    let word = if method.modifiers.is_static {
        "static "
    } else {
        ""
    };
    let answer = match method.answer {
        Answer::Void => "void",
        Answer::Value(class) => type_text(names, class),
    };
    let name = names.text(method.ident.name);
    let params = params_text(alloc, names, method.params.as_slice())?;
    let body = body_text(alloc, names, method.body.as_slice())?;
    format!(in alloc; "{word}{answer} {name}({params}) {{ {body} }}\n")
}

fn members_text(alloc: Global, names: &Names, members: &[Member]) -> Result<String, OutOfMemory> {
    let mut text = String::new(alloc);
    for member in members {
        match member {
            Member::Method(method) => {
                text.push_str(method_text(alloc, names, method)?.as_str())?;
            }
            _ => text.push_str("-\n")?,
        }
    }
    Ok(text)
}

// A line for each member of a class, and for each other top.
fn script_text(alloc: Global, names: &Names, tops: &[Top]) -> Result<String, OutOfMemory> {
    let mut text = String::new(alloc);
    for top in tops {
        match top {
            Top::Class(class) => {
                let members = members_text(alloc, names, class.members.as_slice())?;
                text.push_str(members.as_str())?;
            }
            Top::Method(method) => {
                text.push_str(method_text(alloc, names, method)?.as_str())?;
            }
            _ => text.push_str("-\n")?,
        }
    }
    Ok(text)
}

fn parsed(
    alloc: Global,
    file: u8,
    names: &mut Names,
    source: &str,
) -> Result<Option<Script>, OutOfMemory> {
    if source.len() > 1000 {
        return Ok(None);
    }
    let Ok(tokens) = lex(alloc, file, source.as_bytes(), names) else {
        return Ok(None);
    };
    match parse(alloc, tokens.as_slice()) {
        Ok(script) => Ok(Some(script)),
        Err(_) => Ok(None),
    }
}

// What the last script is converted to, of one or two.
fn converted(alloc: Global, first: &str, last: &str) -> Result<String, Fail> {
    let mut names = Names::new(alloc);
    let mut scripts = Vec::new(alloc);
    for source in [first, last] {
        if let Some(script) = parsed(alloc, 0, &mut names, source)? {
            scripts.push(script)?;
        }
    }
    let known = known(&mut names)?;
    let made = convert(alloc, &known, &mut names, scripts)?;
    match made.as_slice() {
        [_, script] => Ok(script_text(alloc, &names, script.tops.as_slice())?),
        _ => Ok(format!(in alloc; "no tree")?),
    }
}

const BOTH: &str = "int getP() { return p }\nvoid setP(int #v;) { p = #v }\n";

#[test]
fn accessors_of_classes(rt: HostRuntime) -> Result<(), Fail> {
    let rows = [
        (
            "int p",
            "-\nint getP() { return p }\nvoid setP(int #v;) { p = #v }\n",
        ),
        (
            "def p = 1",
            "-\ndef getP() { return p }\nvoid setP(def #v;) { p = #v }\n",
        ),
        (
            "static boolean p",
            "-\nstatic boolean getP() { return p }\nstatic void setP(boolean #v;) { p = #v }\n",
        ),
        ("final long p = 1", "-\nlong getP() { return p }\n"),
        ("private int p; public int q; protected int r", "-\n-\n-\n"),
        // in order, behind the other members
        (
            "A a, _b; def m() { }",
            "-\ndef m() { .. }\nA getA() { return a }\nvoid setA(A #v;) { a = #v }\n\
             A get_b() { return _b }\nvoid set_b(A #v;) { _b = #v }\n",
        ),
        (
            "int p, P",
            "-\nint getP() { return p }\nvoid setP(int #v;) { p = #v }\n",
        ),
        // what is written stays alone
        (
            "int p; def getP() { }",
            "-\ndef getP() { .. }\nvoid setP(int #v;) { p = #v }\n",
        ),
        (
            "int p; def getP(q = 1) { }",
            "-\ndef getP(_ q;) { .. }\nvoid setP(int #v;) { p = #v }\n",
        ),
        (
            "int p; def setP(Integer q) { }",
            "-\ndef setP(Integer q;) { .. }\nint getP() { return p }\n",
        ),
        (
            "def p; def setP(q) { }",
            "-\ndef setP(_ q;) { .. }\ndef getP() { return p }\n",
        ),
        // methods with other parameters don't count
        (
            "def p; def setP(int q) { }; def getP(q) { }",
            "-\ndef setP(int q;) { .. }\ndef getP(_ q;) { .. }\ndef getP() { return p }\nvoid setP(def #v;) { p = #v }\n",
        ),
        (
            "int p; def setP(int... q) { }",
            "-\ndef setP(int... q;) { .. }\nint getP() { return p }\nvoid setP(int #v;) { p = #v }\n",
        ),
    ];
    let alloc = rt.alloc();
    for (members, wanted) in rows {
        let source = format!(in alloc; "class A {{ {members} }}")?;
        let found = converted(alloc, "", source.as_str())?;
        assert_eq!(rt; found.as_str(), wanted);
    }
    Ok(())
}

#[test]
fn accessors_of_scripts(rt: HostRuntime) -> Result<(), Fail> {
    let alloc = rt.alloc();
    let both = format!(in alloc; "-\ndef m() {{ .. }}\n{BOTH}")?;
    let rows = [
        ("", "@Field int p; def m() { }", both.as_str()),
        (
            "",
            "@groovy.transform.Field int p; def m() { }",
            both.as_str(),
        ),
        ("", "@Other int p; def m() { }", "-\ndef m() { .. }\n"),
        ("", "@Field final int p = 1", "-\nint getP() { return p }\n"),
        ("", "int p", "-\n"),
        // the methods of all files are those of one class
        (
            "def getP() { }",
            "@Field int p",
            "-\nvoid setP(int #v;) { p = #v }\n",
        ),
        ("@Field int p", "@Field int p", "-\n"),
        (
            "class A { int p }; @Field int q",
            "@Field int p; def m() { }",
            both.as_str(),
        ),
    ];
    for (first, last, wanted) in rows {
        let found = converted(alloc, first, last)?;
        assert_eq!(rt; found.as_str(), wanted, "{last}");
    }
    Ok(())
}
