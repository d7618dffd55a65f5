//! A node as one line: its form, with names and what stands in the form, and in brackets its parts.

use itoa::Buffer;
use std::alloc::AllocError;
use tla_ast::{Decl, Def, Form, Group, Key, Node, Path, Place};

/// Appends the number in decimal digits.
fn push_number(out: &mut Vec<u8>, number: u64) -> Result<(), AllocError> {
    let mut buffer = Buffer::new();
    out.extend_from_slice(buffer.format(number).as_bytes())
}

/// Appends a place as `line:column`.
pub(crate) fn push_place(out: &mut Vec<u8>, place: &Place) -> Result<(), AllocError> {
    push_number(out, place.line)?;
    out.push(b':')?;
    push_number(out, place.column)
}

/// Appends a text and, where places are shown, its place behind `@`.
fn push_named(
    out: &mut Vec<u8>,
    text: &[u8],
    place: &Place,
    places: bool,
) -> Result<(), AllocError> {
    out.extend_from_slice(text)?;
    if places {
        out.push(b'@')?;
        push_place(out, place)?;
    }
    Ok(())
}

fn push_decl(out: &mut Vec<u8>, decl: &Decl, places: bool) -> Result<(), AllocError> {
    push_named(out, decl.name.bytes(), &decl.place, places)
}

/// Appends names with `,` between them.
fn push_decls(out: &mut Vec<u8>, decls: &[Decl], places: bool) -> Result<(), AllocError> {
    for (i, decl) in decls.iter().enumerate() {
        if i > 0 {
            out.push(b',')?;
        }
        push_decl(out, decl, places)?;
    }
    Ok(())
}

#[cycle(nodes)]
fn push_group(out: &mut Vec<u8>, group: &Group, places: bool) -> Result<(), AllocError> {
    push_decls(out, group.names.as_slice(), places)?;
    if let Some(domain) = &group.domain {
        out.extend_from_slice(b" in ")?;
        push_node(out, domain.get(), places)?;
    }
    Ok(())
}

#[cycle(nodes)]
fn push_def(out: &mut Vec<u8>, def: &Def, places: bool) -> Result<(), AllocError> {
    push_named(out, def.name.bytes(), &def.place, places)?;
    if !def.params.is_empty() {
        out.push(b'(')?;
        push_decls(out, def.params.as_slice(), places)?;
        out.push(b')')?;
    }
    out.extend_from_slice(b"==")?;
    push_node(out, def.body.get(), places)
}

#[cycle(nodes)]
fn push_key(out: &mut Vec<u8>, key: &Key, places: bool) -> Result<(), AllocError> {
    match key {
        Key::Field(name) => {
            out.push(b'.')?;
            out.extend_from_slice(name.bytes())
        }
        Key::At(node) => {
            out.push(b'[')?;
            push_node(out, node, places)?;
            out.extend_from_slice(b"]")
        }
    }
}

#[cycle(nodes)]
fn push_path(out: &mut Vec<u8>, path: &Path, places: bool) -> Result<(), AllocError> {
    out.push(b'!')?;
    for key in path.keys.as_slice() {
        push_key(out, key, places)?;
    }
    Ok(())
}

/// The word before the names of a form.
fn word_of(form: &Form) -> &'static [u8] {
    match form {
        Form::Prime => b"'",
        Form::Index => b"Index",
        Form::Field(_) => b".",
        Form::Enum => b"Enum",
        Form::Filter(_) => b"Filter ",
        Form::Image(_) => b"Image ",
        Form::Tuple => b"Tuple",
        Form::Function(_) => b"Function ",
        Form::FunctionSet => b"->",
        Form::Except(_) => b"EXCEPT",
        Form::Record(_) => b"Record",
        Form::RecordSet(_) => b"RecordSet",
        Form::BoxAct => b"Box",
        Form::AngleAct => b"Angle",
        Form::Junction(true) => b"AND",
        Form::Junction(false) => b"OR",
        Form::Quant { all: true, .. } => b"\\A",
        Form::Quant { all: false, .. } => b"\\E",
        Form::Choose(_) => b"CHOOSE",
        Form::If => b"IF",
        Form::Case { other: true } => b"CASE-OTHER",
        Form::Case { other: false } => b"CASE",
        Form::Let(_) => b"LET",
        Form::At => b"@",
        Form::Fair { strong: true } => b"SF",
        Form::Fair { strong: false } => b"WF",
        _ => b"",
    }
}

/// Whether a form has no parts whatever the text.
fn is_leaf(form: &Form) -> bool {
    matches!(
        form,
        Form::Name(_) | Form::Number(_) | Form::Str(_) | Form::At
    )
}

fn push_texts(out: &mut Vec<u8>, form: &Form) -> Result<(), AllocError> {
    match form {
        Form::Name(text) | Form::Prefix(text) | Form::Infix(text) => out.extend_from_slice(
            text.bytes(),
        ),
        Form::Field(text) | Form::Filter(text) | Form::Image(text) | Form::Function(text) => {
            out.extend_from_slice(text.bytes())
        }
        Form::Call(text) => {
            out.extend_from_slice(text.bytes())?;
            out.extend_from_slice(b"()")
        }
        Form::Str(text) => {
            out.push(b'"')?;
            out.extend_from_slice(text.bytes())?;
            out.extend_from_slice(b"\"")
        }
        Form::Number(value) => {
            let mut buffer = Buffer::new();
            out.extend_from_slice(buffer.format(*value).as_bytes())
        }
        _ => Ok(()),
    }
}

/// Appends what a form holds beside its parts, in parentheses.
#[cycle(nodes)]
fn push_inside(out: &mut Vec<u8>, form: &Form, places: bool) -> Result<(), AllocError> {
    match form {
        Form::Record(names) | Form::RecordSet(names) => {
            for (i, name) in names.as_slice().iter().enumerate() {
                out.push(if i == 0 { b'(' } else { b',' })?;
                out.extend_from_slice(name.bytes())?;
            }
            out.extend_from_slice(b")")
        }
        Form::Quant { groups, .. } => {
            for (i, group) in groups.as_slice().iter().enumerate() {
                out.push(if i == 0 { b'(' } else { b';' })?;
                push_group(out, group, places)?;
            }
            out.extend_from_slice(b")")
        }
        Form::Choose(group) => {
            out.push(b'(')?;
            push_group(out, group, places)?;
            out.extend_from_slice(b")")
        }
        Form::Let(defs) => {
            for (i, def) in defs.as_slice().iter().enumerate() {
                out.push(if i == 0 { b'(' } else { b';' })?;
                push_def(out, def, places)?;
            }
            out.extend_from_slice(b")")
        }
        Form::Except(paths) => {
            for (i, path) in paths.as_slice().iter().enumerate() {
                out.push(if i == 0 { b'(' } else { b';' })?;
                push_path(out, path, places)?;
            }
            out.extend_from_slice(b")")
        }
        _ => Ok(()),
    }
}

/// Appends a node, with its places behind `@` where `places`.
#[cycle(nodes)]
pub(crate) fn push_node(out: &mut Vec<u8>, node: &Node, places: bool) -> Result<(), AllocError> {
    out.extend_from_slice(word_of(&node.form))?;
    push_texts(out, &node.form)?;
    push_inside(out, &node.form, places)?;
    if places {
        out.push(b'@')?;
        push_place(out, &node.place)?;
    }
    if is_leaf(&node.form) {
        return Ok(());
    }
    out.push(b'[')?;
    for (i, part) in node.parts.as_slice().iter().enumerate() {
        if i > 0 {
            out.push(b' ')?;
        }
        push_node(out, part, places)?;
    }
    out.extend_from_slice(b"]")
}
