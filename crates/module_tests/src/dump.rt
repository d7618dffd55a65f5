//! The units of a module as one line, near to the text that they were read from: places stand behind `@` at names and facts and
//! before units, and `-` stands for a proof that is missing.

use itoa::Buffer;
use std::alloc::AllocError;
use tla_ast::{
    Decl, Def, Fact, Form, Group, Item, Module, Node, Place, Proof, Sort, Statement, Step,
    StepKind, Unit, UnitKind,
};

/// Appends the number in decimal digits.
fn push_number(out: &mut Vec<u8>, number: u128) -> Result<(), AllocError> {
    let mut buffer = Buffer::new();
    out.extend_from_slice(buffer.format(number).as_bytes())
}

/// Appends a place as `line:column`.
pub(crate) fn push_place(out: &mut Vec<u8>, place: &Place) -> Result<(), AllocError> {
    push_number(out, place.line as u128)?;
    out.push(b':')?;
    push_number(out, place.column as u128)
}

/// Appends `@` and a place.
fn push_at(out: &mut Vec<u8>, place: &Place) -> Result<(), AllocError> {
    out.push(b'@')?;
    push_place(out, place)
}

/// Appends what stands before the part of this number: nothing before the first.
fn push_between(out: &mut Vec<u8>, number: usize, between: &[u8]) -> Result<(), AllocError> {
    if number == 0 {
        return Ok(());
    }
    out.extend_from_slice(between)
}

/// Appends a name, its number of parameters behind `/` if it has any, and its place.
fn push_decl(out: &mut Vec<u8>, decl: &Decl) -> Result<(), AllocError> {
    out.extend_from_slice(decl.name.bytes())?;
    if decl.arity > 0 {
        out.push(b'/')?;
        push_number(out, decl.arity as u128)?;
    }
    push_at(out, &decl.place)
}

/// Appends names, with `,` between them.
fn push_decls(out: &mut Vec<u8>, decls: &[Decl]) -> Result<(), AllocError> {
    for (i, decl) in decls.iter().enumerate() {
        push_between(out, i, b",")?;
        push_decl(out, decl)?;
    }
    Ok(())
}

/// Appends the sign or word of a form.
fn push_form(out: &mut Vec<u8>, form: &Form) -> Result<(), AllocError> {
    match form {
        Form::Name(text) | Form::Call(text) | Form::Prefix(text) | Form::Infix(text) => {
            out.extend_from_slice(text.bytes())
        }
        Form::Number(value) => push_number(out, *value),
        Form::Index => out.extend_from_slice(b"Index"),
        Form::Enum => out.extend_from_slice(b"Enum"),
        Form::Junction(true) => out.extend_from_slice(b"AND"),
        Form::Let(_) => out.extend_from_slice(b"LET"),
        _ => out.extend_from_slice(b"other"),
    }
}

/// Appends the sign or word of a node and in brackets its parts, if it has any.
#[cycle(nodes)]
fn push_node(out: &mut Vec<u8>, node: &Node) -> Result<(), AllocError> {
    push_form(out, &node.form)?;
    if node.parts.is_empty() {
        return Ok(());
    }
    out.push(b'[')?;
    for (i, part) in node.parts.as_slice().iter().enumerate() {
        push_between(out, i, b" ")?;
        push_node(out, part)?;
    }
    out.extend_from_slice(b"]")
}

/// Appends expressions, with `,` between them.
fn push_nodes(out: &mut Vec<u8>, nodes: &[Node]) -> Result<(), AllocError> {
    for (i, node) in nodes.iter().enumerate() {
        push_between(out, i, b", ")?;
        push_node(out, node)?;
    }
    Ok(())
}

/// Appends bound names, with `;` between the groups.
fn push_groups(out: &mut Vec<u8>, groups: &[Group]) -> Result<(), AllocError> {
    for (i, group) in groups.iter().enumerate() {
        push_between(out, i, b"; ")?;
        push_decls(out, group.names.as_slice())?;
        if let Some(domain) = &group.domain {
            out.extend_from_slice(b" \\in ")?;
            push_node(out, domain.get())?;
        }
    }
    Ok(())
}

/// Appends a definition.
fn push_def(out: &mut Vec<u8>, def: &Def) -> Result<(), AllocError> {
    out.extend_from_slice(def.name.bytes())?;
    if !def.params.is_empty() {
        out.push(b'(')?;
        push_decls(out, def.params.as_slice())?;
        out.push(b')')?;
    }
    push_at(out, &def.place)?;
    out.extend_from_slice(b" == ")?;
    push_node(out, def.body.get())
}

/// Appends definitions, with `,` between them.
fn push_defs(out: &mut Vec<u8>, defs: &[Def]) -> Result<(), AllocError> {
    for (i, def) in defs.iter().enumerate() {
        push_between(out, i, b", ")?;
        push_def(out, def)?;
    }
    Ok(())
}

/// Appends an item; a constant stands behind `NEW` alone.
fn push_item(out: &mut Vec<u8>, item: &Item) -> Result<(), AllocError> {
    let (sort, decl, domain) = match item {
        Item::Given(node) => return push_node(out, node),
        Item::New { sort, decl, domain } => (sort, decl, domain),
    };
    out.extend_from_slice(match sort {
        Sort::Constant => b"NEW ",
        Sort::Variable => b"NEW VARIABLE ",
        Sort::State => b"NEW STATE ",
    })?;
    push_decl(out, decl)?;
    if let Some(set) = domain {
        out.extend_from_slice(b" \\in ")?;
        push_node(out, set.get())?;
    }
    Ok(())
}

/// Appends the items, if there are any, and the goal.
fn push_statement(out: &mut Vec<u8>, statement: &Statement) -> Result<(), AllocError> {
    for (i, item) in statement.items.as_slice().iter().enumerate() {
        out.extend_from_slice(if i == 0 { b"ASSUME " } else { b", " })?;
        push_item(out, item)?;
    }
    if !statement.items.is_empty() {
        out.extend_from_slice(b" PROVE ")?;
    }
    push_node(out, &statement.goal)
}

/// Appends a step token and its place.
fn push_token(
    out: &mut Vec<u8>,
    level: u128,
    label: &[u8],
    place: &Place,
) -> Result<(), AllocError> {
    out.push(b'<')?;
    push_number(out, level)?;
    out.push(b'>')?;
    out.extend_from_slice(label)?;
    push_at(out, place)
}

/// Appends a fact and its place.
fn push_fact(out: &mut Vec<u8>, fact: &Fact) -> Result<(), AllocError> {
    match fact {
        Fact::StepName {
            level,
            label,
            place,
        } => push_token(out, *level, label.bytes(), place),
        Fact::Plain { place, node } => {
            push_node(out, node)?;
            push_at(out, place)
        }
    }
}

/// Appends facts and, behind DEF, names.
fn push_cited(out: &mut Vec<u8>, facts: &[Fact], defs: &[Decl]) -> Result<(), AllocError> {
    for (i, fact) in facts.iter().enumerate() {
        out.extend_from_slice(if i == 0 { b" " } else { b", " })?;
        push_fact(out, fact)?;
    }
    if defs.is_empty() {
        return Ok(());
    }
    out.extend_from_slice(b" DEF ")?;
    push_decls(out, defs)
}

/// The word with which a step of this kind begins; nothing for an assertion.
fn word_of(kind: &StepKind) -> &'static [u8] {
    match kind {
        StepKind::Assert(_) => b"",
        StepKind::Case(_) => b"CASE ",
        StepKind::Suffices(_) => b"SUFFICES ",
        StepKind::Have(_) => b"HAVE ",
        StepKind::Take(_) => b"TAKE ",
        StepKind::Witness(_) => b"WITNESS ",
        StepKind::Pick(_, _) => b"PICK ",
        StepKind::Define(_) => b"DEFINE ",
        StepKind::Add { .. } => b"USE",
        StepKind::Hide { .. } => b"HIDE",
        StepKind::Qed => b"QED",
    }
}

/// Appends what a step does.
fn push_kind(out: &mut Vec<u8>, kind: &StepKind) -> Result<(), AllocError> {
    out.extend_from_slice(word_of(kind))?;
    match kind {
        StepKind::Assert(statement) | StepKind::Suffices(statement) => {
            push_statement(out, statement)
        }
        StepKind::Case(node) | StepKind::Have(node) => push_node(out, node),
        StepKind::Take(groups) => push_groups(out, groups.as_slice()),
        StepKind::Witness(nodes) => push_nodes(out, nodes.as_slice()),
        StepKind::Pick(groups, body) => {
            push_groups(out, groups.as_slice())?;
            out.extend_from_slice(b" : ")?;
            push_node(out, body)
        }
        StepKind::Define(defs) => push_defs(out, defs.as_slice()),
        StepKind::Add { facts, defs } | StepKind::Hide { facts, defs } => {
            push_cited(out, facts.as_slice(), defs.as_slice())
        }
        StepKind::Qed => Ok(()),
    }
}

/// Appends a step, with its proof.
#[cycle(proofs)]
fn push_step(out: &mut Vec<u8>, step: &Step) -> Result<(), AllocError> {
    push_token(out, step.level, step.label.bytes(), &step.place)?;
    out.push(b' ')?;
    push_kind(out, &step.kind)?;
    out.push(b' ')?;
    push_proof(out, &step.proof)
}

/// Appends a proof.
#[cycle(proofs)]
fn push_proof(out: &mut Vec<u8>, proof: &Proof) -> Result<(), AllocError> {
    match proof {
        Proof::Missing => out.extend_from_slice(b"-"),
        Proof::Obvious(place) => {
            out.extend_from_slice(b"OBVIOUS")?;
            push_at(out, place)
        }
        Proof::Omitted(place) => {
            out.extend_from_slice(b"OMITTED")?;
            push_at(out, place)
        }
        Proof::By {
            place,
            only,
            facts,
            defs,
        } => {
            out.extend_from_slice(b"BY")?;
            push_at(out, place)?;
            out.extend_from_slice(if *only { b" ONLY" } else { b"" })?;
            push_cited(out, facts.as_slice(), defs.as_slice())
        }
        Proof::Steps(steps) => {
            for (i, step) in steps.as_slice().iter().enumerate() {
                out.extend_from_slice(if i == 0 { b"{" } else { b"; " })?;
                push_step(out, step)?;
            }
            out.extend_from_slice(b"}")
        }
    }
}

/// Appends the name of a theorem or an ASSUME, if it has one.
fn push_name(out: &mut Vec<u8>, name: &Option<Decl>) -> Result<(), AllocError> {
    if let Some(decl) = name {
        push_decl(out, decl)?;
        out.extend_from_slice(b" == ")?;
    }
    Ok(())
}

/// Appends the place of a unit and what it does.
fn push_unit(out: &mut Vec<u8>, unit: &Unit) -> Result<(), AllocError> {
    push_place(out, &unit.place)?;
    match &unit.kind {
        UnitKind::Constants(decls) => {
            out.extend_from_slice(b" CONSTANTS ")?;
            push_decls(out, decls.as_slice())
        }
        UnitKind::Variables(decls) => {
            out.extend_from_slice(b" VARIABLES ")?;
            push_decls(out, decls.as_slice())
        }
        UnitKind::Assume { name, body } => {
            out.extend_from_slice(b" ASSUME ")?;
            push_name(out, name)?;
            push_node(out, body)
        }
        UnitKind::Define(def) => {
            out.push(b' ')?;
            push_def(out, def)
        }
        UnitKind::Theorem {
            name,
            statement,
            proof,
        } => {
            out.extend_from_slice(b" THEOREM ")?;
            push_name(out, name)?;
            push_statement(out, statement)?;
            out.push(b' ')?;
            push_proof(out, proof)
        }
    }
}

/// Appends the names of the modules that a module extends, and its units.
pub(crate) fn push_module(out: &mut Vec<u8>, module: &Module) -> Result<(), AllocError> {
    for (i, (name, place)) in module.extends.as_slice().iter().enumerate() {
        out.extend_from_slice(if i == 0 { b"EXTENDS " } else { b"," })?;
        out.extend_from_slice(name.bytes())?;
        push_at(out, place)?;
    }
    for (i, unit) in module.units.as_slice().iter().enumerate() {
        if i > 0 || !module.extends.is_empty() {
            out.extend_from_slice(b"; ")?;
        }
        push_unit(out, unit)?;
    }
    Ok(())
}
