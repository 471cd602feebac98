// What is asked, as a text: the word and its fields, with a blank before each.
use std::alloc::{AllocError, Global};
use yw_base::{Ident, Name, Value};
use yw_state::{Asked, Command, Conclusion, GivenList, Primitive, Query};

fn put(out: &mut String, parts: &[&str]) -> Result<(), AllocError> {
    for part in parts {
        if !out.is_empty() {
            out.push(' ')?;
        }
        out.push_str(part)?;
    }
    Ok(())
}

fn name_or_dash(name: &Option<Name>) -> &str {
    match name {
        None => "-",
        Some(name) => name.as_str(),
    }
}

fn put_value(out: &mut String, value: &Option<Value>) -> Result<(), AllocError> {
    match value {
        None => put(out, &["none"])?,
        Some(Value::Bool(truth)) => write!(out, " bool {truth}")?,
        Some(Value::Int(int)) => write!(out, " int {int}")?,
        Some(Value::Text(text)) => put(out, &["text", text.as_str()])?,
        Some(Value::Ints(ints)) => {
            put(out, &["ints"])?;
            for int in ints.as_slice() {
                write!(out, " {int}")?;
            }
        }
        Some(Value::Texts(texts)) => {
            put(out, &["texts"])?;
            for text in texts.as_slice() {
                put(out, &[text.as_str()])?;
            }
        }
    }
    Ok(())
}

fn put_givens(out: &mut String, givens: &GivenList) -> Result<(), AllocError> {
    for given in givens.as_slice() {
        put(out, &[given.name.as_str(), "="])?;
        put_value(out, &given.value)?;
    }
    Ok(())
}

fn put_conclusion(out: &mut String, conclusion: &Conclusion) -> Result<(), AllocError> {
    match conclusion {
        Conclusion::Worklet(name) => put(out, &["worklet", name.as_str()])?,
        Conclusion::Exlet(primitives) => {
            put(out, &["exlet"])?;
            for primitive in primitives.as_slice() {
                match primitive {
                    Primitive::Compensate(name) => put(out, &["Compensate", name.as_str()])?,
                    Primitive::Unknown(text) => put(out, &["Unknown", text.as_str()])?,
                    other => write!(out, " {other:?}")?,
                }
            }
        }
    }
    Ok(())
}

fn put_rule(out: &mut String, command: &Command) -> Result<(), AllocError> {
    if let Command::Rule {
        spec,
        net,
        task,
        kind,
        at,
        side,
        when,
        conclusion,
    } = command
    {
        let net = name_or_dash(net);
        let task = name_or_dash(task);
        put(out, &["rule", spec.as_str(), net, task])?;
        write!(out, " {kind:?} {at} {side}")?;
        put(out, &[when.as_str()])?;
        put_conclusion(out, conclusion)?;
    }
    Ok(())
}

fn put_work(alloc: Global, out: &mut String, command: &Command) -> Result<(), AllocError> {
    match command {
        Command::Enter { who, case, task } => {
            let case = case.print(alloc)?;
            put(out, &["enter", who.as_str(), case.as_str(), task.as_str()])?;
        }
        Command::Start { who, item } => {
            let item = item.print(alloc)?;
            put(out, &["start", who.as_str(), item.as_str()])?;
        }
        Command::Complete {
            who,
            item,
            out: made,
        } => {
            let item = item.print(alloc)?;
            put(out, &["complete", who.as_str(), item.as_str()])?;
            put_givens(out, made)?;
        }
        Command::Add {
            who,
            case,
            task,
            value,
        } => {
            let case = case.print(alloc)?;
            put(out, &["add", who.as_str(), case.as_str(), task.as_str()])?;
            put_value(out, value)?;
        }
        _ => {}
    }
    Ok(())
}

fn put_at(alloc: Global, out: &mut String, word: &str, at: &Ident) -> Result<(), AllocError> {
    let at = at.print(alloc)?;
    put(out, &[word, at.as_str()])
}

fn put_place(alloc: Global, out: &mut String, command: &Command) -> Result<(), AllocError> {
    match command {
        Command::Raise { at, kind } => {
            put_at(alloc, out, "raise", at)?;
            write!(out, " {kind:?}")?;
        }
        Command::Suspend { at } => put_at(alloc, out, "suspend", at)?,
        Command::Continue { at } => put_at(alloc, out, "continue", at)?,
        Command::Cancel { case } => put_at(alloc, out, "cancel", case)?,
        Command::Advance { case } => put_at(alloc, out, "advance", case)?,
        _ => {}
    }
    Ok(())
}

fn put_command(alloc: Global, out: &mut String, command: &Command) -> Result<(), AllocError> {
    match command {
        Command::Person { name, roles } => {
            put(out, &["person", name.as_str()])?;
            for role in roles.as_slice() {
                put(out, &[role.as_str()])?;
            }
        }
        Command::Load { toml } => put(out, &["load", toml.as_str()])?,
        Command::Launch { spec, values } => {
            put(out, &["launch", spec.as_str()])?;
            put_givens(out, values)?;
        }
        _ => {}
    }
    put_rule(out, command)?;
    put_work(alloc, out, command)?;
    put_place(alloc, out, command)
}

fn put_query(alloc: Global, out: &mut String, query: &Query) -> Result<(), AllocError> {
    match query {
        Query::List { who } => put(out, &["list", who.as_str()]),
        Query::Show { case } => put_at(alloc, out, "show", case),
        Query::Ended { case } => put_at(alloc, out, "ended", case),
        Query::Specs => put(out, &["specs"]),
    }
}

/// What is asked, as a text.
pub(crate) fn shown(alloc: Global, asked: &Asked) -> Result<String, AllocError> {
    let mut out = String::new(alloc);
    match asked {
        Asked::Command(command) => put_command(alloc, &mut out, command)?,
        Asked::Query(query) => put_query(alloc, &mut out, query)?,
    }
    Ok(out)
}
