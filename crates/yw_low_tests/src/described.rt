// All that a specification says.
use crate::said::add_debug;
use std::alloc::AllocError;
use std::fmt::Debug;
use yw_base::{Gate, Text, TextList, Usage};
use yw_read::{RawNet, RawSpec, RawTask, RawVar};

fn add(out: &mut String, text: &Text) -> Result<(), AllocError> {
    out.push(' ')?;
    out.push_str(text.as_str())
}

/// A text, or `-` where there is none.
fn add_or_dash(out: &mut String, text: &Option<Text>) -> Result<(), AllocError> {
    match text {
        None => out.push_str(" -"),
        Some(text) => add(out, text),
    }
}

fn add_all(out: &mut String, texts: &TextList) -> Result<(), AllocError> {
    for text in texts.as_slice() {
        add(out, text)?;
    }
    Ok(())
}

fn show<T: Debug>(out: &mut String, value: &T) -> Result<(), AllocError> {
    out.push(' ')?;
    add_debug(out, value)
}

/// How a variable is used, `>` before it where a value comes in, behind it where it goes out.
fn add_usage(out: &mut String, usage: Usage) -> Result<(), AllocError> {
    out.push_str(if usage.comes_in() { " >" } else { " " })?;
    add_debug(out, &usage)?;
    out.push_str(if usage.goes_out() { ">" } else { "" })
}

/// A join or split, an OR with a question mark.
fn add_gate(out: &mut String, gate: Gate) -> Result<(), AllocError> {
    show(out, &gate)?;
    out.push_str(if gate.is_or() { "?" } else { "" })
}

fn add_var(out: &mut String, var: &RawVar) -> Result<(), AllocError> {
    out.push_str("\nvar")?;
    add(out, &var.name)?;
    show(out, &var.sort)?;
    add_usage(out, var.usage)?;
    show(out, &var.init.is_some())
}

fn add_flows(out: &mut String, net: &RawNet) -> Result<(), AllocError> {
    for flow in net.flows.as_slice() {
        add(out, &flow.from)?;
        out.push('>')?;
        out.push_str(flow.to.as_str())?;
    }
    Ok(())
}

fn add_net(out: &mut String, net: &RawNet) -> Result<(), AllocError> {
    out.push_str("\nnet")?;
    add(out, &net.name)?;
    add(out, &net.input)?;
    add(out, &net.output)?;
    add_all(out, &net.conditions)?;
    add_flows(out, net)?;
    for var in net.vars.as_slice() {
        add_var(out, var)?;
    }
    Ok(())
}

fn add_task(out: &mut String, task: &RawTask) -> Result<(), AllocError> {
    out.push_str("\ntask")?;
    add(out, &task.name)?;
    show(out, &task.kind)?;
    add_or_dash(out, &task.net)?;
    add_or_dash(out, &task.role)?;
    add_gate(out, task.join)?;
    add_gate(out, task.split)?;
    add_all(out, &task.remove)
}

fn add_items(out: &mut String, task: &RawTask) -> Result<(), AllocError> {
    add_or_dash(out, &task.each)?;
    add_or_dash(out, &task.item)?;
    show(out, &task.min)?;
    show(out, &task.max)?;
    show(out, &task.threshold)?;
    show(out, &task.dynamic)
}

fn add_branches(out: &mut String, task: &RawTask) -> Result<(), AllocError> {
    for branch in task.branch.as_slice() {
        out.push_str("\nbranch")?;
        add(out, &branch.to)?;
        add_or_dash(out, &branch.when)?;
    }
    Ok(())
}

fn add_ins(out: &mut String, task: &RawTask) -> Result<(), AllocError> {
    for given in task.ins.as_slice() {
        out.push_str("\nin")?;
        add(out, &given.name)?;
        show(out, &given.sort)?;
        add_or_dash(out, &given.value)?;
    }
    Ok(())
}

fn add_outs(out: &mut String, task: &RawTask) -> Result<(), AllocError> {
    for made in task.outs.as_slice() {
        out.push_str("\nout")?;
        add(out, &made.name)?;
        show(out, &made.sort)?;
    }
    Ok(())
}

fn add_sets(out: &mut String, task: &RawTask) -> Result<(), AllocError> {
    for set in task.set.as_slice() {
        out.push_str("\nset")?;
        add(out, &set.var)?;
        add(out, &set.value)?;
    }
    Ok(())
}

fn add_tasks(out: &mut String, net: &RawNet) -> Result<(), AllocError> {
    for task in net.task.as_slice() {
        add_task(out, task)?;
        add_items(out, task)?;
        add_branches(out, task)?;
        add_ins(out, task)?;
        add_outs(out, task)?;
        add_sets(out, task)?;
    }
    Ok(())
}

/// A line for each table.
pub(crate) fn add_spec(out: &mut String, spec: &RawSpec) -> Result<(), AllocError> {
    out.push_str("spec")?;
    add(out, &spec.name)?;
    add(out, &spec.top)?;
    for net in spec.net.as_slice() {
        add_net(out, net)?;
        add_tasks(out, net)?;
    }
    Ok(())
}
