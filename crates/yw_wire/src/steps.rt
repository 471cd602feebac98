// How a reply shows an event: words with a blank between each two, written one behind the other into a text.
ghost use Rattle.std.specs.Prelude.{◌≡◌, [], ◌∷◌, ◌++◌, codes, map, OnOk, string_bytes};
ghost use Rattle.std.specs.Fmt.{decimal};
ghost use Rattle.yw_base.specs.Identity.{dotted, child};
ghost use Rattle.yw_spec.specs.Net.{place_text};
ghost use Rattle.yw_lines.specs.EventTexts.{item_idents, listed, spaced, step_text, words_text};
ghost use Rattle.yw_lines.specs.Kinds.{kind_text};
ghost use Rattle.yw_lines.specs.Primitives.{compensate_front, primitive_text};
ghost use Rattle.yw_wire.specs.Listed.{comma_if};

use std::alloc::AllocError;
use yw_base::{Ident, Name};
use yw_spec::Place;
use yw_state::{Event, Primitive, TreeKind};

// ---- parts of words

/// The word of a kind of rule tree.
pub fn kind_text(kind: TreeKind) -> &'static str
    ensures { result.now ≡ kind_text kind }
{
    match kind {
        TreeKind::Pre => "pre",
        TreeKind::Post => "post",
        TreeKind::Select => "select",
        TreeKind::External => "external",
        TreeKind::Timeout => "timeout",
        TreeKind::Abort => "abort",
    }
}

/// A comma, where a word of a list stands before.
fn push_comma(text: &mut String, later: bool) -> Result<(), AllocError>
    ensures { OnOk result (string_bytes text.new ≡ string_bytes text.old ++ comma_if later) }
{
    if later {
        text.push(',')?;
    }
    Ok(())
}

/// The identity of these numbers with this one behind. The number is wide, so that the last of many items has one too.
fn push_child(text: &mut String, numbers: &[u64], number: u128) -> Result<(), AllocError>
    ensures { OnOk result (string_bytes text.new ≡ string_bytes text.old ++ dotted (child numbers.now number)) }
{
    for before in numbers {
        write!(text, "{before}.")?;
    }
    write!(text, "{number}")
}

/// The numbers of an identity with dots between them.
pub fn push_dotted(text: &mut String, numbers: &[u64]) -> Result<(), AllocError>
    ensures { OnOk result (string_bytes text.new ≡ string_bytes text.old ++ dotted numbers.now) }
{
    match numbers.split_last() {
        None => Ok(()),
        Some((last, before)) => push_child(text, before, u128::from(*last)),
    }
}

/// The name of a condition, or of the two tasks between which it stands.
pub fn push_place(text: &mut String, place: &Place) -> Result<(), AllocError>
    ensures { OnOk result (string_bytes text.new ≡ string_bytes text.old ++ place_text place.now) }
{
    match place {
        Place::Named(name) => text.push_str(name.as_str()),
        Place::Between(from, to) => {
            text.push_str(from.as_str())?;
            text.push_str("->")?;
            text.push_str(to.as_str())
        }
    }
}

fn push_compensation(text: &mut String, name: &Name) -> Result<(), AllocError>
    ensures { OnOk result (string_bytes text.new ≡ string_bytes text.old ++ (compensate_front ++ name.now)) }
{
    text.push_str("compensate ")?;
    text.push_str(name.as_str())?;
    Ok(())
}

/// A step of an exlet.
pub fn push_primitive(text: &mut String, primitive: &Primitive) -> Result<(), AllocError>
    ensures { OnOk result (string_bytes text.new ≡ string_bytes text.old ++ primitive_text primitive.now) }
{
    match primitive {
        Primitive::SuspendItem => text.push_str("suspend_item"),
        Primitive::ContinueItem => text.push_str("continue_item"),
        Primitive::RestartItem => text.push_str("restart_item"),
        Primitive::CompleteItem => text.push_str("complete_item"),
        Primitive::RemoveItem => text.push_str("remove_item"),
        Primitive::SuspendCase => text.push_str("suspend_case"),
        Primitive::ContinueCase => text.push_str("continue_case"),
        Primitive::RemoveCase => text.push_str("remove_case"),
        Primitive::Compensate(name) => push_compensation(text, name),
        Primitive::Unknown(unknown) => text.push_str(unknown.as_str()),
    }
}

// ---- words behind a text

/// A blank and a word.
fn add(text: &mut String, word: &str) -> Result<(), AllocError>
    ensures { OnOk result (string_bytes text.new ≡ spaced (string_bytes text.old) word.now) }
{
    text.push(' ')?;
    text.push_str(word)
}

fn add_number(text: &mut String, number: u64) -> Result<(), AllocError>
    ensures { OnOk result (string_bytes text.new ≡ spaced (string_bytes text.old) (decimal number)) }
{
    write!(text, " {number}")
}

fn add_ident(text: &mut String, ident: &Ident) -> Result<(), AllocError>
    ensures { OnOk result (string_bytes text.new ≡ spaced (string_bytes text.old) (dotted ident.now)) }
{
    text.push(' ')?;
    push_dotted(text, ident.numbers())
}

fn add_child(text: &mut String, ident: &Ident, number: u64) -> Result<(), AllocError>
    ensures { OnOk result (string_bytes text.new ≡ spaced (string_bytes text.old) (dotted (child ident.now number))) }
{
    text.push(' ')?;
    push_child(text, ident.numbers(), u128::from(number))
}

fn add_places(text: &mut String, places: &[Place]) -> Result<(), AllocError>
    ensures { OnOk result (string_bytes text.new ≡ spaced (string_bytes text.old) (listed (map place_text places.now))) }
{
    text.push(' ')?;
    for (k, place) in places.iter().enumerate() {
        push_comma(text, k > 0)?;
        push_place(text, place)?;
    }
    Ok(())
}

/// The identities of so many items of the net, numbered from the first number on.
fn add_items(text: &mut String, net: &Ident, first: u64, count: u32) -> Result<(), AllocError>
    ensures { OnOk result (string_bytes text.new ≡ spaced (string_bytes text.old) (listed (item_idents net.now first count))) }
{
    text.push(' ')?;
    for k in 0..count {
        push_comma(text, k > 0)?;
        push_child(text, net.numbers(), u128::from(first) + u128::from(k))?;
    }
    Ok(())
}

fn add_primitive(text: &mut String, primitive: &Primitive) -> Result<(), AllocError>
    ensures { OnOk result (string_bytes text.new ≡ spaced (string_bytes text.old) (primitive_text primitive.now)) }
{
    text.push(' ')?;
    push_primitive(text, primitive)
}

// ---- texts of a word and one more, each in place of what stood in the text

fn put(text: &mut String, word: &str) -> Result<(), AllocError>
    ensures { OnOk result (string_bytes text.new ≡ words_text word.now []) }
{
    text.clear();
    text.push_str(word)
}

fn put_name(text: &mut String, word: &str, name: &Name) -> Result<(), AllocError>
    ensures { OnOk result (string_bytes text.new ≡ words_text word.now (name.now ∷ [])) }
{
    put(text, word)?;
    add(text, name.as_str())
}

fn put_number(text: &mut String, word: &str, number: u64) -> Result<(), AllocError>
    ensures { OnOk result (string_bytes text.new ≡ words_text word.now (decimal number ∷ [])) }
{
    put(text, word)?;
    add_number(text, number)
}

fn put_ident(text: &mut String, word: &str, ident: &Ident) -> Result<(), AllocError>
    ensures { OnOk result (string_bytes text.new ≡ words_text word.now (dotted ident.now ∷ [])) }
{
    put(text, word)?;
    add_ident(text, ident)
}

// ---- texts of more words

fn put_launch(text: &mut String, case: u64, spec: &Name) -> Result<(), AllocError>
    ensures { OnOk result (string_bytes text.new ≡ words_text (codes "launch") (decimal case ∷ spec.now ∷ [])) }
{
    put_number(text, "launch", case)?;
    add(text, spec.as_str())
}

fn put_enter(
    text: &mut String,
    net: &Ident,
    task: &Name,
    places: &[Place],
    first: u64,
    count: u32,
) -> Result<(), AllocError>
    ensures { OnOk result (string_bytes text.new ≡ words_text (codes "enter") (dotted net.now ∷ task.now ∷ codes "from" ∷ listed (map place_text places.now) ∷ codes "as" ∷ listed (item_idents net.now first count) ∷ [])) }
{
    put_ident(text, "enter", net)?;
    add(text, task.as_str())?;
    add(text, "from")?;
    add_places(text, places)?;
    add(text, "as")?;
    add_items(text, net, first, count)
}

fn put_exit(text: &mut String, net: &Ident, task: &Name, places: &[Place]) -> Result<(), AllocError>
    ensures { OnOk result (string_bytes text.new ≡ words_text (codes "exit") (dotted net.now ∷ task.now ∷ codes "to" ∷ listed (map place_text places.now) ∷ [])) }
{
    put_ident(text, "exit", net)?;
    add(text, task.as_str())?;
    add(text, "to")?;
    add_places(text, places)
}

fn put_add(text: &mut String, net: &Ident, task: &Name, number: u64) -> Result<(), AllocError>
    ensures { OnOk result (string_bytes text.new ≡ words_text (codes "add") (dotted net.now ∷ task.now ∷ codes "as" ∷ dotted (child net.now number) ∷ [])) }
{
    put_ident(text, "add", net)?;
    add(text, task.as_str())?;
    add(text, "as")?;
    add_child(text, net, number)
}

fn put_pass(text: &mut String, at: &Ident, check: TreeKind) -> Result<(), AllocError>
    ensures { OnOk result (string_bytes text.new ≡ words_text (codes "pass") (dotted at.now ∷ kind_text check ∷ [])) }
{
    put_ident(text, "pass", at)?;
    add(text, kind_text(check))
}

/// The text of an exlet's beginning: at this identity a tree of this kind concludes the node, and the run has this
/// number.
fn put_exlet(
    text: &mut String,
    word: &str,
    at: &Ident,
    kind: TreeKind,
    node: u32,
    number: u64,
) -> Result<(), AllocError>
    ensures { OnOk result (string_bytes text.new ≡ words_text word.now (dotted at.now ∷ kind_text kind ∷ decimal node ∷ codes "as" ∷ dotted (child at.now number) ∷ [])) }
{
    put_ident(text, word, at)?;
    add(text, kind_text(kind))?;
    add_number(text, u64::from(node))?;
    add(text, "as")?;
    add_child(text, at, number)
}

fn put_substitute(text: &mut String, item: &Ident, worklet: &Name) -> Result<(), AllocError>
    ensures { OnOk result (string_bytes text.new ≡ words_text (codes "substitute") (dotted item.now ∷ codes "by" ∷ worklet.now ∷ [])) }
{
    put_ident(text, "substitute", item)?;
    add(text, "by")?;
    add(text, worklet.as_str())
}

fn put_prim(text: &mut String, run: &Ident, primitive: &Primitive) -> Result<(), AllocError>
    ensures { OnOk result (string_bytes text.new ≡ words_text (codes "prim") (dotted run.now ∷ primitive_text primitive.now ∷ [])) }
{
    put_ident(text, "prim", run)?;
    add_primitive(text, primitive)
}

/// The event as a reply shows it, in place of what stood in the text. An `Err` says that no memory was left.
pub fn put_step(text: &mut String, event: &Event) -> Result<(), AllocError>
    ensures { OnOk result (string_bytes text.new ≡ step_text event.now) }
{
    match event {
        Event::Person { name, .. } => put_name(text, "person", name),
        Event::Load { name, .. } => put_name(text, "load", name),
        Event::AddRule { number, .. } => put_number(text, "rule", u64::from(*number)),
        Event::Launch { case, spec, .. } => put_launch(text, *case, spec),
        Event::Enter {
            net,
            task,
            places,
            first,
            count,
        } => put_enter(text, net, task, places.as_slice(), *first, *count),
        Event::Start { item, .. } => put_ident(text, "start", item),
        Event::Complete { item, .. } => put_ident(text, "complete", item),
        Event::Exit { net, task, places } => put_exit(text, net, task, places.as_slice()),
        Event::Add {
            net,
            task,
            number,
            ..
        } => put_add(text, net, task, *number),
        Event::Finish { case } => put_number(text, "finish", *case),
        Event::Cancel { case } => put_number(text, "cancel", *case),
        Event::StartSub { item } => put_ident(text, "startsub", item),
        Event::CompleteSub { item } => put_ident(text, "completesub", item),
        Event::CompleteEmpty { item } => put_ident(text, "completeempty", item),
        Event::Pass { at, check } => put_pass(text, at, *check),
        Event::Except {
            at,
            check,
            node,
            number,
        } => put_exlet(text, "except", at, *check, *node, *number),
        Event::Substitute { item, worklet } => put_substitute(text, item, worklet),
        Event::CompleteWorklet { item } => put_ident(text, "completeworklet", item),
        Event::Raise {
            at,
            kind,
            node,
            number,
        } => put_exlet(text, "raise", at, *kind, *node, *number),
        Event::Prim { run, primitive } => put_prim(text, run, primitive),
        Event::Compensated { run } => put_ident(text, "compensated", run),
        Event::Suspend { at } => put_ident(text, "suspend", at),
        Event::Continue { at } => put_ident(text, "continue", at),
        Event::Advance { case } => put_number(text, "advance", *case),
    }
}
