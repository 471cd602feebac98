// Events: a tag and the fields.
ghost use Rattle.std.specs.Prelude.{◌≡◌, ◌≤◌, ◌&&◌, ◌++◌, ◌∷◌, List, ℕ, IfOk, IfErr, OnOk, length, drop, take, true};
ghost use Rattle.yw_codec.specs.Entries.{has_form};
ghost use Rattle.yw_codec.specs.Events.{event_bytes, is_event};
ghost use Rattle.yw_codec.specs.Forms.{Stands, NoneStands};
ghost use Rattle.yw_state.specs.declared.event.Event.{Event};

use crate::field::{Field, read_short_list, write_short_list};
use crate::reader::{CodecFault, Reader};
use std::alloc::{AllocError, Global};
use yw_base::{Ident, Name, Row, Text, Value};
use yw_spec::PlaceList;
use yw_state::{Conclusion, Event, Primitive, TreeKind, TreePlace};

fn person(alloc: Global, reader: &mut Reader<'_>) -> Result<Event, CodecFault>
    ensures ok { IfOk result (λ event. Stands is_event event_bytes (1 ∷ reader.old) event reader.new) }
    ensures bad { IfErr result (λ fault. fault ≡ CodecFault.Bad → NoneStands is_event event_bytes (1 ∷ reader.old)) }
{
    let name = <Name as Field>::read(alloc, reader)?;
    let roles = read_short_list(alloc, reader)?;
    Ok(Event::Person { name, roles })
}

fn load(alloc: Global, reader: &mut Reader<'_>) -> Result<Event, CodecFault>
    ensures ok { IfOk result (λ event. Stands is_event event_bytes (2 ∷ reader.old) event reader.new) }
    ensures bad { IfErr result (λ fault. fault ≡ CodecFault.Bad → NoneStands is_event event_bytes (2 ∷ reader.old)) }
{
    let (name, text) = <(Name, Text)>::read(alloc, reader)?;
    Ok(Event::Load { name, text })
}

fn rule(alloc: Global, reader: &mut Reader<'_>) -> Result<Event, CodecFault>
    ensures ok { IfOk result (λ event. Stands is_event event_bytes (3 ∷ reader.old) event reader.new) }
    ensures bad { IfErr result (λ fault. fault ≡ CodecFault.Bad → NoneStands is_event event_bytes (3 ∷ reader.old)) }
{
    let (place, (at, (side, (when, (conclusion, number))))) = <(
        TreePlace,
        (u32, (bool, (Text, (Conclusion, u32)))),
    )>::read(alloc, reader)?;
    Ok(Event::AddRule {
        place,
        at,
        side,
        when,
        conclusion,
        number,
    })
}

fn launch(alloc: Global, reader: &mut Reader<'_>) -> Result<Event, CodecFault>
    ensures ok { IfOk result (λ event. Stands is_event event_bytes (4 ∷ reader.old) event reader.new) }
    ensures bad { IfErr result (λ fault. fault ≡ CodecFault.Bad → NoneStands is_event event_bytes (4 ∷ reader.old)) }
{
    let (case, (spec, values)) = <(u64, (Name, Row))>::read(alloc, reader)?;
    Ok(Event::Launch { case, spec, values })
}

fn enter(alloc: Global, reader: &mut Reader<'_>) -> Result<Event, CodecFault>
    ensures ok { IfOk result (λ event. Stands is_event event_bytes (5 ∷ reader.old) event reader.new) }
    ensures bad { IfErr result (λ fault. fault ≡ CodecFault.Bad → NoneStands is_event event_bytes (5 ∷ reader.old)) }
{
    let (net, (task, (places, (first, count)))) = <(Ident, (Name, (PlaceList, (u64, u32))))>::read(
        alloc, reader,
    )?;
    Ok(Event::Enter {
        net,
        task,
        places,
        first,
        count,
    })
}

fn start(alloc: Global, reader: &mut Reader<'_>) -> Result<Event, CodecFault>
    ensures ok { IfOk result (λ event. Stands is_event event_bytes (6 ∷ reader.old) event reader.new) }
    ensures bad { IfErr result (λ fault. fault ≡ CodecFault.Bad → NoneStands is_event event_bytes (6 ∷ reader.old)) }
{
    let (item, who) = <(Ident, Name)>::read(alloc, reader)?;
    Ok(Event::Start { item, who })
}

fn complete(alloc: Global, reader: &mut Reader<'_>) -> Result<Event, CodecFault>
    ensures ok { IfOk result (λ event. Stands is_event event_bytes (7 ∷ reader.old) event reader.new) }
    ensures bad { IfErr result (λ fault. fault ≡ CodecFault.Bad → NoneStands is_event event_bytes (7 ∷ reader.old)) }
{
    let (item, out) = <(Ident, Row)>::read(alloc, reader)?;
    Ok(Event::Complete { item, out })
}

fn exit(alloc: Global, reader: &mut Reader<'_>) -> Result<Event, CodecFault>
    ensures ok { IfOk result (λ event. Stands is_event event_bytes (8 ∷ reader.old) event reader.new) }
    ensures bad { IfErr result (λ fault. fault ≡ CodecFault.Bad → NoneStands is_event event_bytes (8 ∷ reader.old)) }
{
    let (net, (task, places)) = <(Ident, (Name, PlaceList))>::read(alloc, reader)?;
    Ok(Event::Exit { net, task, places })
}

fn add(alloc: Global, reader: &mut Reader<'_>) -> Result<Event, CodecFault>
    ensures ok { IfOk result (λ event. Stands is_event event_bytes (9 ∷ reader.old) event reader.new) }
    ensures bad { IfErr result (λ fault. fault ≡ CodecFault.Bad → NoneStands is_event event_bytes (9 ∷ reader.old)) }
{
    let (net, (task, (value, number))) = <(Ident, (Name, (Value, u64)))>::read(alloc, reader)?;
    Ok(Event::Add {
        net,
        task,
        value,
        number,
    })
}

fn finish(alloc: Global, reader: &mut Reader<'_>) -> Result<Event, CodecFault>
    ensures ok { IfOk result (λ event. Stands is_event event_bytes (10 ∷ reader.old) event reader.new) }
    ensures bad { IfErr result (λ fault. fault ≡ CodecFault.Bad → NoneStands is_event event_bytes (10 ∷ reader.old)) }
{
    let case = u64::read(alloc, reader)?;
    Ok(Event::Finish { case })
}

fn cancel(alloc: Global, reader: &mut Reader<'_>) -> Result<Event, CodecFault>
    ensures ok { IfOk result (λ event. Stands is_event event_bytes (11 ∷ reader.old) event reader.new) }
    ensures bad { IfErr result (λ fault. fault ≡ CodecFault.Bad → NoneStands is_event event_bytes (11 ∷ reader.old)) }
{
    let case = u64::read(alloc, reader)?;
    Ok(Event::Cancel { case })
}

fn start_sub(alloc: Global, reader: &mut Reader<'_>) -> Result<Event, CodecFault>
    ensures ok { IfOk result (λ event. Stands is_event event_bytes (12 ∷ reader.old) event reader.new) }
    ensures bad { IfErr result (λ fault. fault ≡ CodecFault.Bad → NoneStands is_event event_bytes (12 ∷ reader.old)) }
{
    let item = <Ident as Field>::read(alloc, reader)?;
    Ok(Event::StartSub { item })
}

fn complete_sub(alloc: Global, reader: &mut Reader<'_>) -> Result<Event, CodecFault>
    ensures ok { IfOk result (λ event. Stands is_event event_bytes (13 ∷ reader.old) event reader.new) }
    ensures bad { IfErr result (λ fault. fault ≡ CodecFault.Bad → NoneStands is_event event_bytes (13 ∷ reader.old)) }
{
    let item = <Ident as Field>::read(alloc, reader)?;
    Ok(Event::CompleteSub { item })
}

fn complete_empty(alloc: Global, reader: &mut Reader<'_>) -> Result<Event, CodecFault>
    ensures ok { IfOk result (λ event. Stands is_event event_bytes (14 ∷ reader.old) event reader.new) }
    ensures bad { IfErr result (λ fault. fault ≡ CodecFault.Bad → NoneStands is_event event_bytes (14 ∷ reader.old)) }
{
    let item = <Ident as Field>::read(alloc, reader)?;
    Ok(Event::CompleteEmpty { item })
}

fn pass(alloc: Global, reader: &mut Reader<'_>) -> Result<Event, CodecFault>
    ensures ok { IfOk result (λ event. Stands is_event event_bytes (15 ∷ reader.old) event reader.new) }
    ensures bad { IfErr result (λ fault. fault ≡ CodecFault.Bad → NoneStands is_event event_bytes (15 ∷ reader.old)) }
{
    let (at, check) = <(Ident, TreeKind)>::read(alloc, reader)?;
    Ok(Event::Pass { at, check })
}

fn exception(alloc: Global, reader: &mut Reader<'_>) -> Result<Event, CodecFault>
    ensures ok { IfOk result (λ event. Stands is_event event_bytes (16 ∷ reader.old) event reader.new) }
    ensures bad { IfErr result (λ fault. fault ≡ CodecFault.Bad → NoneStands is_event event_bytes (16 ∷ reader.old)) }
{
    let (at, (check, (node, number))) = <(Ident, (TreeKind, (u32, u64)))>::read(alloc, reader)?;
    Ok(Event::Except {
        at,
        check,
        node,
        number,
    })
}

fn substitute(alloc: Global, reader: &mut Reader<'_>) -> Result<Event, CodecFault>
    ensures ok { IfOk result (λ event. Stands is_event event_bytes (17 ∷ reader.old) event reader.new) }
    ensures bad { IfErr result (λ fault. fault ≡ CodecFault.Bad → NoneStands is_event event_bytes (17 ∷ reader.old)) }
{
    let (item, worklet) = <(Ident, Name)>::read(alloc, reader)?;
    Ok(Event::Substitute { item, worklet })
}

fn complete_worklet(alloc: Global, reader: &mut Reader<'_>) -> Result<Event, CodecFault>
    ensures ok { IfOk result (λ event. Stands is_event event_bytes (18 ∷ reader.old) event reader.new) }
    ensures bad { IfErr result (λ fault. fault ≡ CodecFault.Bad → NoneStands is_event event_bytes (18 ∷ reader.old)) }
{
    let item = <Ident as Field>::read(alloc, reader)?;
    Ok(Event::CompleteWorklet { item })
}

fn raised(alloc: Global, reader: &mut Reader<'_>) -> Result<Event, CodecFault>
    ensures ok { IfOk result (λ event. Stands is_event event_bytes (19 ∷ reader.old) event reader.new) }
    ensures bad { IfErr result (λ fault. fault ≡ CodecFault.Bad → NoneStands is_event event_bytes (19 ∷ reader.old)) }
{
    let (at, (kind, (node, number))) = <(Ident, (TreeKind, (u32, u64)))>::read(alloc, reader)?;
    Ok(Event::Raise {
        at,
        kind,
        node,
        number,
    })
}

fn primitive(alloc: Global, reader: &mut Reader<'_>) -> Result<Event, CodecFault>
    ensures ok { IfOk result (λ event. Stands is_event event_bytes (20 ∷ reader.old) event reader.new) }
    ensures bad { IfErr result (λ fault. fault ≡ CodecFault.Bad → NoneStands is_event event_bytes (20 ∷ reader.old)) }
{
    let (run, primitive) = <(Ident, Primitive)>::read(alloc, reader)?;
    Ok(Event::Prim { run, primitive })
}

fn compensated(alloc: Global, reader: &mut Reader<'_>) -> Result<Event, CodecFault>
    ensures ok { IfOk result (λ event. Stands is_event event_bytes (21 ∷ reader.old) event reader.new) }
    ensures bad { IfErr result (λ fault. fault ≡ CodecFault.Bad → NoneStands is_event event_bytes (21 ∷ reader.old)) }
{
    let run = <Ident as Field>::read(alloc, reader)?;
    Ok(Event::Compensated { run })
}

fn suspend(alloc: Global, reader: &mut Reader<'_>) -> Result<Event, CodecFault>
    ensures ok { IfOk result (λ event. Stands is_event event_bytes (22 ∷ reader.old) event reader.new) }
    ensures bad { IfErr result (λ fault. fault ≡ CodecFault.Bad → NoneStands is_event event_bytes (22 ∷ reader.old)) }
{
    let at = <Ident as Field>::read(alloc, reader)?;
    Ok(Event::Suspend { at })
}

fn go_on(alloc: Global, reader: &mut Reader<'_>) -> Result<Event, CodecFault>
    ensures ok { IfOk result (λ event. Stands is_event event_bytes (23 ∷ reader.old) event reader.new) }
    ensures bad { IfErr result (λ fault. fault ≡ CodecFault.Bad → NoneStands is_event event_bytes (23 ∷ reader.old)) }
{
    let at = <Ident as Field>::read(alloc, reader)?;
    Ok(Event::Continue { at })
}

fn advance(alloc: Global, reader: &mut Reader<'_>) -> Result<Event, CodecFault>
    ensures ok { IfOk result (λ event. Stands is_event event_bytes (24 ∷ reader.old) event reader.new) }
    ensures bad { IfErr result (λ fault. fault ≡ CodecFault.Bad → NoneStands is_event event_bytes (24 ∷ reader.old)) }
{
    let case = u64::read(alloc, reader)?;
    Ok(Event::Advance { case })
}

/// The event whose fields stand at the front, behind this tag.
pub fn read_tagged(alloc: Global, reader: &mut Reader<'_>, tag: u8) -> Result<Event, CodecFault>
    ensures ok { IfOk result (λ event. Stands is_event event_bytes (tag ∷ reader.old) event reader.new) }
    ensures bad { IfErr result (λ fault. fault ≡ CodecFault.Bad → NoneStands is_event event_bytes (tag ∷ reader.old)) }
{
    match tag {
        1 => person(alloc, reader),
        2 => load(alloc, reader),
        3 => rule(alloc, reader),
        4 => launch(alloc, reader),
        5 => enter(alloc, reader),
        6 => start(alloc, reader),
        7 => complete(alloc, reader),
        8 => exit(alloc, reader),
        9 => add(alloc, reader),
        10 => finish(alloc, reader),
        11 => cancel(alloc, reader),
        12 => start_sub(alloc, reader),
        13 => complete_sub(alloc, reader),
        14 => complete_empty(alloc, reader),
        15 => pass(alloc, reader),
        16 => exception(alloc, reader),
        17 => substitute(alloc, reader),
        18 => complete_worklet(alloc, reader),
        19 => raised(alloc, reader),
        20 => primitive(alloc, reader),
        21 => compensated(alloc, reader),
        22 => suspend(alloc, reader),
        23 => go_on(alloc, reader),
        24 => advance(alloc, reader),
        _ => Err(CodecFault::Bad),
    }
}

/// Reads the event at the front of the bytes, and says how many bytes it has. `Bad` comes exactly
/// where no event's bytes stand there, unless memory runs out first, which is `Memory`.
pub fn read_event(alloc: Global, bytes: &[u8]) -> Result<(Event, usize), CodecFault>
    ensures within { IfOk result (λ v. v.1 ≤ length bytes.now) }
    ensures ok { IfOk result (λ v. Stands is_event event_bytes bytes.now v.0 (drop v.1 bytes.now)) }
    ensures bad { IfErr result (λ fault. fault ≡ CodecFault.Bad → NoneStands is_event event_bytes bytes.now) }
{
    let mut reader = Reader::new(bytes);
    let tag = reader.byte()?;
    let event = read_tagged(alloc, &mut reader, tag)?;
    Ok((event, bytes.len() - reader.left()))
}

// A tag and one field, or two to five.
fn write_one<A: Field>(out: &mut Vec<u8>, tag: u8, first: &A) -> Result<(), AllocError>
    ensures bytes { OnOk result (out.new.items ≡ out.old.items ++ (tag ∷ A.bytes first.now)) }
    ensures range { OnOk result (A.is_field first.now ≡ true) }
{
    out.push(tag)?;
    first.write(out)
}

fn write_two<A: Field, B: Field>(
    out: &mut Vec<u8>,
    tag: u8,
    first: &A,
    second: &B,
) -> Result<(), AllocError>
    ensures bytes { OnOk result (out.new.items ≡ out.old.items ++ (tag ∷ (A.bytes first.now ++ B.bytes second.now))) }
    ensures range { OnOk result ((A.is_field first.now && B.is_field second.now) ≡ true) }
{
    write_one(out, tag, first)?;
    second.write(out)
}

fn write_three<A: Field, B: Field, C: Field>(
    out: &mut Vec<u8>,
    tag: u8,
    first: &A,
    second: &B,
    third: &C,
) -> Result<(), AllocError>
    ensures bytes { OnOk result (out.new.items ≡ out.old.items ++ (tag ∷ (A.bytes first.now ++ (B.bytes second.now ++ C.bytes third.now)))) }
    ensures range { OnOk result ((A.is_field first.now && (B.is_field second.now && C.is_field third.now)) ≡ true) }
{
    write_two(out, tag, first, second)?;
    third.write(out)
}

fn write_four<A: Field, B: Field, C: Field, D: Field>(
    out: &mut Vec<u8>,
    tag: u8,
    first: &A,
    second: &B,
    third: &C,
    fourth: &D,
) -> Result<(), AllocError>
    ensures bytes { OnOk result (out.new.items ≡ out.old.items ++ (tag ∷ (A.bytes first.now ++ (B.bytes second.now ++ (C.bytes third.now ++ D.bytes fourth.now))))) }
    ensures range { OnOk result ((A.is_field first.now && (B.is_field second.now && (C.is_field third.now && D.is_field fourth.now))) ≡ true) }
{
    write_three(out, tag, first, second, third)?;
    fourth.write(out)
}

fn write_five<A: Field, B: Field, C: Field, D: Field, E: Field>(
    out: &mut Vec<u8>,
    tag: u8,
    first: &A,
    second: &B,
    third: &C,
    fourth: &D,
    fifth: &E,
) -> Result<(), AllocError>
    ensures bytes { OnOk result (out.new.items ≡ out.old.items ++ (tag ∷ (A.bytes first.now ++ (B.bytes second.now ++ (C.bytes third.now ++ (D.bytes fourth.now ++ E.bytes fifth.now)))))) }
    ensures range { OnOk result ((A.is_field first.now && (B.is_field second.now && (C.is_field third.now && (D.is_field fourth.now && E.is_field fifth.now)))) ≡ true) }
{
    write_four(out, tag, first, second, third, fourth)?;
    fifth.write(out)
}

/// Writes one event after what stands in `out`. A person has at most 64 roles, and no primitive is `Unknown`. An `Err` says that
/// no memory was left, or that the length of a text or a list doesn't fit a u32; what `out` has then is told nowhere.
pub fn push_event(out: &mut Vec<u8>, event: &Event) -> Result<(), AllocError>
    requires { has_form event.now ≡ true }
    ensures bytes { OnOk result (out.new.items ≡ out.old.items ++ event_bytes event.now) }
    ensures event { OnOk result (is_event event.now ≡ true) }
{
    match event {
        Event::Person { name, roles } => {
            write_one(out, 1, name)?;
            write_short_list(out, roles.as_slice())
        }
        Event::Load { name, text } => write_two(out, 2, name, text),
        Event::AddRule {
            place,
            at,
            side,
            when,
            conclusion,
            number,
        } => {
            write_five(out, 3, place, at, side, when, conclusion)?;
            number.write(out)
        }
        Event::Launch { case, spec, values } => write_three(out, 4, case, spec, values),
        Event::Enter {
            net,
            task,
            places,
            first,
            count,
        } => write_five(out, 5, net, task, places, first, count),
        Event::Start { item, who } => write_two(out, 6, item, who),
        Event::Complete { item, out: made } => write_two(out, 7, item, made),
        Event::Exit { net, task, places } => write_three(out, 8, net, task, places),
        Event::Add {
            net,
            task,
            value,
            number,
        } => write_four(out, 9, net, task, value, number),
        Event::Finish { case } => write_one(out, 10, case),
        Event::Cancel { case } => write_one(out, 11, case),
        Event::StartSub { item } => write_one(out, 12, item),
        Event::CompleteSub { item } => write_one(out, 13, item),
        Event::CompleteEmpty { item } => write_one(out, 14, item),
        Event::Pass { at, check } => write_two(out, 15, at, check),
        Event::Except {
            at,
            check,
            node,
            number,
        } => write_four(out, 16, at, check, node, number),
        Event::Substitute { item, worklet } => write_two(out, 17, item, worklet),
        Event::CompleteWorklet { item } => write_one(out, 18, item),
        Event::Raise {
            at,
            kind,
            node,
            number,
        } => write_four(out, 19, at, kind, node, number),
        Event::Prim { run, primitive } => write_two(out, 20, run, primitive),
        Event::Compensated { run } => write_one(out, 21, run),
        Event::Suspend { at } => write_one(out, 22, at),
        Event::Continue { at } => write_one(out, 23, at),
        Event::Advance { case } => write_one(out, 24, case),
    }
}
