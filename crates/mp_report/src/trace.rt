ghost use Rattle.std.specs.Prelude.{◌≡◌, ◌++◌, length, OnOk, IfOk};
ghost use Rattle.std.specs.Fmt.{decimal};
ghost use Rattle.mp_report.specs.Traces.{event_text, reply_text, lines_text};
ghost use Rattle.mp_report.specs.Traces.{trace_text as trace_text_of};

use mp_drill::{Event, Reply};
use mp_logic::{List, NoMemory, Sym, Text};
use mp_names::Names;
use mp_termtext::{push_bytes, push_decimal};
use std::alloc::Global;

/// The text of a drill: the goal's name, and then a line for each event with its reply.
pub fn trace_text(
    alloc: Global,
    names: &Names,
    name: Sym,
    events: &List<Event>,
    replies: &List<Reply>,
) -> Result<Text, NoMemory>
    requires { length replies.now ≡ length events.now }
    ensures { IfOk result (λ text. text ≡ trace_text_of names.now name events.now replies.now) }
{
    let mut out = Vec::new(alloc);
    push_trace(&mut out, names, name, events, replies)?;
    Ok(List::from_vec(out))
}

/// Appends the text of a drill. Where there is no memory, some of it may have been appended.
pub fn push_trace(
    out: &mut Vec<u8>,
    names: &Names,
    name: Sym,
    events: &List<Event>,
    replies: &List<Reply>,
) -> Result<(), NoMemory>
    requires { length replies.now ≡ length events.now }
    ensures { OnOk result (out.new.items ≡ out.old.items ++ trace_text_of names.now name events.now replies.now) }
{
    push_bytes(out, b"drill ")?;
    push_bytes(out, names.text(name))?;
    push_bytes(out, b"\n")?;
    push_lines(out, events.as_slice(), replies.as_slice())
}

/// Appends a line for each event with its reply.
fn push_lines(out: &mut Vec<u8>, events: &[Event], replies: &[Reply]) -> Result<(), NoMemory>
    requires { length replies.now ≡ length events.now }
    ensures { OnOk result (out.new.items ≡ out.old.items ++ lines_text events.now replies.now) }
{
    for at in 0..events.len() {
        push_event(out, events[at])?;
        push_bytes(out, b": ")?;
        push_reply(out, replies[at])?;
        push_bytes(out, b"\n")?;
    }
    Ok(())
}

/// Appends the event, the units always there.
fn push_event(out: &mut Vec<u8>, event: Event) -> Result<(), NoMemory>
    ensures { OnOk result (out.new.items ≡ out.old.items ++ event_text event) }
{
    match event {
        Event::Claim(who) => push_numbered(out, b"claim ", who as u64),
        Event::Send { who, units } => {
            push_numbered(out, b"send ", who as u64)?;
            push_numbered(out, b" ", units as u64)
        }
        Event::Again(who) => push_numbered(out, b"again ", who as u64),
        Event::Die(who) => push_numbered(out, b"die ", who as u64),
        Event::Lose(who) => push_numbered(out, b"lose ", who as u64),
        Event::Reissue => push_bytes(out, b"reissue"),
    }
}

/// Appends the reply.
fn push_reply(out: &mut Vec<u8>, reply: Reply) -> Result<(), NoMemory>
    ensures { OnOk result (out.new.items ≡ out.old.items ++ reply_text reply) }
{
    match reply {
        Reply::Ticket(epoch) => push_numbered(out, b"ticket ", epoch),
        Reply::Nothing => push_bytes(out, b"nothing"),
        Reply::Finished => push_bytes(out, b"finished"),
        Reply::Spent => push_bytes(out, b"spent"),
        Reply::Taken => push_bytes(out, b"taken"),
        Reply::Stale => push_bytes(out, b"stale"),
        Reply::Back(count) => push_numbered(out, b"back ", count),
        Reply::Gone => push_bytes(out, b"gone"),
        Reply::Empty => push_bytes(out, b"empty"),
    }
}

/// Appends the text and the number.
fn push_numbered(out: &mut Vec<u8>, text: &[u8], number: u64) -> Result<(), NoMemory>
    ensures { OnOk result (out.new.items ≡ out.old.items ++ text.now ++ decimal number) }
{
    push_bytes(out, text)?;
    push_decimal(out, number)
}
