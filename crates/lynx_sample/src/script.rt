//! The text of a script: docs/FORMATS.md has its lines.
ghost use Rattle.std.specs.Prelude.{◌≡◌, ◌++◌, ◌∷◌, codes, decimal, map, IfOk, OnOk};
ghost use Rattle.std.specs.String.{string_bytes};
ghost use Rattle.lynx_lex.specs.Lines.{line, spaced};
ghost use Rattle.lynx_set.specs.Text.{name_at};
ghost use Rattle.lynx_set.specs.Lookups.{program_names};
ghost use Rattle.lynx_lines.specs.Scripts.{begin_words, event_words, script_of};

use lynx_entry::{Event, Request};
use lynx_names::{ProgramId, ServerId};
use lynx_set::ChainSet;
use std::alloc::{AllocError, Global};
use std::fmt::Write;

/// The one text of these events. A program that the set hasn't is spelled by no byte, and the text
/// may be longer than a script may be.
pub fn script_text(alloc: Global, set: &ChainSet, events: &[Event]) -> Result<String, AllocError>
    ensures { IfOk result (λ text. string_bytes text ≡ script_of set.now events.now) }
{
    let mut text = String::new(alloc);
    for event in events {
        put_event(&mut text, set, event)?;
    }
    Ok(text)
}

/// Writes the line of an event.
fn put_event(text: &mut String, set: &ChainSet, event: &Event) -> Result<(), AllocError>
    ensures { OnOk result (string_bytes text.new ≡ string_bytes text.old
        ++ line (event_words (program_names set.now) event.now)) }
{
    match event {
        Event::Begin {
            server,
            request,
            seen: _,
        } => put_begin(text, set, *server, request),
        Event::Deliver { chain, hop } => write!(text, "deliver {chain} {hop}\n"),
        Event::Wake { server } => write!(text, "wake {server}\n"),
        Event::Lost { chain, hop } => write!(text, "lose {chain} {hop}\n"),
        Event::Restart { server } => write!(text, "restart {server}\n"),
    }
}

/// Writes the line of a begin.
fn put_begin(
    text: &mut String,
    set: &ChainSet,
    server: ServerId,
    request: &Request,
) -> Result<(), AllocError>
    ensures { OnOk result (string_bytes text.new ≡ string_bytes text.old
        ++ line (codes "begin" ∷ begin_words (program_names set.now) server request.now)) }
{
    let client = request.client.number();
    let number = request.number;
    write!(text, "begin {server} {client} {number} ")?;
    put_program(text, set, request.program)?;
    put_numbers(text, request.args.as_slice())?;
    text.push_str("\n")
}

/// Writes the name of a program.
fn put_program(text: &mut String, set: &ChainSet, program: ProgramId) -> Result<(), AllocError>
    ensures { OnOk result (string_bytes text.new ≡ string_bytes text.old
        ++ name_at (program_names set.now) program) }
{
    match set.programs().get_index(program.index()) {
        Some((name, _)) => write!(text, "{name}"),
        None => Ok(()),
    }
}

/// Writes numbers with a space before each.
fn put_numbers(text: &mut String, numbers: &[u64]) -> Result<(), AllocError>
    ensures { OnOk result (string_bytes text.new ≡ string_bytes text.old
        ++ spaced (map decimal numbers.now)) }
{
    for number in numbers {
        write!(text, " {number}")?;
    }
    Ok(())
}
