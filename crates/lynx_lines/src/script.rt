//! Scripts: docs/FORMATS.md has their lines, and the order in which their faults are judged.
ghost use Rattle.std.specs.Prelude.{ℕ, List, ◌≡◌, ◌≢◌, ◌<◌, ◌≤◌, ◌^◌, ◌↔◌, ◌⊎◌, ◌++◌, ◌∷◌, [], position, length, map, decimal, IfOk, IfErr, IfSome, IfNone, IsErrAnd, Some};
ghost use Rattle.std.specs.List.{AllByRecursion, slice_split};
ghost use Rattle.lynx_names.specs.declared.limits.TheConstants.{MAX_SERVERS, MAX_TEXT_BYTES};
ghost use Rattle.lynx_lex.specs.Lines.{next_line, texts, line};
ghost use Rattle.lynx_set.specs.Text.{name_at};
ghost use Rattle.lynx_names.specs.Chain.{chain_text};
ghost use Rattle.lynx_lines.specs.Scripts.{is_colon, begin_words, message_words, event_words, FitsServer, FitsProgram, FitsBegin, FitsMessage, FitsEvent, script_of, IsScript};
ghost use Rattle.lynx_lines.specs.inner.Spelled.{MeansUnread, IsRead};
ghost use Rattle.lynx_set.specs.Lookups.{program_names};

use lynx_entry::{Event, Request};
use lynx_lex::lines::{next_line, words_of};
use lynx_lex::number::number;
use lynx_lex::{FaultKind, Name, TextFault, WordFault, at};
use lynx_names::limits::{MAX_PARAMETERS, MAX_TEXT_BYTES};
use lynx_names::{ChainId, ClientId, Items, ProgramId, ServerId, Stamp, Values};
use lynx_set::ChainSet;
use std::alloc::Global;

/// The events that a script spells, all judged before any is run. An error tells the fault on the
/// earliest line, or want of memory.
pub fn parse_script(alloc: Global, set: &ChainSet, text: &[u8]) -> Result<Vec<Event>, TextFault>
    // What is read is spelled so.
    ensures found { IfOk result (λ events. IsScript set.now events.items
        × (text.now ≡ script_of set.now events.items)) }
    // What is spelled so is read.
    ensures only { IfErr result (λ fault. (fault.kind ≡ FaultKind.Memory)
        ⊎ ((events : List Event) → IsScript set.now events → text.now ≢ script_of set.now events)) }
    ensures too_long { IsErrAnd result (λ fault. fault.kind ≡ FaultKind.TooLong)
        ↔ (MAX_TEXT_BYTES < length text.now) }
{
    if text.len() > MAX_TEXT_BYTES {
        return Err(TextFault {
            kind: FaultKind::TooLong,
            line: 0,
            word: 0,
        });
    }
    let mut events = Vec::new(alloc);
    let mut rest = text;
    let mut line = 0usize;
    'lines: while !rest.is_empty() {
        line = line.saturating_add(1);
        rest = match read_line(alloc, set, rest, &mut events) {
            Ok(rest) => rest,
            Err(fault) => return Err(fault.on(line)),
        };
    }
    Ok(events)
}

/// Adds the event of the first line, and gives the lines behind it.
fn read_line<'a>(
    alloc: Global,
    set: &ChainSet,
    text: &'a [u8],
    events: &mut Vec<Event>,
) -> Result<&'a [u8], WordFault>
    ensures found { IfOk result (λ rest. (event : Event) × FitsEvent set.now event
        × (events.new.items ≡ events.old.items ++ event ∷ [])
        × (text.now ≡ line (event_words (program_names set.now) event) ++ rest.now)) }
    ensures next { IfOk result (λ rest. (first : List ℕ) × (next_line text.now
        ≡ Some (first, rest.now))) }
    ensures only { IfErr result (λ kind. MeansUnread kind ((event : Event) (more : List ℕ)
        → FitsEvent set.now event
        → text.now ≢ line (event_words (program_names set.now) event) ++ more)) }
    ensures shrinks { IfOk result (λ rest. length rest.now < length text.now) }
{
    let Some((line, rest)) = next_line(text) else {
        return Err(WordFault::new(FaultKind::BadLine, 0));
    };
    let words = words_of(alloc, line)?;
    let event = read_event(alloc, set, words.as_slice())?;
    events.push(event)?;
    Ok(rest)
}

/// The event of a line of these words.
fn read_event(alloc: Global, set: &ChainSet, words: &[&[u8]]) -> Result<Event, WordFault>
    ensures { IsRead (FitsEvent set.now) (event_words (program_names set.now))
        (texts words.now) result }
{
    let Some((verb, words)) = words.split_first() else {
        return Err(WordFault::new(FaultKind::BadLine, 0));
    };
    if *verb == b"begin".as_slice() {
        let (server, request) = read_begin(alloc, set, words)?;
        Ok(Event::Begin {
            server,
            request,
            seen: Stamp::zero(),
        })
    } else if *verb == b"deliver".as_slice() {
        let (chain, hop) = read_message(set, words)?;
        Ok(Event::Deliver { chain, hop })
    } else if *verb == b"lose".as_slice() {
        let (lost, hop) = read_message(set, words)?;
        Ok(Event::Lost { chain: lost, hop })
    } else if *verb == b"wake".as_slice() {
        let woken = read_one_server(set, words)?;
        Ok(Event::Wake { server: woken })
    } else if *verb == b"restart".as_slice() {
        let restarted = read_one_server(set, words)?;
        Ok(Event::Restart { server: restarted })
    } else {
        Err(WordFault::new(FaultKind::BadLine, 1))
    }
}

/// `SERVER`
fn read_one_server(set: &ChainSet, words: &[&[u8]]) -> Result<ServerId, WordFault>
    ensures { IsRead (FitsServer set.now) (λ server. decimal server ∷ []) (texts words.now) result }
{
    match words {
        [word] => at(2, read_server(set, word)),
        _ => Err(WordFault::new(FaultKind::BadLine, 0)),
    }
}

/// `SERVER CLIENT NUMBER PROGRAM ARG..`
fn read_begin(
    alloc: Global,
    set: &ChainSet,
    words: &[&[u8]],
) -> Result<(ServerId, Request), WordFault>
    ensures { IsRead (λ begin. FitsBegin set.now begin.0 begin.1 0) (λ begin.
        begin_words (program_names set.now) begin.0 begin.1) (texts words.now) result }
{
    if words.len() < 4 {
        return Err(WordFault::new(FaultKind::BadLine, 0));
    }
    let (server, client, number, program) = (words[0], words[1], words[2], words[3]);
    let args = &words[4..];
    if args.len() > MAX_PARAMETERS {
        return Err(WordFault::new(FaultKind::LimitPassed, MAX_PARAMETERS + 6));
    }
    let server = at(2, read_server(set, server))?;
    let client = ClientId::new(at(3, read_number(client))?);
    let number = at(4, read_number(number))?;
    let program = at(5, read_program(set, program))?;
    let args = read_numbers(alloc, args)?;
    let request = Request {
        client,
        number,
        program,
        args,
    };
    Ok((server, request))
}

/// The arguments of a begin, one for each word.
fn read_numbers(alloc: Global, words: &[&[u8]]) -> Result<Values, WordFault>
    ensures { IsRead (AllByRecursion (λ number. number < 2 ^ 64)) (map decimal)
        (texts words.now) result }
{
    let mut numbers = Items::new(alloc);
    for word in words {
        let number = at(numbers.len().saturating_add(6), read_number(word))?;
        numbers.push(number)?;
    }
    Ok(numbers)
}

/// `ORIGIN:INDEX HOP`
fn read_message(set: &ChainSet, words: &[&[u8]]) -> Result<(ChainId, u8), WordFault>
    ensures { IsRead (λ message. FitsMessage set.now message.0 message.1) (λ message.
        message_words message.0 message.1) (texts words.now) result }
{
    if words.len() != 2 {
        return Err(WordFault::new(FaultKind::BadLine, 0));
    }
    let chain = at(2, read_chain(set, words[0]))?;
    let hop = at(3, read_hop(words[1]))?;
    Ok((chain, hop))
}

/// `ORIGIN:INDEX`, the origin a server of the set.
fn read_chain(set: &ChainSet, word: &[u8]) -> Result<ChainId, FaultKind>
    ensures { IsRead (λ chain. FitsServer set.now chain.origin
        × (chain.index < 2 ^ 64)) chain_text word.now result }
{
    let servers = set.servers();
    let Some((origin, index)) = split_chain(word) else {
        return Err(FaultKind::BadLine);
    };
    let origin = read_number(origin)?;
    let index = read_number(index)?;
    let origin = known_server(servers, origin)?;
    Ok(ChainId { origin, index })
}

/// The parts before and behind the one colon.
fn split_chain(word: &[u8]) -> Option<(&[u8], &[u8])>
    ensures found { IfSome result (λ parts. slice_split is_colon word.now
        ≡ parts.0.now ∷ parts.1.now ∷ []) }
    ensures none { IfNone result ((origin index : List ℕ)
        → slice_split is_colon word.now ≢ origin ∷ index ∷ []) }
{
    let colon = place_of_colon(word)?;
    let index = &word[colon + 1..];
    match place_of_colon(index) {
        Some(_) => None,
        None => Some((&word[..colon], index)),
    }
}

fn place_of_colon(word: &[u8]) -> Option<usize>
    ensures place { result ≡ position is_colon word.now }
    ensures within { IfSome result (λ place. place < length word.now) }
{
    word.iter().position(|byte| *byte == b':')
}

/// A number below 256.
fn read_hop(word: &[u8]) -> Result<u8, FaultKind>
    ensures { IsRead (λ hop. hop < 256) decimal word.now result }
{
    let number = read_number(word)?;
    if number > 255 {
        return Err(FaultKind::BadNumber);
    }
    Ok(number as u8)
}

fn read_number(word: &[u8]) -> Result<u64, FaultKind>
    ensures { IsRead (λ number. number < 2 ^ 64) decimal word.now result }
{
    number(word).ok_or(FaultKind::BadNumber)
}

/// A server of the set.
fn read_server(set: &ChainSet, word: &[u8]) -> Result<ServerId, FaultKind>
    ensures { IsRead (FitsServer set.now) decimal word.now result }
{
    let servers = set.servers();
    let number = read_number(word)?;
    known_server(servers, number)
}

/// The server of that number, where there are so many.
fn known_server(servers: u8, number: u64) -> Result<ServerId, FaultKind>
    requires { servers ≤ MAX_SERVERS }
    ensures ok { IfOk result (λ server. (server ≡ number) × (number < servers)) }
    ensures err { IfErr result (λ kind. (kind ≡ FaultKind.Unknown) × (servers ≤ number)) }
{
    ServerId::among(servers, number).ok_or(FaultKind::Unknown)
}

/// A program of the set.
fn read_program(set: &ChainSet, word: &[u8]) -> Result<ProgramId, FaultKind>
    ensures { IsRead (FitsProgram set.now) (name_at (program_names set.now)) word.now result }
{
    let Some(name) = Name::new(word) else {
        return Err(FaultKind::BadName);
    };
    match set.find_program(&name) {
        Some(program) => Ok(program),
        None => Err(FaultKind::Unknown),
    }
}
