//! What a line asks.
ghost use Rattle.std.specs.Prelude.{ℕ, List, ◌≡◌, ◌++◌, ◌∷◌, [], IfErr, IfOk, IfSome};
ghost use Rattle.lynx_lines.specs.Scripts.{script_of};
ghost use Rattle.lynx_codec.specs.Ranges.{IsInRange};
ghost use Rattle.lynx_ask.specs.Asking.{IsAskedBy, IsBeginOf, IsFromClient, IsLookOf, IsTooLong, Sends, has_hop_from, item_of, may_run, waits_in, with_wait};

use lynx_codec::{Item, Look};
use lynx_entry::{Event, Request};
use lynx_lex::lines::first_word;
use lynx_lex::{FaultKind, WordFault};
use lynx_lines::parse_script;
use lynx_names::limits::MAX_PARAMETERS;
use lynx_names::{ChainId, Memory, ServerId};
use lynx_set::{ChainSet, Program};
use std::alloc::Global;

/// What a line asks for.
#[derive(Debug, PartialEq, Eq, Drop)]
pub enum Asked {
    Begin(Request),
    Look {
        chain: ChainId,
        hop: u8,
        /// Whether it is asked again and again until the hop is done.
        waits: bool,
    },
    Quit,
    Shut,
}

/// Whether it is a program that begins at that server and has that hop.
fn has_hop_from(origin: ServerId, hop: u8, program: &Program) -> bool
    ensures { (name : List ℕ) → result ≡ has_hop_from origin hop (name, program.now) }
{
    match program.hops.as_slice().first() {
        Some(first) => first.server == origin && usize::from(hop) < program.hops.len(),
        None => false,
    }
}

/// Whether a chain that began at that server may do that hop.
fn may_run(set: &ChainSet, chain: &ChainId, hop: u8) -> bool
    ensures { result ≡ may_run set.now chain.now hop }
{
    for (_, program) in set.programs() {
        if has_hop_from(chain.origin, hop, program) {
            return true;
        }
    }
    false
}

impl Asked {
    /// Whether it is asked until a hop is done: where the line says so, and a chain of the set may
    /// do it.
    pub fn waits(&self, set: &ChainSet) -> bool
        ensures { result ≡ waits_in set.now self.now }
    {
        match self {
            Asked::Look { chain, hop, waits } => *waits && may_run(set, chain, *hop),
            _ => false,
        }
    }
}

/// The line of a script that has these words behind its first ones.
fn script_line(alloc: Global, verb: &[u8], words: &[u8]) -> Result<Vec<u8>, Memory>
    ensures { IfOk result (λ line. line.items ≡ verb.now ++ words.now ++ 10 ∷ []) }
{
    let mut line = Vec::from_slice(alloc, verb)?;
    line.extend_from_slice(words)?;
    line.push(b'\n')?;
    Ok(line)
}

/// The event of that line. A script's line may have more words before the one at fault.
fn event_of(
    alloc: Global,
    set: &ChainSet,
    verb: &[u8],
    words: &[u8],
    more: usize,
) -> Result<Option<Event>, WordFault>
    ensures { IfOk result (λ found. IfSome found (λ event. script_of set.now (event ∷ [])
        ≡ verb.now ++ words.now ++ 10 ∷ [])) }
{
    let line = script_line(alloc, verb, words)?;
    match parse_script(alloc, set, line.as_slice()) {
        Ok(mut events) if events.len() == 1 => Ok(events.pop()),
        Ok(_) => Ok(None),
        Err(fault) => Err(WordFault::new(fault.kind, fault.word.saturating_sub(more))),
    }
}

/// `CLIENT NUMBER PROGRAM ARG..`
fn read_begin(alloc: Global, set: &ChainSet, words: &[u8]) -> Result<Asked, WordFault>
    ensures { IfOk result (IsBeginOf set.now words.now) }
{
    match event_of(alloc, set, b"begin 0 ", words, 1)? {
        Some(Event::Begin { request, .. }) => Ok(Asked::Begin(request)),
        _ => Err(WordFault::new(FaultKind::BadLine, 0)),
    }
}

/// `ORIGIN:INDEX HOP`
fn read_message(
    alloc: Global,
    set: &ChainSet,
    words: &[u8],
    waits: bool,
) -> Result<Asked, WordFault>
    ensures { IfOk result (IsLookOf set.now (with_wait waits words.now)) }
{
    let found = event_of(alloc, set, b"deliver ", words, 0)?;
    match &found {
        Some(Event::Deliver { chain, hop }) => Ok(Asked::Look {
            chain: *chain,
            hop: *hop,
            waits,
        }),
        _ => Err(WordFault::new(FaultKind::BadLine, 0)),
    }
}

/// The same, and `wait` behind it where it is to be asked until the hop is done.
fn read_look(alloc: Global, set: &ChainSet, words: &[u8]) -> Result<Asked, WordFault>
    ensures { IfOk result (IsLookOf set.now words.now) }
{
    if let Some(message) = words.strip_suffix(b" wait".as_slice()) {
        read_message(alloc, set, message, true)
    } else {
        read_message(alloc, set, words, false)
    }
}

/// Which word of a line is at fault that is none of those that ask: its first, or none where that
/// may begin a line.
fn place_of_fault(line: &[u8]) -> usize {
    let verb = first_word(line).0;
    let verbs = [
        b"begin".as_slice(),
        b"look".as_slice(),
        b"quit".as_slice(),
        b"shut".as_slice(),
    ];
    if verbs.iter().any(|known| *known == verb) {
        0
    } else {
        1
    }
}

/// Reads a line, without its LF. `begin CLIENT NUMBER PROGRAM ARG..` and `look CHAIN HOP` are a
/// script's `begin` without its server and its `deliver`, with the faults of these, and are read as
/// these: the service knows where a program begins. Behind `look CHAIN HOP` may stand `wait`.
pub fn read_asked(alloc: Global, set: &ChainSet, line: &[u8]) -> Result<Asked, WordFault>
    ensures { IfOk result (IsAskedBy set.now line.now) }
{
    if line == b"quit".as_slice() {
        return Ok(Asked::Quit);
    }
    if line == b"shut".as_slice() {
        return Ok(Asked::Shut);
    }
    if line.contains(&b'\n') {
        return Err(WordFault::new(FaultKind::BadLine, 0));
    }
    if let Some(words) = line.strip_prefix(b"begin ".as_slice()) {
        read_begin(alloc, set, words)
    } else if let Some(words) = line.strip_prefix(b"look ".as_slice()) {
        read_look(alloc, set, words)
    } else {
        Err(WordFault::new(FaultKind::BadLine, place_of_fault(line)))
    }
}

/// What a client sends for it.
pub(crate) fn item_of(asked: Asked) -> Result<Item, FaultKind>
    ensures range { IfOk result IsInRange }
    ensures item { IfOk result (λ item. item ≡ item_of asked) }
    ensures long { IfErr result (IsTooLong asked) }
{
    match asked {
        // A script's line has no more.
        Asked::Begin(request) if request.args.len() > MAX_PARAMETERS => Err(FaultKind::LimitPassed),
        Asked::Begin(request) => Ok(Item::Request(request)),
        Asked::Look { chain, hop, .. } => Ok(Item::Look(Look { chain, hop })),
        Asked::Quit => Ok(Item::Quit),
        Asked::Shut => Ok(Item::Shut),
    }
}

/// What a client sends for a line, and whether it is asked until a hop is done.
pub(crate) fn read_item(
    alloc: Global,
    set: &ChainSet,
    line: &[u8],
) -> Result<(Item, bool), WordFault>
    ensures range { IfOk result (λ asked. IsInRange asked.0) }
    ensures sent { IfOk result (λ asked. IsFromClient asked.0) }
    ensures asked { IfOk result (λ sent. Sends set.now line.now sent.0 sent.1) }
{
    let asked = read_asked(alloc, set, line)?;
    let waits = asked.waits(set);
    Ok((item_of(asked)?, waits))
}
