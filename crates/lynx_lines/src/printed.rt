//! The printed lines: docs/FORMATS.md has their forms.
ghost use Rattle.std.specs.Prelude.{◌≡◌, ◌++◌, ◌∷◌, [], OnOk, IfOk, codes};
ghost use Rattle.std.specs.String.{string_bytes};
ghost use Rattle.std.specs.Fmt.{decimal};
ghost use Rattle.std.specs.List.{flat_map};
ghost use Rattle.lynx_names.specs.Chain.{chain_text};
ghost use Rattle.lynx_lines.specs.Printed.{spaced, values_text, again_text, answer_text, begun_text, chains_text, next_text, hop_done_text, hop_text, refused_text, delivered_text, outcome_text, entry_text};
ghost use Rattle.lynx_lex.specs.Lines.{with_feed};

use lynx_entry::{Answer, Delivered, Entry, Message, Outcome};
use lynx_names::{ChainId, Stamp};
use std::alloc::{AllocError, Global};
use std::fmt::Write;

/// A list of values: single spaces between them, or `-` where there is none.
pub fn push_values(text: &mut String, values: &[u64]) -> Result<(), AllocError>
    ensures { OnOk result (string_bytes text.new ≡ string_bytes text.old
        ++ values_text values.now) }
{
    match values {
        [] => text.push_str("-"),
        [first, rest @ ..] => {
            write!(text, "{first}")?;
            push_spaced(text, rest)
        }
    }
}

/// Values with a space before each.
pub fn push_spaced(text: &mut String, values: &[u64]) -> Result<(), AllocError>
    ensures { OnOk result (string_bytes text.new ≡ string_bytes text.old ++ spaced values.now) }
{
    for value in values {
        write!(text, " {value}")?;
    }
    Ok(())
}

fn push_again(text: &mut String, again: bool) -> Result<(), AllocError>
    ensures { OnOk result (string_bytes text.new ≡ string_bytes text.old ++ again_text again) }
{
    if again {
        text.push_str(" again")?;
    }
    Ok(())
}

/// A chain that began.
pub fn push_begun(
    text: &mut String,
    chain: &ChainId,
    stamp: Stamp,
    results: &[u64],
) -> Result<(), AllocError>
    ensures { OnOk result (string_bytes text.new ≡ string_bytes text.old
        ++ begun_text chain.now stamp results.now) }
{
    write!(text, "begun {chain} stamp {stamp} results ")?;
    push_values(text, results)
}

/// A request that the need of that number refused.
pub fn push_refused(text: &mut String, need: u8, stamp: Stamp) -> Result<(), AllocError>
    ensures { OnOk result (string_bytes text.new ≡ string_bytes text.old
        ++ refused_text need stamp) }
{
    write!(text, "refused {need} stamp {stamp}")
}

/// What a begin is answered.
fn push_answer(text: &mut String, answer: &Answer) -> Result<(), AllocError>
    ensures { OnOk result (string_bytes text.new ≡ string_bytes text.old
        ++ answer_text answer.now) }
{
    match answer {
        Answer::Begun {
            chain,
            stamp,
            results,
            again,
        } => {
            push_begun(text, chain, *stamp, results.as_slice())?;
            push_again(text, *again)
        }
        Answer::Clash => text.push_str("clash"),
        Answer::UnknownProgram => text.push_str("unknown-program"),
        Answer::WrongOrigin => text.push_str("wrong-origin"),
        Answer::ArgCount => text.push_str("arg-count"),
        Answer::OutsideRange => text.push_str("outside-range"),
        Answer::WrongShard => text.push_str("wrong-shard"),
        Answer::Full => text.push_str("full"),
        Answer::Busy => text.push_str("busy"),
        Answer::Refused { need, stamp, again } => {
            push_refused(text, *need, *stamp)?;
            push_again(text, *again)
        }
        Answer::Stopped => text.push_str("stopped"),
        Answer::Memory => Ok(()),
    }
}

/// Where a chain goes on.
fn push_next(text: &mut String, next: &Option<Message>) -> Result<(), AllocError>
    ensures { OnOk result (string_bytes text.new ≡ string_bytes text.old ++ next_text next.now) }
{
    match next {
        Some(message) => {
            let hop = message.hop;
            write!(text, " next {hop}")
        }
        None => text.push_str(" end"),
    }
}

/// A hop of a chain, with a word before it.
pub fn push_hop(text: &mut String, word: &str, chain: &ChainId, hop: u8) -> Result<(), AllocError>
    ensures { OnOk result (string_bytes text.new ≡ string_bytes text.old
        ++ hop_text word.now chain.now hop) }
{
    write!(text, "{word} {chain} {hop}")
}

/// A hop that ran, with a word before it.
pub fn push_hop_done(
    text: &mut String,
    word: &str,
    chain: &ChainId,
    hop: u8,
    stamp: Stamp,
    results: &[u64],
) -> Result<(), AllocError>
    ensures { OnOk result (string_bytes text.new ≡ string_bytes text.old
        ++ hop_done_text word.now chain.now hop stamp results.now) }
{
    push_hop(text, word, chain, hop)?;
    write!(text, " stamp {stamp} results ")?;
    push_values(text, results)
}

/// What a delivery is answered.
fn push_delivered(
    text: &mut String,
    chain: &ChainId,
    hop: u8,
    delivered: &Delivered,
) -> Result<(), AllocError>
    ensures { OnOk result (string_bytes text.new ≡ string_bytes text.old
        ++ delivered_text chain.now hop delivered.now) }
{
    match delivered {
        Delivered::Done {
            stamp,
            results,
            next,
        } => {
            push_hop_done(text, "done", chain, hop, *stamp, results.as_slice())?;
            push_next(text, next)
        }
        Delivered::Repeat {
            stamp,
            results,
            next,
        } => {
            push_hop_done(text, "repeat", chain, hop, *stamp, results.as_slice())?;
            push_next(text, next)
        }
        Delivered::Held => push_hop(text, "held", chain, hop),
        Delivered::Dropped => push_hop(text, "dropped", chain, hop),
        Delivered::Malformed => text.push_str("malformed"),
        Delivered::Full => text.push_str("full"),
        Delivered::Stopped => text.push_str("stopped"),
        Delivered::Memory => Ok(()),
    }
}

/// What an outcome prints, without its LF.
fn push_outcome(text: &mut String, outcome: &Outcome) -> Result<(), AllocError>
    ensures { OnOk result (string_bytes text.new ≡ string_bytes text.old
        ++ outcome_text outcome.now) }
{
    match outcome {
        Outcome::Answered(answer) => push_answer(text, answer),
        Outcome::Delivered {
            chain,
            hop,
            delivered,
        }
        | Outcome::Woken {
            chain,
            hop,
            delivered,
        } => push_delivered(text, chain, *hop, delivered),
        Outcome::NotSent { chain, hop } => push_hop(text, "not-sent", chain, *hop),
        Outcome::LostNow { chain, hop } => push_hop(text, "lost", chain, *hop),
        Outcome::Idle { server } => write!(text, "idle {server}"),
        Outcome::Restarted { server } => write!(text, "restarted {server}"),
        Outcome::NoServer => text.push_str("no-server"),
        Outcome::Memory => Ok(()),
    }
}

/// The line that an outcome prints.
pub fn outcome_line(alloc: Global, outcome: &Outcome) -> Result<String, AllocError>
    ensures { IfOk result (λ text. string_bytes text ≡ with_feed (outcome_text outcome.now)) }
{
    let mut text = String::new(alloc);
    push_outcome(&mut text, outcome)?;
    text.push_str("\n")?;
    Ok(text)
}

/// What a server kept, without its LF.
pub fn push_entry(text: &mut String, entry: &Entry) -> Result<(), AllocError>
    ensures { OnOk result (string_bytes text.new ≡ string_bytes text.old ++ entry_text entry.now) }
{
    match entry {
        Entry::Begun(begun) => {
            push_begun(text, &begun.chain, begun.stamp, begun.results.as_slice())
        }
        Entry::Refused(refused) => push_refused(text, refused.need, refused.stamp),
        Entry::Hop(ran) => {
            let Message { chain, hop, .. } = &ran.message;
            push_hop_done(text, "hop", chain, *hop, ran.stamp, ran.results.as_slice())
        }
    }
}

/// The line of an entry that a server kept.
pub fn entry_line(alloc: Global, entry: &Entry) -> Result<String, AllocError>
    ensures { IfOk result (λ text. string_bytes text ≡ with_feed (entry_text entry.now)) }
{
    let mut text = String::new(alloc);
    push_entry(&mut text, entry)?;
    text.push_str("\n")?;
    Ok(text)
}

/// The line of a nonzero cell of a table of that name.
pub fn cell_line(alloc: Global, table: &[u8], key: u64, value: u64) -> Result<Vec<u8>, AllocError>
    ensures { IfOk result (λ text. text.items ≡ with_feed (codes "cell " ++ table.now
        ++ 32 ∷ decimal key ++ 32 ∷ decimal value)) }
{
    let mut text = Vec::new(alloc);
    text.extend_from_slice(b"cell ")?;
    text.extend_from_slice(table)?;
    let numbers = format!(in alloc; " {key} {value}\n")?;
    text.extend_from_slice(numbers.as_bytes())?;
    Ok(text)
}

/// The line of a conflict edge: from the hop by which one program is left to the hop at which
/// another is entered.
pub fn conflict_line(
    alloc: Global,
    program: &[u8],
    left: usize,
    next: &[u8],
    entered: usize,
) -> Result<Vec<u8>, AllocError>
    ensures { IfOk result (λ text. text.items ≡ with_feed (codes "conflict " ++ program.now
        ++ 32 ∷ decimal left ++ 32 ∷ next.now ++ 32 ∷ decimal entered)) }
{
    let mut text = Vec::new(alloc);
    text.extend_from_slice(b"conflict ")?;
    text.extend_from_slice(program)?;
    text.extend_from_slice(format!(in alloc; " {left} ")?.as_bytes())?;
    text.extend_from_slice(next)?;
    text.extend_from_slice(format!(in alloc; " {entered}\n")?.as_bytes())?;
    Ok(text)
}

/// Chains with a space before each.
fn push_each_chain(text: &mut String, chains: &[ChainId]) -> Result<(), AllocError>
    ensures { OnOk result (string_bytes text.new
        ≡ string_bytes text.old ++ flat_map (λ one. 32 ∷ chain_text one) chains.now) }
{
    for chain in chains {
        write!(text, " {chain}")?;
    }
    Ok(())
}

/// Chains with a space before each, or ` -` where there is none.
pub fn push_chains(text: &mut String, chains: &[ChainId]) -> Result<(), AllocError>
    ensures { OnOk result
        (string_bytes text.new ≡ string_bytes text.old ++ chains_text chains.now) }
{
    if chains.is_empty() {
        text.push_str(" -")
    } else {
        push_each_chain(text, chains)
    }
}

/// A line of chains behind a word: `order` or `cycle`. Where there is no chain, `-` stands in their
/// place.
pub fn chains_line(alloc: Global, word: &str, chains: &[ChainId]) -> Result<String, AllocError>
    ensures { IfOk result (λ text. string_bytes text ≡ with_feed (word.now
        ++ chains_text chains.now)) }
{
    let mut text = String::from_str(alloc, word)?;
    push_chains(&mut text, chains)?;
    text.push_str("\n")?;
    Ok(text)
}
