//! Reading the text of a set.

ghost use Rattle.std.specs.Prelude.{◌≡◌, ◌≢◌, ◌↔◌, ◌⊎◌, false, codes, IfErr, IsErrAnd, IsErrOf, ◌<◌, ◌≤◌, ◌+◌, ◌-◌, [], None, Some, length, map, OnOk, IfOk};
ghost use Rattle.lynx_lex.specs.Gives.{Gives, IsOfLine};
ghost use Rattle.lynx_lex.specs.Lines.{texts};
ghost use Rattle.lynx_text.specs.Pieces.{until, version_of, version_told};
ghost use Rattle.lynx_set.specs.Plain.{plain_set, plain_program};
ghost use Rattle.lynx_set.specs.Home.{AreLiteralsHome};
ghost use Rattle.lynx_set.specs.Rules.{IsSet};
ghost use Rattle.lynx_set.specs.Set.{Set};
ghost use Rattle.lynx_set.specs.Text.{text_of};
ghost use Rattle.lynx_set.specs.Names.{place_of};
ghost use Rattle.lynx_text.specs.Parts.{parts, goes_action, goes_hop, goes_program, next_action, next_hop, program_head, next_program, set_at, lines_at, read_text, with_name, servers_of, program_line, parameters_of, hop_line, end_line};
ghost use Rattle.lynx_text.specs.Ranges.{goes_range, next_parameter, next_range};
ghost use Rattle.lynx_names.specs.declared.limits.TheConstants.{MAX_ACTIONS, MAX_HOPS, MAX_PARAMETERS, MAX_PROGRAMS, MAX_SERVERS, MAX_TEXT_BYTES};

use crate::action_line::read_action;
use crate::lines::{Lines, one_after, two_and_more};
use crate::range_line::read_range_line;
use crate::scope::{Scope, name_of, new_name, number_of};
use crate::table_lines::read_tables;
use lynx_lex::{FaultKind, Name, TextFault, WordFault, at};
use lynx_names::limits::{MAX_HOPS, MAX_PARAMETERS, MAX_PROGRAMS, MAX_SERVERS, MAX_TEXT_BYTES};
use lynx_names::{Items, ServerId};
use lynx_set::{Action, ChainSet, Hop, Program, Version};
use std::alloc::Global;

/// The set that the text spells. An error tells the fault on the earliest line, or want of memory.
pub fn parse(alloc: Global, text: &[u8]) -> Result<ChainSet, TextFault>
    // What is read is spelled so.
    ensures found { IfOk result (λ set. IsSet set × (text.now ≡ text_of set)) }
    ensures home { IfOk result AreLiteralsHome }

    // What is spelled so is read.
    ensures only { IfErr result (λ fault. (fault.kind ≡ FaultKind.Memory) ⊎ ((set : Set)
        → IsSet set → text.now ≢ text_of set)) }

    ensures too_long { IsErrAnd result (λ fault. fault.kind ≡ FaultKind.TooLong)
        ↔ (MAX_TEXT_BYTES < length text.now) }
    ensures bad_version { IsErrAnd result (λ fault. fault.kind ≡ FaultKind.BadVersion)
        ↔ (length text.now ≤ MAX_TEXT_BYTES) × (version_of (until text.now 10) ≡ None) }
{
    read_text(alloc, text)
}

/// A text spells one set at most.
pub fn no_text_spells_two_sets()
    ensures { (set : Set) (other : Set) → IsSet set → IsSet other → text_of set ≡ text_of other
        → set ≡ other }
{}

fn read_text(alloc: Global, text: &[u8]) -> Result<ChainSet, TextFault>
    ensures read { IfOk result (λ set. read_text text.now ≡ Some (plain_set set)) }
    ensures none { IfErr result (λ fault. (fault.kind ≡ FaultKind.Memory)
        ⊎ (read_text text.now ≡ None)) }
    ensures too_long { IsErrAnd result (λ fault. fault.kind ≡ FaultKind.TooLong)
        ↔ (MAX_TEXT_BYTES < length text.now) }
    ensures bad_version { IsErrAnd result (λ fault. fault.kind ≡ FaultKind.BadVersion)
        ↔ (length text.now ≤ MAX_TEXT_BYTES) × (version_of (until text.now 10) ≡ None) }
{
    if text.len() > MAX_TEXT_BYTES {
        return Err(TextFault {
            kind: FaultKind::TooLong,
            line: 0,
            word: 0,
        });
    }
    let mut lines = Lines::new(text);
    match read_lines(alloc, &mut lines) {
        Ok(set) => Ok(set),
        Err(fault) => Err(fault.on(lines.line())),
    }
}

/// The version's line and those after it.
#[tactic(auto, unfolding(crate::specs::Parts::lines_at))]
fn read_lines(alloc: Global, lines: &mut Lines) -> Result<ChainSet, WordFault>
    ensures found { IfOk result (λ set. lines_at lines.old ≡ Some (plain_set set)) }
    ensures none { IfErr result (λ kind. (kind ≡ FaultKind.Memory) ⊎ (lines_at lines.old ≡ None)) }
    ensures version { IsErrOf result FaultKind.BadVersion ↔ (version_told lines.old ≡ None) }
    ensures short { IfErr result (λ kind. kind ≢ FaultKind.TooLong) }
{
    let version = lines.version()?;
    let set = read_set(alloc, lines, version)?;
    Ok(set)
}

/// The lines after the version's.
#[tactic(auto, unfolding(crate::specs::Parts::set_at))]
fn read_set(alloc: Global, lines: &mut Lines, version: Version) -> Result<ChainSet, WordFault>
    ensures value { Gives plain_set result (set_at version lines.old) }
    ensures line { IfErr result IsOfLine }
{
    let words = lines.next_words(alloc)?;
    let servers = read_servers(&words)?;
    let mut set = ChainSet::new(alloc, version, servers);
    read_tables(alloc, lines, &mut set)?;
    read_programs(alloc, lines, &mut set)?;
    lines.end()?;
    Ok(set)
}

/// The programs of a set that has none yet.
fn read_programs(alloc: Global, lines: &mut Lines, set: &mut ChainSet) -> Result<(), WordFault>
    requires { set.old.programs ≡ [] }
    ensures { Gives (λ _. (plain_set set.new, lines.new)) result
        (parts goes_program next_program MAX_PROGRAMS (plain_set set.old) lines.old) }
{
    'programs: while lines.begins_with(b"program".as_slice()) {
        read_program(alloc, lines, set)?;
    }
    Ok(())
}

/// `servers N`
#[tactic(auto, unfolding(crate::specs::Parts::servers_of))]
fn read_servers(words: &[&[u8]]) -> Result<u8, WordFault>
    ensures value { Gives (λ servers. servers) result (servers_of (texts words.now)) }
    ensures few { IfOk result (λ servers. servers ≤ MAX_SERVERS) }
{
    let word = one_after(b"servers".as_slice(), words)?;
    let count = at(2, number_of(word))?;
    if 1 <= count && count <= u64::from(MAX_SERVERS) {
        Ok(count as u8)
    } else {
        Err(WordFault::new(FaultKind::LimitPassed, 2))
    }
}

/// A program's line, those of its ranges, its hops and its end.
#[tactic(auto, using(crate::proofs::Sets::names_plain), unfolding(crate::specs::Parts::next_program))]
fn read_program(alloc: Global, lines: &mut Lines, set: &mut ChainSet) -> Result<(), WordFault>
    ensures value { Gives (λ _. (plain_set set.new, lines.new)) result (next_program
        (plain_set set.old) lines.old) }
    ensures shrinks { OnOk result (length lines.new < length lines.old) }
    ensures count { OnOk result (length set.new.programs ≡ length set.old.programs + 1) }
    ensures few { OnOk result (length set.new.programs ≤ MAX_PROGRAMS) }
{
    let (name, mut program) = read_program_head(alloc, lines, set)?;
    read_hop(alloc, lines, set, &mut program)?;
    read_hops(alloc, lines, set, &mut program)?;
    let words = lines.next_words(alloc)?;
    read_end(&words)?;
    set.add_program(name, program)?;
    Ok(())
}

/// A program's line and those of its ranges. It has no hops yet.
#[tactic(auto, using(crate::proofs::Sets::names_plain), unfolding(crate::specs::Parts::program_head))]
fn read_program_head(
    alloc: Global,
    lines: &mut Lines,
    set: &ChainSet,
) -> Result<(Name, Program), WordFault>
    ensures value { Gives (λ head. ((head.0, plain_program head.1), lines.new)) result
        (program_head (plain_set set.now) lines.old) }
    ensures shrinks { OnOk result (length lines.new < length lines.old) }
    ensures new { IfOk result (λ head. place_of (map (λ named.
        named.0) set.now.programs) head.0 ≡ None) }
    ensures room { OnOk result (length set.now.programs < MAX_PROGRAMS) }
    ensures hops { IfOk result (λ head. head.1.hops ≡ []) }
{
    let words = lines.next_words(alloc)?;
    let (name, names) = read_program_line(alloc, &words, set)?;
    let mut program = Program {
        parameters: names.len(),
        names,
        ranges: Items::new(alloc),
        hops: Items::new(alloc),
    };
    read_ranges(alloc, lines, set.version(), &mut program)?;
    Ok((name, program))
}

/// The ranges of a program that has none yet.
fn read_ranges(
    alloc: Global,
    lines: &mut Lines,
    version: Version,
    program: &mut Program,
) -> Result<(), WordFault>
    requires none { program.old.ranges ≡ [] }
    requires few { length program.old.names ≤ MAX_PARAMETERS }
    ensures value { Gives (λ _. (plain_program program.new, lines.new)) result
        (parts (goes_range version) next_range MAX_PARAMETERS (plain_program program.old)
        lines.old) }
    ensures shrinks { OnOk result (length lines.new ≤ length lines.old) }
    ensures hops { program.new.hops ≡ program.old.hops }
{
    'range_lines: while is_range_next(lines, version) {
        add_range(alloc, lines, program)?;
    }
    Ok(())
}

/// Whether the next line is a range's. Version 1 has none.
fn is_range_next(lines: &Lines, version: Version) -> bool
    ensures { result ≡ goes_range version lines.now }
{
    match version {
        Version::One => false,
        Version::Two => lines.begins_with(b"range".as_slice()),
    }
}

/// Reads the line of a program's next range, and adds the range.
#[tactic(auto, unfolding(crate::specs::Ranges::next_range))]
fn add_range(alloc: Global, lines: &mut Lines, program: &mut Program) -> Result<(), WordFault>
    ensures value { Gives (λ _. (plain_program program.new, lines.new)) result (next_range
        (plain_program program.old) lines.old) }
    ensures shrinks { OnOk result (length lines.new < length lines.old) }
    ensures count { OnOk result (length program.new.ranges ≡ length program.old.ranges + 1) }
    ensures behind { OnOk result
        (next_parameter program.old.ranges < next_parameter program.new.ranges) }
    ensures within { OnOk result (next_parameter program.new.ranges ≤ length program.new.names) }
    ensures names { program.new.names ≡ program.old.names }
    ensures hops { program.new.hops ≡ program.old.hops }
{
    let words = lines.next_words(alloc)?;
    let range = read_range_line(&words, program.names.as_slice(), program.ranges.as_slice())?;
    program.ranges.push(range)?;
    Ok(())
}

/// `program NAME PARAMETER..`
#[tactic(auto, using(crate::proofs::Shapes::program_line_other), unfolding(crate::specs::Parts::program_line))]
fn read_program_line(
    alloc: Global,
    words: &[&[u8]],
    set: &ChainSet,
) -> Result<(Name, Items<Name>), WordFault>
    ensures value { Gives (λ head. head) result (program_line (map (λ named.
        named.0) set.now.programs) (texts words.now)) }
    ensures few { IfOk result (λ head. length head.1 ≤ MAX_PARAMETERS) }
    ensures new { IfOk result (λ head. place_of (map (λ named.
        named.0) set.now.programs) head.0 ≡ None) }
    ensures room { OnOk result (length set.now.programs < MAX_PROGRAMS) }
{
    let (word, name, parameters) = two_and_more(words)?;
    if word != b"program".as_slice() {
        return Err(WordFault::new(FaultKind::BadLine, 1));
    }
    if set.programs().len() >= usize::from(MAX_PROGRAMS) {
        return Err(WordFault::new(FaultKind::LimitPassed, 0));
    }
    if parameters.len() > MAX_PARAMETERS {
        return Err(WordFault::new(FaultKind::LimitPassed, MAX_PARAMETERS + 3));
    }
    let name = at(2, name_of(name))?;
    if set.place_of_program(&name).is_some() {
        return Err(WordFault::new(FaultKind::Repeated, 2));
    }
    let names = read_parameters(alloc, parameters)?;
    Ok((name, names))
}

/// The names of parameters, which are distinct.
fn read_parameters(alloc: Global, words: &[&[u8]]) -> Result<Items<Name>, WordFault>
    ensures value { Gives (λ names. names) result (parameters_of [] (texts words.now)) }
    ensures count { IfOk result (λ names. length names ≡ length words.now) }
{
    let mut names = Items::new(alloc);
    for word in words {
        let name = at(
            names.len().saturating_add(3),
            new_name(names.as_slice(), word),
        )?;
        names.push(name)?;
    }
    Ok(names)
}

/// The hops that are left of a program.
fn read_hops(
    alloc: Global,
    lines: &mut Lines,
    set: &ChainSet,
    program: &mut Program,
) -> Result<(), WordFault>
    ensures value { Gives (λ _. (plain_program program.new, lines.new)) result
        (parts goes_hop (next_hop (plain_set set.now))
        (MAX_HOPS - length (plain_program program.old).hops) (plain_program program.old)
        lines.old) }
    ensures shrinks { OnOk result (length lines.new ≤ length lines.old) }
{
    'hops: while lines.begins_with(b"hop".as_slice()) {
        read_hop(alloc, lines, set, program)?;
    }
    Ok(())
}

/// A hop's line and those of its actions.
#[tactic(auto, using(crate::proofs::Sets::hops_plain), unfolding(crate::specs::Parts::next_hop))]
fn read_hop(
    alloc: Global,
    lines: &mut Lines,
    set: &ChainSet,
    program: &mut Program,
) -> Result<(), WordFault>
    ensures value { Gives (λ _. (plain_program program.new, lines.new)) result (next_hop
        (plain_set set.now) (plain_program program.old) lines.old) }
    ensures shrinks { OnOk result (length lines.new < length lines.old) }
    ensures count { OnOk result (length program.new.hops ≡ length program.old.hops + 1) }
    ensures few { OnOk result (length program.new.hops ≤ MAX_HOPS) }
{
    let words = lines.next_words(alloc)?;
    let server = read_hop_line(&words, set.servers(), program.hops.len())?;
    let mut actions = Items::new(alloc);
    add_action(alloc, lines, set, program, server, &mut actions)?;
    read_actions(alloc, lines, set, program, server, &mut actions)?;
    program.hops.push(Hop { server, actions })?;
    Ok(())
}

/// The actions that are left of a hop.
fn read_actions(
    alloc: Global,
    lines: &mut Lines,
    set: &ChainSet,
    program: &mut Program,
    server: ServerId,
    actions: &mut Items<Action>,
) -> Result<(), WordFault>
    requires { length actions.old ≤ MAX_ACTIONS }
    ensures value { Gives (λ _. ((plain_program program.new, actions.new), lines.new)) result
        (parts goes_action (next_action (plain_set set.now) server)
        (MAX_ACTIONS - length actions.old) (plain_program program.old, actions.old) lines.old) }
    ensures shrinks { OnOk result (length lines.new ≤ length lines.old) }
    ensures few { OnOk result (length actions.new ≤ MAX_ACTIONS) }
    ensures hops { program.new.hops ≡ program.old.hops }
{
    'actions: while is_action_next(lines) {
        add_action(alloc, lines, set, program, server, actions)?;
    }
    Ok(())
}

/// Whether the next line is neither a hop's nor the program's end.
fn is_action_next(lines: &Lines) -> bool
    ensures { result ≡ goes_action lines.now }
{
    !lines.begins_with(b"hop".as_slice()) && !lines.begins_with(b"end".as_slice())
}

/// `hop SERVER`
#[tactic(auto, unfolding(crate::specs::Parts::hop_line))]
fn read_hop_line(words: &[&[u8]], servers: u8, hops: usize) -> Result<ServerId, WordFault>
    requires { servers ≤ MAX_SERVERS }
    ensures value { Gives (λ server. server) result (hop_line servers hops (texts words.now)) }
    ensures room { OnOk result (hops < MAX_HOPS) }
{
    let word = one_after(b"hop".as_slice(), words)?;
    if hops >= MAX_HOPS {
        return Err(WordFault::new(FaultKind::LimitPassed, 0));
    }
    let number = at(2, number_of(word))?;
    at(
        2,
        ServerId::among(servers, number).ok_or(FaultKind::Unknown),
    )
}

/// Reads the line of a hop's next action, and adds the action and the name that it binds.
#[tactic(auto, using(crate::proofs::Sets::hops_plain), unfolding(crate::specs::Parts::next_action))]
fn add_action(
    alloc: Global,
    lines: &mut Lines,
    set: &ChainSet,
    program: &mut Program,
    server: ServerId,
    actions: &mut Items<Action>,
) -> Result<(), WordFault>
    ensures value { Gives (λ _. ((plain_program program.new, actions.new), lines.new)) result
        (next_action (plain_set set.now) server (plain_program program.old, actions.old)
        lines.old) }
    ensures shrinks { OnOk result (length lines.new < length lines.old) }
    ensures count { OnOk result (length actions.new ≡ length actions.old + 1) }
    ensures few { OnOk result (length actions.new ≤ MAX_ACTIONS) }
    ensures hops { program.new.hops ≡ program.old.hops }
{
    let words = lines.next_words(alloc)?;
    let scope = Scope {
        set,
        parameters: program.parameters,
        names: program.names.as_slice(),
        is_first: program.hops.len() == 0,
        server,
        actions: actions.len(),
    };
    let line = read_action(&words, &scope)?;
    add_name(program, line.binds)?;
    actions.push(line.action)?;
    Ok(())
}

/// Adds the name that a line binds, if it binds one.
fn add_name(program: &mut Program, name: Option<Name>) -> Result<(), WordFault>
    ensures value { Gives (λ _. plain_program program.new) result (Some (with_name
        (plain_program program.old) name)) }
    ensures hops { program.new.hops ≡ program.old.hops }
{
    if let Some(name) = name {
        program.names.push(name)?;
    }
    Ok(())
}

/// `end`
fn read_end(words: &[&[u8]]) -> Result<(), WordFault>
    ensures { Gives (λ x. x) result (end_line (texts words.now)) }
{
    if words.len() == 1 && words[0] == b"end".as_slice() {
        Ok(())
    } else {
        Err(WordFault::new(FaultKind::BadLine, 0))
    }
}
