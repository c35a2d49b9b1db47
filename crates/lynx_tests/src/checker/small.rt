//! Small sets, drawn at random.
use lynx_fixtures::texts::set_of;
use lynx_names::Memory;
use lynx_set::ChainSet;
use std::alloc::Global;
use std::fmt::Write;

const HEAD: &str = "lynx 1\nservers 2\ntable t\nshard 0 9 0\nshard 10 18446744073709551615 1\n";

/// The next number of the sequence of a seed.
fn draw(state: &mut u64) -> u64 {
    *state = state
        .wrapping_mul(6_364_136_223_846_793_005)
        .wrapping_add(1_442_695_040_888_963_407);
    *state >> 33
}

fn add_action(text: &mut String, kind: u64, hop: u64, key: u64) -> Result<(), Memory> {
    match kind {
        0 => write!(text, "get x{hop} t {key}\n")?,
        1 => write!(text, "set t {key} 1\n")?,
        _ => write!(text, "add t {key} 1\n")?,
    }
    Ok(())
}

fn add_hop(text: &mut String, state: &mut u64, hop: u64) -> Result<(), Memory> {
    let server = draw(state) % 2;
    let key = 10 * server + draw(state) % 2;
    write!(text, "hop {server}\n")?;
    add_action(text, draw(state) % 3, hop, key)
}

fn add_program(text: &mut String, state: &mut u64, number: u64) -> Result<(), Memory> {
    write!(text, "program p{number}\n")?;
    for hop in 0..1 + draw(state) % 3 {
        add_hop(text, state, hop)?;
    }
    text.push_str("end\n")?;
    Ok(())
}

/// The text of a set of two or three programs, of three hops at most.
fn small_text(alloc: Global, seed: u64) -> Result<String, Memory> {
    let mut state = seed;
    let mut text = String::from_str(alloc, HEAD)?;
    for number in 0..2 + draw(&mut state) % 2 {
        add_program(&mut text, &mut state, number)?;
    }
    Ok(text)
}

pub fn small_set(alloc: Global, seed: u64) -> Result<Box<ChainSet>, Memory> {
    let text = small_text(alloc, seed)?;
    set_of(alloc, text.as_str())
}
