//! Names as they are printed.
use lynx_fixtures::made::chain;
use lynx_names::Memory;
use std::alloc::Global;

/// Whether the 15th chain of the fourth server is printed by these numbers.
fn chain_is_printed(alloc: Global) -> Result<bool, Memory> {
    let printed = chain(3, 14)?.to_string(alloc)?;
    Ok(printed.as_str() == "3:14")
}

#[test]
fn a_chain_is_printed_by_origin_and_index(rt: HostRuntime) {
    assert!(rt; chain_is_printed(rt.alloc()) == Ok(true));
}
