//! A run without the chains that its cycle can spare.
use crate::cycles::facts::Facts;
use crate::cycles::run::Run;
use lynx_names::Memory;
use std::alloc::Global;

/// The run without chains, but those of the circle, whose lack refuses none of the other hops:
/// those that began last are left out first.
pub(crate) fn spared(
    alloc: Global,
    facts: &Facts<'_>,
    run: Run,
    circle: &[usize],
) -> Result<Run, Memory> {
    let mut is_spare = vec![in alloc; false; run.chains.len()]?;
    let mut least = None;
    for chain in (0..run.chains.len()).rev() {
        if !circle.contains(&chain) {
            set(&mut is_spare, chain, true);
            match without(alloc, facts, &run, is_spare.as_slice())? {
                Some(fewer) => least = Some(fewer),
                None => set(&mut is_spare, chain, false),
            }
        }
    }
    Ok(least.unwrap_or(run))
}

fn set(is_spare: &mut Vec<bool>, chain: usize, is: bool) {
    if let Some(slot) = is_spare.get_mut(chain) {
        *slot = is;
    }
}

/// The run of the same hops but those of the spare chains. None where one of them is refused then.
fn without(
    alloc: Global,
    facts: &Facts<'_>,
    run: &Run,
    is_spare: &[bool],
) -> Result<Option<Run>, Memory> {
    let mut fewer = Run::new(alloc);
    for step in run.steps.iter() {
        let Some(begun) = run.chains.get(step.chain) else {
            return Ok(None);
        };
        if is_spare.get(step.chain) == Some(&true) {
            continue;
        }
        let acted = if step.hop == 0 {
            fewer.begin(alloc, facts, begun.program, &begun.args)?
        } else {
            let earlier = is_spare.iter().take(step.chain);
            let number = earlier.filter(|is_spare| !**is_spare).count();
            fewer.act(alloc, facts, number)?
        };
        if !acted.is_done() {
            return Ok(None);
        }
    }
    Ok(Some(fewer))
}
