//! Writers that fail, at each line of a run and of a verdict, at a picture and at a chart.
use lynx_fixtures::full::Full;
use lynx_fixtures::rows::PAYMENT;
use lynx_fixtures::texts::CROSSING;
use lynx_report::{
    CheckOptions, DrawOptions, Ending, Finding, RunFault, RunOptions, Why, chart_texts, check_text,
    draw_text, run_texts,
};
use std::alloc::Global;

/// How a run ends where so many lines can be written, of six.
fn ended_in(alloc: Global, left: usize) -> Result<Ending, RunFault> {
    let mut writer = Full { left };
    run_texts(
        alloc,
        PAYMENT.set.as_bytes(),
        PAYMENT.script.as_bytes(),
        RunOptions { owed: false },
        &mut writer,
    )
}

#[test]
fn a_write_that_fails_ends_the_run(rt: HostRuntime) {
    for left in 0..6 {
        assert!(rt;
            ended_in(rt.alloc(), left) == Err(RunFault::Write),
            "after {left} lines"
        );
    }
    assert!(rt; ended_in(rt.alloc(), 6) == Ok(Ending::Ordered));
}

/// What is found where so many lines can be written, of three.
fn found_in(alloc: Global, left: usize) -> Result<Finding, RunFault> {
    let mut writer = Full { left };
    check_text(
        alloc,
        CROSSING.as_bytes(),
        CheckOptions { why: Why::Untold },
        &mut writer,
    )
}

#[test]
fn a_broken_pipe_ends_the_verdict(rt: HostRuntime) {
    for left in 0..3 {
        assert!(rt;
            found_in(rt.alloc(), left) == Err(RunFault::Write),
            "after {left} lines"
        );
    }
    assert!(rt; found_in(rt.alloc(), 3) == Ok(Finding::Offending));
}

/// What is found where so many pictures can be written.
fn drawn_in(alloc: Global, left: usize) -> Result<Finding, RunFault> {
    let mut writer = Full { left };
    draw_text(
        alloc,
        CROSSING.as_bytes(),
        DrawOptions::default(),
        &mut writer,
    )
}

/// How a run ended where so many charts can be written.
fn charted_in(alloc: Global, left: usize) -> Result<Ending, RunFault> {
    let mut writer = Full { left };
    let (set, script) = (PAYMENT.set.as_bytes(), PAYMENT.script.as_bytes());
    chart_texts(alloc, set, script, &mut writer)
}

#[test]
fn a_broken_pipe_ends_the_chart(rt: HostRuntime) {
    assert!(rt; charted_in(rt.alloc(), 0) == Err(RunFault::Write));
    assert!(rt; charted_in(rt.alloc(), 1) == Ok(Ending::Ordered));
}

#[test]
fn a_broken_pipe_ends_the_picture(rt: HostRuntime) {
    assert!(rt; drawn_in(rt.alloc(), 0) == Err(RunFault::Write));
    assert!(rt; drawn_in(rt.alloc(), 1) == Ok(Finding::Offending));
}
