//! `plan_of`: what the words of a command line ask for.
use crate::asserting::{Host, holds, same};
use shb_words::{Plan, WordsFault, plan_of};
use std::test::Fail;

fn planned(rt: &impl Host, words: &[&str]) -> Result<Result<Plan, WordsFault>, Fail> {
    let mut all = Vec::new(rt.alloc());
    for word in words {
        all.push(String::from_str(rt.alloc(), word)?)?;
    }
    Ok(plan_of(rt.alloc(), all.as_slice()))
}

/// Asserts that a report is asked for, by so many workers, as a list or not, of a file or of standard input.
fn expect_report(
    rt: &impl Host,
    words: &[&str],
    wanted: (bool, u32, bool, Option<&str>),
) -> Result<(), Fail> {
    let (has_all_races, workers, list, trace) = match planned(rt, words)? {
        Ok(
            Plan::Races {
                workers,
                list,
                trace,
            },
        ) => (true, workers, list, trace),
        Ok(
            Plan::Places {
                workers,
                list,
                by_variable: false,
                trace,
            },
        ) => (false, workers, list, trace),
        _ => return Err("no report is asked for".into()),
    };
    let path = trace.as_ref().map(|path| path.as_str());
    let found = (has_all_races, workers.get(), list, path);
    same(rt, &found, &wanted, "the plan");
    Ok(())
}

#[test]
fn reports_are_asked_for(rt: HostRuntime) -> Result<(), Fail> {
    expect_report(&rt, &[], (true, 4, true, None))?;
    expect_report(&rt, &["races"], (true, 4, false, None))?;
    expect_report(
        &rt,
        &["races", "--workers", "64", "--list", "t.std"],
        (true, 64, true, Some("t.std")),
    )?;
    expect_report(
        &rt,
        &["places", "--workers", "1", "t.std"],
        (false, 1, false, Some("t.std")),
    )
}

#[test]
fn places_are_asked_for_by_variable(rt: HostRuntime) -> Result<(), Fail> {
    for (words, wanted) in [
        (&["places", "--list"] as &[&str], (true, false)),
        (&["places", "--variables", "t.std"], (false, true)),
        (&["places", "--list", "--variables"], (true, true)),
    ] {
        let Ok(
            Plan::Places {
                list,
                by_variable,
                ..
            },
        ) = planned(&rt, words)?
        else {
            return Err("no places are asked for".into());
        };
        same(&rt, &(list, by_variable), &wanted, "the form");
    }
    Ok(())
}

#[test]
fn a_check_is_asked_for(rt: HostRuntime) -> Result<(), Fail> {
    let Ok(Plan::Check { trace }) = planned(&rt, &["check", "t.std"])? else {
        return Err("no check is asked for".into());
    };
    same(&rt, &trace.as_str(), &"t.std", "the trace");
    Ok(())
}

#[test]
fn help_is_asked_for(rt: HostRuntime) -> Result<(), Fail> {
    for words in [&["--help"] as &[&str], &["races", "--help"]] {
        let Ok(Plan::Help { text }) = planned(&rt, words)? else {
            return Err("no help is asked for".into());
        };
        holds(&rt, text.len() > 0, "a text");
    }
    Ok(())
}

#[test]
fn words_are_refused(rt: HostRuntime) -> Result<(), Fail> {
    let refused: [&[&str]; 7] = [
        &["races", "--workers", "0"],
        &["races", "--workers", "65"],
        &["races", "--workers", "x"],
        &["check"],
        &["frobnicate"],
        &["races", "a", "b"],
        &["races", "--variables"],
    ];
    for words in refused {
        let Err(WordsFault::Refused { text }) = planned(&rt, words)? else {
            return Err("the words aren't refused".into());
        };
        holds(
            &rt,
            text.as_bytes().ends_with(b"\n"),
            "a text with its line end",
        );
    }
    Ok(())
}
