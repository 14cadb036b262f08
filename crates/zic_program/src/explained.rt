//! The lines after the first about a failure.

use std::alloc::{AllocError, Global};
use std::fs::Files;
use zic_converting::ConvertContext;
use zic_failures::Explainer;
use zic_host::{Refusal, shown_failure};
use zic_io::Failure;

/// Returns a refusal, with the lines after its first if it is the failure of a command.
pub(crate) fn explained<R: Files + AllocGlobal>(
    rt: &R,
    explainer: Option<Explainer>,
    noted: ConvertContext,
    reason: Refusal,
) -> Refusal {
    match reason {
        Refusal::Command(failure) => with_lines(rt, explainer, noted, failure),
        other => {
            drop(explainer);
            drop(noted);
            other
        }
    }
}

/// Returns a refusal with a line that names `--explain`, if it is the failure of a command and has no lines
/// after its first.
pub(crate) fn with_hint(alloc: Global, refusal: Refusal) -> Refusal {
    match (refusal, String::from_str(alloc, "--explain says more")) {
        (Refusal::Command(failure), Ok(text)) => Refusal::Explained { failure, text },
        (other, _) => other,
    }
}

/// Returns the refusal for a failure, with the lines after its first.
fn with_lines<R: Files + AllocGlobal>(
    rt: &R,
    explainer: Option<Explainer>,
    noted: ConvertContext,
    failure: Failure,
) -> Refusal {
    match lines_after(rt, explainer, noted, &failure) {
        Ok(text) if !text.is_empty() => Refusal::Explained { failure, text },
        _ => Refusal::Command(failure),
    }
}

/// Returns the lines after the first about a failure, without the last line end: its explanation, if
/// requested, what ended the run besides, and the faults before that.
fn lines_after<R: Files + AllocGlobal>(
    rt: &R,
    explainer: Option<Explainer>,
    noted: ConvertContext,
    failure: &Failure,
) -> Result<String, AllocError> {
    let ConvertContext {
        texts,
        ended,
        faults,
        reason,
        is_gzip,
        ..
    } = noted;
    let mut text = match explainer {
        Some(mut explainer) => {
            explainer.refused_for(reason.take());
            explainer.begins_as_gzip(is_gzip);
            explainer.explanation(rt, failure, texts)?
        }
        None => String::new(rt.alloc()),
    };
    let ended = shown(rt.alloc(), ended);
    let pushed = push_both(rt, &mut text, &ended, &faults);
    drop(ended);
    drop(faults);
    pushed?;
    Ok(text)
}

/// Returns a failure as people see it, if there is one.
fn shown(alloc: Global, failure: Option<Failure>) -> Option<Failure> {
    match failure {
        Some(failure) => Some(shown_failure(alloc, failure)),
        None => None,
    }
}

/// Adds what ended a run besides its failure, and the faults before that, if there are any.
fn push_both<R: AllocGlobal>(
    rt: &R,
    text: &mut String,
    ended: &Option<Failure>,
    faults: &Option<Failure>,
) -> Result<(), AllocError> {
    push_failure(rt, text, ended)?;
    push_failure(rt, text, faults)
}

/// Adds a failure, if there is one, in lines of its own.
fn push_failure<R: AllocGlobal>(
    rt: &R,
    text: &mut String,
    failure: &Option<Failure>,
) -> Result<(), AllocError> {
    let Some(failure) = failure else {
        return Ok(());
    };
    if !text.is_empty() {
        text.push('\n')?;
    }
    text.push_str(format!(in rt.alloc(); "{failure}")?.as_str())
}
