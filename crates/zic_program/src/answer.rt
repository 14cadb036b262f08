//! The command that a request is for.

use crate::export::export;
use crate::file::{check, dump, show, show_local, show_next};
use std::fs::Files;
use std::io::{Input, IsTerminal, Write};
use std::random::RandomSource;
use std::rt::Env;
use std::sync::Wait;
use std::thread::Threads;
use std::time::Clock;
use zic_command_line::Request;
use zic_converting::{ConvertContext, convert};
use zic_folders::{Differing, Ending, Verifying, build, diff, verify};
use zic_host::{Refusal, tell};

/// Does what a request asks for.
pub(crate) fn answer<
    R: Env + Files + Input + Print + Clock + RandomSource + AllocGlobal + Threads + Wait + Sync,
    E: Write + IsTerminal + Drop,
>(rt: &R, errors: E, request: &Request, noted: &mut ConvertContext) -> Result<Ending, Refusal> {
    let texts = &mut noted.texts;
    let reason = &noted.reason;
    let done = match request {
        Request::Build(order) => return build(rt, order, texts, reason),
        Request::Verify {
            folder,
            sources,
            plan,
            release_files,
            strict,
        } => {
            let verifying = Verifying {
                folder,
                sources,
                plan,
                release_files,
                strict: *strict,
                reason,
            };
            return verify(rt, &verifying, texts);
        }
        Request::Check { sources, plan } => check(rt, sources, plan, texts, reason),
        Request::Diff {
            sources,
            old,
            trees,
            plan,
            differences,
            compared,
            style,
            grouping,
            shows_release,
            tells_status,
        } => {
            let differing = Differing {
                sources,
                old: *old,
                trees: *trees,
                plan,
                differences,
                compared: *compared,
                style: *style,
                grouping: *grouping,
                shows_release: *shows_release,
                tells_status: *tells_status,
            };
            return Ok(diff(rt, errors, &differing, texts)?);
        }
        Request::Convert(order) => convert(rt, order, errors, noted),
        Request::Show { file, instant } => show(rt, file.as_str(), *instant, reason),
        Request::ShowLocal { file, local } => show_local(rt, file.as_str(), local, reason),
        Request::ShowNext {
            file,
            schedule,
            after,
        } => show_next(rt, file.as_str(), schedule, *after, reason),
        Request::Dump { file, years } => dump(rt, file.as_str(), years, reason),
        Request::Export(order) => return export(rt, order, reason),
        Request::Explain { text } | Request::Version { text } | Request::Help { text } => {
            tell(rt, reason, text.as_bytes())
        }
    };
    match done {
        Ok(()) => Ok(Ending::Done),
        Err(failure) => Err(Refusal::Command(failure)),
    }
}
