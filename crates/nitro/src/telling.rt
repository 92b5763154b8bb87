//! What is printed on standard error of how a task ended, besides what its call writes. Nothing of it is proved.

use crate::doing::Done;
use channel_values::ByteFault;
use record_checker::{Verdict, fault_line};
use script_run::{RecordStatus, Status};
use script_steps::Rule;
use std::alloc::Global;

/// Says why bytes are no record.
fn tell_fault<R: Eprint>(rt: &R, fault: ByteFault) {
    let _ = eprintln!(rt; "nitro: this is no record: {fault}");
}

/// Says what is wrong with a record.
fn tell_verdict<R: Eprint>(rt: &R, verdict: Verdict) {
    let _ = match verdict {
        Verdict::Sound => Ok(()),
        Verdict::Reply(number) => eprintln!(rt;
            "nitro: the reply of entry {number} isn't the adjudicator's"
        ),
        Verdict::Sums(place) => eprintln!(rt;
            "nitro: sum {place}, counted from 0, isn't that of the entries"
        ),
        Verdict::Plan(place) => eprintln!(rt;
            "nitro: the plan of ending {place}, counted from 0, isn't one that has a share"
        ),
        Verdict::Share(place) => eprintln!(rt;
            "nitro: a share of ending {place}, counted from 0, isn't that of its plan"
        ),
    };
}

/// Says which rule a script breaks first.
fn tell_rule<R: Eprint>(rt: &R, step: u32, rule: Rule) {
    let _ = match step {
        0 => eprintln!(rt; "nitro: the script is refused: {rule} (docs/SCRIPT.md)"),
        _ => eprintln!(rt; "nitro: step {step} is refused: {rule} (docs/SCRIPT.md)"),
    };
}

/// Says how a play ended.
fn tell_play<R: Eprint>(rt: &R, status: Status) {
    let _ = match status {
        Status::Done => Ok(()),
        Status::NoMemory => eprintln!(rt; "nitro: out of memory"),
        Status::Usage => eprintln!(rt;
            "nitro: a number is too long, or two people or channels would have one name"
        ),
        Status::Script(step, rule) => {
            tell_rule(rt, step, rule);
            Ok(())
        }
        Status::ReadFault => eprintln!(rt; "nitro: the input can't be read"),
        Status::WriteFault => eprintln!(rt; "nitro: the output can't be written"),
        Status::TooLong => eprintln!(rt; "nitro: the input has more than 4194304 bytes"),
        Status::Full => eprintln!(rt; "nitro: the race's history has no room for another entry"),
    };
}

/// Says how a check of a record ended.
fn tell_check<R: Eprint>(rt: &R, status: record_checker::Status) {
    match status {
        record_checker::Status::Done => {}
        record_checker::Status::NoMemory => tell_play(rt, Status::NoMemory),
        record_checker::Status::Usage => tell_play(rt, Status::Usage),
        record_checker::Status::Unspelled(fault) => tell_fault(rt, fault),
        record_checker::Status::Unsound(verdict) => tell_verdict(rt, verdict),
        record_checker::Status::ReadFault => tell_play(rt, Status::ReadFault),
        record_checker::Status::WriteFault => tell_play(rt, Status::WriteFault),
        record_checker::Status::TooLong => tell_play(rt, Status::TooLong),
    }
}

/// Says how a drawing ended.
fn tell_drawing<R: Eprint>(rt: &R, alloc: Global, status: picture::Status) {
    match status {
        picture::Status::Done => {}
        picture::Status::NoMemory => tell_play(rt, Status::NoMemory),
        picture::Status::Usage => tell_play(rt, Status::Usage),
        picture::Status::Unread(fault) => {
            let _ = eprintln!(rt; "{fault}");
        }
        picture::Status::Unspelled(fault) => {
            if let Ok(line) = fault_line(alloc, fault) {
                let _ = eprint!(rt; "{line}");
            }
            tell_fault(rt, fault);
        }
        picture::Status::ReadFault => tell_play(rt, Status::ReadFault),
        picture::Status::WriteFault => tell_play(rt, Status::WriteFault),
        picture::Status::TooLong => tell_play(rt, Status::TooLong),
    }
}

/// Says how a lint ended.
fn tell_lint<R: Eprint>(rt: &R, status: script_lint::Status) {
    match status {
        script_lint::Status::Done => {}
        script_lint::Status::NoMemory => tell_play(rt, Status::NoMemory),
        script_lint::Status::Usage => tell_play(rt, Status::Usage),
        script_lint::Status::Script(step, rule) => tell_rule(rt, step, rule),
        script_lint::Status::ReadFault => tell_play(rt, Status::ReadFault),
        script_lint::Status::WriteFault => tell_play(rt, Status::WriteFault),
        script_lint::Status::TooLong => tell_play(rt, Status::TooLong),
    }
}

/// Says why a task ended as it did.
pub(crate) fn tell<R: Eprint>(rt: &R, alloc: Global, done: &Done) {
    match done {
        Done::Played(ended) => tell_play(rt, ended.status),
        Done::Routed(ended) => tell_play(rt, ended.status),
        Done::Recorded(RecordStatus::Ran(status)) => tell_play(rt, *status),
        Done::Recorded(RecordStatus::PastLimits) => {
            let _ = eprintln!(rt; "nitro: what was played is past the limits of a record");
        }
        Done::Checked(status) => tell_check(rt, *status),
        Done::Drawn(status) => tell_drawing(rt, alloc, *status),
        Done::Linted(status) => tell_lint(rt, *status),
        Done::Unwritten => tell_play(rt, Status::WriteFault),
    }
}
