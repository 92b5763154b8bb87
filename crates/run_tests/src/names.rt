//! What channels are called in a text.

ghost use Rattle.std.specs.Prelude.{◌≡◌, [], IfOk};

use call_history::{Deed, Event, NodeRefusal, Standing};
use channel_values::{Dest, Label, Listed, Name, NoMemory, person_name};
use premises::Journal;
use report_text::{Report, text_of};
use std::alloc::Global;
use std::test::Fail;

const KEY: [u8; 56] = [7; 56];

/// The names of people and channels, in the order in which they were declared.
fn labels(alloc: Global) -> Result<Listed<(Dest, Label)>, NoMemory> {
    let declared = [
        (Dest::Person(person_name(&KEY)), "P"),
        (Dest::Person([171; 32]), "A"),
        (Dest::Channel([171; 32]), "C"),
        (Dest::Channel([171; 32]), "D"),
        (Dest::Channel([172; 32]), "E"),
        (Dest::Person([173; 32]), "B"),
    ];
    let mut labels = Vec::new(alloc);
    for (dest, name) in declared {
        let name = Label::make(String::from_str(alloc, name)?);
        labels.push((dest, name))?;
    }
    Ok(Listed::make(labels))
}

/// A journal of one command that was refused, as this channel is challenged.
fn journals(alloc: Global, channel: Name) -> Result<Listed<Journal>, NoMemory> {
    let refusal = NodeRefusal::NotOpen(channel, Standing::Challenged);
    let event = Event {
        seen: 0,
        deed: Deed::Commanded(4, Some(refusal)),
    };
    let events = Listed::make(vec![in alloc; event]?);
    let journal = Journal {
        number: 1,
        key: KEY,
        events,
    };
    Ok(Listed::make(vec![in alloc; journal]?))
}

/// A report without a history, in which a command of the person P was refused.
fn report(alloc: Global, channel: Name) -> Result<Report, NoMemory>
    ensures { IfOk result (λ report. report.history ≡ []) }
{
    let labels = labels(alloc)?;
    let journals = journals(alloc, channel)?;
    Ok(Report {
        history: Listed::make(Vec::new(alloc)),
        journals,
        rounds: Listed::make(Vec::new(alloc)),
        labels,
        premises: Listed::make(Vec::new(alloc)),
        shares: Listed::make(Vec::new(alloc)),
        exits: Listed::make(Vec::new(alloc)),
        ends: Listed::make(Vec::new(alloc)),
        sums: Listed::make(Vec::new(alloc)),
        load: None,
    })
}

/// Whether this is the text in which a command was refused as this channel is challenged.
fn is_text(alloc: Global, channel: Name, text: &str) -> Result<bool, NoMemory> {
    let report = report(alloc, channel)?;
    let printed = text_of(&report)?;
    Ok(printed.as_slice() == text.as_bytes())
}

#[test]
fn a_channel_has_the_first_name_that_it_was_declared_with(rt: HostRuntime) -> Result<(), Fail> {
    let cases = [
        (
            [171; 32],
            "command 4 P no 3 NotOpen C challenged\nend entries 0 now 0\n",
        ),
        (
            [172; 32],
            "command 4 P no 3 NotOpen E challenged\nend entries 0 now 0\n",
        ),
        (
            [173; 32],
            "command 4 P no 3 NotOpen adadadadadadadadadadadadadadadadadadadadadadadadadadadadadadadad challenged\nend entries 0 now 0\n",
        ),
    ];
    for (channel, text) in cases {
        assert!(rt; is_text(rt.alloc(), channel, text)?, "{text}");
    }
    Ok(())
}
