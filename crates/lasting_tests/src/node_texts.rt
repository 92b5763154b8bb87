//! The lines that a node writes.

ghost use Rattle.std.specs.Prelude.{IfOk};
ghost use Rattle.node_lines.specs.Texts.{KeepsEffect};

use call_history::{Call, DepositCall, NodeRefusal, Standing};
use channel_values::{Listed, Name, NoMemory};
use node_lines::{
    AssetBalance, Effect, Ready, Why, balance_text, chains_text, effect_lines, effect_text,
    error_text, plan_text, ready_text, report_text, share_text,
};
use std::alloc::Global;
use std::test::Fail;

const CHANNEL: Name = [0xab; 32];

const DEPOSIT: DepositCall = DepositCall {
    channel: CHANNEL,
    asset: 2,
    expected: 3,
    amount: 258,
};

#[derive(Clone, Copy, Debug)]
enum Kind {
    Send,
    Call,
    Took,
    Gained,
    NotNext,
    NotOpen,
    Spent,
    Challenged,
    Final,
    Paid,
    Deadline,
}

fn effect(alloc: Global, kind: Kind) -> Result<Effect, NoMemory>
    ensures { IfOk result (λ effect. KeepsEffect effect) }
{
    let channel = CHANNEL;
    let (asset, amount) = (2, 258);
    Ok(match kind {
        Kind::Send => {
            let bytes = Listed::make(Vec::from_slice(alloc, &[0, 10, 255])?);
            Effect::Send {
                to: [0x12; 32],
                bytes,
            }
        }
        Kind::Call => Effect::Call {
            place: 1,
            call: Call::Deposit(DEPOSIT),
        },
        Kind::Took => Effect::Took { channel, turn: 4 },
        Kind::Gained => Effect::Gained {
            channel,
            asset,
            amount,
        },
        Kind::NotNext => Effect::Refused(NodeRefusal::NotNext(6)),
        Kind::NotOpen => Effect::Refused(NodeRefusal::NotOpen(channel, Standing::Challenged)),
        Kind::Spent => Effect::Spent(1024),
        Kind::Challenged => Effect::Challenged { channel, until: 20 },
        Kind::Final => Effect::Final { channel },
        Kind::Paid => Effect::Paid {
            channel,
            asset,
            amount,
        },
        Kind::Deadline => Effect::Deadline(21),
    })
}

/// Whether an effect of event 7 has this line.
fn has_line(alloc: Global, kind: Kind, line: &str) -> Result<bool, NoMemory> {
    let effect = effect(alloc, kind)?;
    let text = effect_text(alloc, 7, &effect)?;
    drop(effect);
    Ok(text.as_slice() == line.as_bytes())
}

#[test]
fn effects_have_their_lines(rt: HostRuntime) -> Result<(), Fail> {
    let rows = [
        (
            Kind::Send,
            "{\"effect\":\"send\",\"event\":7,\"to\":\"1212121212121212121212121212121212121212121212121212121212121212\",\"bytes\":\"000aff\"}\n",
        ),
        (
            Kind::Call,
            "{\"effect\":\"call\",\"event\":7,\"place\":1,\"call\":\"01abababababababababababababababababababababababababababababababab0000000200000000000000030000000000000102\",\"text\":\"deposit abababababababababababababababababababababababababababababababab 2 3 258\"}\n",
        ),
        (
            Kind::Took,
            "{\"effect\":\"took\",\"event\":7,\"channel\":\"abababababababababababababababababababababababababababababababab\",\"turn\":4}\n",
        ),
        (
            Kind::Gained,
            "{\"effect\":\"gained\",\"event\":7,\"channel\":\"abababababababababababababababababababababababababababababababab\",\"asset\":2,\"amount\":258}\n",
        ),
        (
            Kind::NotNext,
            "{\"effect\":\"refused\",\"event\":7,\"number\":4,\"name\":\"NotNext\",\"text\":\"4 NotNext 6\"}\n",
        ),
        (
            Kind::NotOpen,
            "{\"effect\":\"refused\",\"event\":7,\"number\":3,\"name\":\"NotOpen\",\"text\":\"3 NotOpen abababababababababababababababababababababababababababababababab challenged\"}\n",
        ),
        (
            Kind::Spent,
            "{\"effect\":\"spent\",\"event\":7,\"used\":1024}\n",
        ),
        (
            Kind::Challenged,
            "{\"effect\":\"challenged\",\"event\":7,\"channel\":\"abababababababababababababababababababababababababababababababab\",\"until\":20}\n",
        ),
        (
            Kind::Final,
            "{\"effect\":\"final\",\"event\":7,\"channel\":\"abababababababababababababababababababababababababababababababab\"}\n",
        ),
        (
            Kind::Paid,
            "{\"effect\":\"paid\",\"event\":7,\"channel\":\"abababababababababababababababababababababababababababababababab\",\"asset\":2,\"amount\":258}\n",
        ),
        (
            Kind::Deadline,
            "{\"effect\":\"deadline\",\"event\":7,\"time\":21}\n",
        ),
    ];
    for (kind, line) in rows {
        assert!(rt; has_line(rt.alloc(), kind, line)?, "{line}");
    }
    Ok(())
}

/// The lines of two effects of event 1.
fn two_lines(alloc: Global) -> Result<Vec<u8>, NoMemory> {
    let effects = vec![in alloc; Effect::Spent(5), Effect::Deadline(6)]?;
    effect_lines(alloc, 1, &effects)
}

#[derive(Clone, Copy, Debug)]
enum Asked {
    Share,
    Balance,
    Report,
    Left,
    Plan,
    NoPlan,
    Chains,
    Ready,
    Error(Why),
    Effects,
}

fn balance(alloc: Global) -> Result<Vec<u8>, NoMemory> {
    let items = [
        AssetBalance {
            asset: 0,
            mine: 5,
            others: 3,
        },
        AssetBalance {
            asset: 1,
            mine: 0,
            others: 18446744073709551616,
        },
    ];
    balance_text(alloc, &CHANNEL, 7, &items, true)
}

fn chains(alloc: Global) -> Result<Vec<u8>, NoMemory> {
    let chain = Listed::make(Vec::from_slice(alloc, &[1, 254])?);
    let chains = vec![in alloc; chain]?;
    chains_text(alloc, &chains)
}

fn ready(alloc: Global) -> Result<Vec<u8>, NoMemory> {
    let ready = Ready {
        count: 17,
        mark: [1; 32],
        key: [2; 56],
        name: [3; 32],
        seen: 9,
        used: 12,
        limit: 1024,
        waits: 1,
    };
    ready_text(alloc, &ready)
}

fn answer(alloc: Global, asked: Asked) -> Result<Vec<u8>, NoMemory> {
    match asked {
        Asked::Share => share_text(alloc, 1, 5),
        Asked::Balance => balance(alloc),
        Asked::Report => report_text(alloc, true, true, false, None),
        Asked::Left => report_text(alloc, true, true, true, Some(&[(0, 5), (3, 0)])),
        Asked::Plan => plan_text(alloc, &[CHANNEL, [0x12; 32]]),
        Asked::NoPlan => plan_text(alloc, &[]),
        Asked::Chains => chains(alloc),
        Asked::Ready => ready(alloc),
        Asked::Error(why) => error_text(alloc, why),
        Asked::Effects => two_lines(alloc),
    }
}

fn answers(alloc: Global, asked: Asked, text: &str) -> Result<bool, NoMemory> {
    let answered = answer(alloc, asked)?;
    Ok(answered.as_slice() == text.as_bytes())
}

#[test]
fn answers_have_their_lines(rt: HostRuntime) -> Result<(), Fail> {
    let rows = [
        (
            Asked::Share,
            "{\"effect\":\"share\",\"asset\":1,\"amount\":5}\n",
        ),
        (
            Asked::Balance,
            "{\"effect\":\"balance\",\"channel\":\"abababababababababababababababababababababababababababababababab\",\"turn\":7,\"items\":[[0,5,3],[1,0,18446744073709551616]],\"mine\":true}\n",
        ),
        (
            Asked::Report,
            "{\"effect\":\"report\",\"unforged\":true,\"distinct\":true,\"in_time\":false,\"exit\":null}\n",
        ),
        (
            Asked::Left,
            "{\"effect\":\"report\",\"unforged\":true,\"distinct\":true,\"in_time\":true,\"exit\":[[0,5],[3,0]]}\n",
        ),
        (
            Asked::Plan,
            "{\"effect\":\"plan\",\"channels\":[\"abababababababababababababababababababababababababababababababab\",\"1212121212121212121212121212121212121212121212121212121212121212\"]}\n",
        ),
        (Asked::NoPlan, "{\"effect\":\"plan\",\"channels\":[]}\n"),
        (
            Asked::Chains,
            "{\"effect\":\"chains\",\"chains\":[\"01fe\"]}\n",
        ),
        (
            Asked::Ready,
            "{\"effect\":\"ready\",\"n\":17,\"mark\":\"0101010101010101010101010101010101010101010101010101010101010101\",\"key\":\"0202020202020202020202020202020202020202020202020202020202020202020202020202020202020202020202020202020202020202\",\"name\":\"0303030303030303030303030303030303030303030303030303030303030303\",\"seen\":9,\"used\":12,\"limit\":1024,\"waits\":1}\n",
        ),
        (
            Asked::Error(Why::Reserve),
            "{\"effect\":\"error\",\"why\":\"reserve\"}\n",
        ),
        (
            Asked::Effects,
            "{\"effect\":\"spent\",\"event\":1,\"used\":5}\n{\"effect\":\"deadline\",\"event\":1,\"time\":6}\n",
        ),
    ];
    for (asked, text) in rows {
        assert!(rt; answers(rt.alloc(), asked, text)?, "{text}");
    }
    Ok(())
}
