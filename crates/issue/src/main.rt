//! Issues tokens across a vault, a shop's index and a billing count, each from a script of bytes, and
//! tells what happened.
#![tactic(auto)]

use banks::{Bank, Both, One, OpenTrial};
use issuing::{Outcome, transact};
use parts::{ABSENT, Ran};
use scripts::{Script, ScriptPart, read_script};
use std::io;
use stores::{ShadowStore, UndoStore};

type ThreeStores = Both<One<UndoStore>, Both<One<ShadowStore>, One<UndoStore>>>;

// Shop 12 is entered in the billing store with no token issued yet.
const OPENING: [u8; 15] = [1, 2, 3, 0, 0, 0, 0, 0, 0, 0, 12, 0, 0, 0, 0];

// A script cut short: the key of its second command has seven bytes.
const CUT: [u8; 10] = [1, 0, 2, 0, 0, 0, 0, 0, 0, 0x13];

// The older tokens in the shop's index, three for each script.
const OLDER: [[u8; 3]; 5] = [
    [100, 101, 102],
    [103, 104, 105],
    [106, 107, 108],
    [109, 110, 111],
    [112, 113, 114],
];

// The services of the three stores: scripts and banks name them by number.
const VAULT: u8 = 0;

const INDEX: u8 = 1;

const BILLING: u8 = 2;

// A script that issues a token for a card of shop 12: the card in the vault, the shop in the index, the
// count raised.
fn token_script([high, low]: [u8; 2], [first, second, third]: [u8; 3]) -> [u8; 54] {
    [
        1, 0, 3, 0, 0, 0, 0, 0, 0, high, low, 0, first, second, third, 1, 1, 3, 0, 0, 0, 0, 0, 0,
        high, low, 0, 0, 0, 12, 1, 2, 5, 0, 0, 0, 0, 0, 0, 0, 12, 0, 0, 0, 1, 2, 0, 0, 0, 0, 0, 0,
        0, 12,
    ]
}

fn store_name(service: u8) -> &'static str {
    match service {
        VAULT => "vault",
        INDEX => "shop index",
        BILLING => "billing count",
        _ => "no store",
    }
}

fn tell_part(rt: &impl Print, part: &ScriptPart) -> io::Result<()> {
    let name = store_name(part.service);
    println!(rt; "  part at {} for the {name}:", part.place)?;
    for operation in part.operations.as_slice() {
        println!(rt; "    {operation}")?;
    }
    Ok(())
}

fn tell_ran(rt: &impl Print, part: &ScriptPart, ran: &Ran) -> io::Result<()> {
    let name = store_name(part.service);
    println!(rt; "  the {name} votes {}", ran.vote)?;
    for &look in ran.looks.as_slice() {
        if look == ABSENT {
            println!(rt; "  the {name} saw nothing")?;
        } else {
            println!(rt; "  the {name} saw {look}")?;
        }
    }
    Ok(())
}

fn tell_outcome(rt: &impl Print, script: &Script, outcome: &Outcome) -> io::Result<()> {
    for (part, ran) in script.as_slice().iter().zip(outcome.parts.as_slice()) {
        tell_ran(rt, part, ran)?;
    }
    if outcome.committed {
        println!(rt; "  committed in every store")
    } else {
        println!(rt; "  rolled back in every store")
    }
}

// Reads a script, tells it, runs it on the bank and tells what came of it.
fn perform(rt: &impl Print, bank: &mut ThreeStores, bytes: &[u8]) -> io::Result<()> {
    let script = match read_script(bytes, bank.count()) {
        Ok(script) => script,
        // The refusal is told, and the run goes on.
        Err(refusal) => return println!(rt; "  the script is refused: {refusal}"),
    };
    for part in script.as_slice() {
        tell_part(rt, part)?;
    }
    match transact(bank, &script) {
        Ok(outcome) => tell_outcome(rt, &script, &outcome),
        Err(OpenTrial { service }) => {
            let name = store_name(service);
            println!(rt; "  refused: a trial is open in the {name}")
        }
    }
}

fn tell_held(rt: &impl Print, bank: &ThreeStores, service: u8, key: u64) -> io::Result<bool> {
    let name = store_name(service);
    match bank.look(service, key) {
        Ok(Some(value)) => {
            println!(rt; "  the {name} holds {value} under {key}")?;
            Ok(true)
        }
        // No refusal comes: the bank has these stores.
        _ => {
            println!(rt; "  the {name} holds nothing under {key}")?;
            Ok(false)
        }
    }
}

// Tells what the stores hold of a token, and whether the vault and the index agree on it.
fn tell_token(rt: &impl Print, bank: &ThreeStores, token: u64) -> io::Result<bool> {
    let vaulted = tell_held(rt, bank, VAULT, token)?;
    let indexed = tell_held(rt, bank, INDEX, token)?;
    tell_held(rt, bank, BILLING, 12)?;
    Ok(vaulted == indexed)
}

// Issues a token for a card, and tells whether the vault and the index agree on it.
fn issue(rt: &impl Print, bank: &mut ThreeStores, token: u16, card: [u8; 3]) -> io::Result<bool> {
    println!(rt; "token {token} is issued")?;
    perform(rt, bank, &token_script(token.to_be_bytes(), card))?;
    tell_token(rt, bank, u64::from(token))
}

// Puts three older tokens into the shop's index.
fn put_older(bank: &mut ThreeStores, [first, second, third]: [u8; 3]) -> bool {
    let bytes = [
        1, 1, 3, 0, 0, 0, 0, 0, 0, 0, first, 0, 0, 0, 12, 3, 0, 0, 0, 0, 0, 0, 0, second, 0, 0, 0,
        12, 3, 0, 0, 0, 0, 0, 0, 0, third, 0, 0, 0, 12,
    ];
    read_script(&bytes, bank.count()).is_ok_and(|script| transact(bank, &script).is_ok_and(
        |outcome| outcome.committed,
    ))
}

// Puts fifteen older tokens into the shop's index, so that one more pair fills it.
fn fill_index(bank: &mut ThreeStores) -> bool {
    OLDER.iter().all(|keys| put_older(bank, *keys))
}

fn main(rt: HostRuntime) -> io::Result<()> {
    let mut bank = ThreeStores::default();
    let count = bank.count();
    println!(rt; "bank of {count} stores: 0 vault, 1 shop index, 2 billing count")?;
    println!(rt; "shop 12 is entered")?;
    perform(&rt, &mut bank, &OPENING)?;
    if fill_index(&mut bank) {
        println!(rt; "the shop index is filled with 15 older tokens; it takes 16")?;
    }
    let first_agrees = issue(&rt, &mut bank, 5001, [0x06, 0x45, 0xe7])?;
    let second_agrees = issue(&rt, &mut bank, 5002, [0x07, 0xf7, 0xee])?;
    println!(rt; "a script cut short")?;
    perform(&rt, &mut bank, &CUT)?;
    if first_agrees && second_agrees {
        println!(rt; "every store agrees: yes")
    } else {
        println!(rt; "every store agrees: no")
    }
}
