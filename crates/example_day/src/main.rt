// A course day on a small sheet, made by one call of the engine: axioms are entered, a goal is published and looked at by two
// users, an axiom is relabelled, and the goal is published and looked at again.
#![tactic(auto)]

use engine::call::{Answer, Call, SheetFault};
use engine::run;
use labels::chain::Chain;
use logics::{Links, Record};
use std::io;

// "a supplies b", an axiom for links.
fn supplies(a: u16, b: u16) -> Record {
    Record {
        form: 5,
        a,
        b,
        c: 0,
    }
}

// Who supplies whom: 1 supplies 2, 2 supplies 3, and 1 supplies 3. The labels are 5, 2 and 3 of a chain of 6.
fn calls_of_the_day() -> [Call; 13] {
    [
        Call::Enter(supplies(1, 2), 5),
        Call::Enter(supplies(2, 3), 2),
        Call::Enter(supplies(1, 3), 3),
        Call::Supports((1, 3), 1, 8),
        Call::Publish((1, 3), 2, 8),
        Call::Boundary((1, 3)),
        Call::See(3, (1, 3)),
        Call::See(4, (1, 3)),
        Call::Relabel(2, 5),
        Call::See(4, (1, 3)),
        Call::Publish((1, 3), 2, 8),
        Call::Row(0),
        Call::See(4, (1, 3)),
    ]
}

fn print_call(rt: &impl Print, call: Call) -> io::Result<()> {
    match call {
        Call::Enter(Record { a, b, .. }, label) => {
            print!(rt; "Enter \"{a} supplies {b}\" with label {label}: ")
        }
        Call::Withdraw(number) => print!(rt; "Withdraw axiom {number}: "),
        Call::Relabel(number, label) => print!(rt; "Give axiom {number} the label {label}: "),
        Call::Supports((from, to), places, _) => print!(rt;
            "List the supports of \"goods of {from} reach {to}\" with room for {places}: "
        ),
        Call::Publish((from, to), _, _) => {
            print!(rt; "Publish \"goods of {from} reach {to}\": ")
        }
        Call::Boundary((from, to)) => {
            print!(rt; "What is the boundary of \"goods of {from} reach {to}\"? ")
        }
        Call::Row(place) => print!(rt; "What is in row {place}? "),
        Call::See(user, (from, to)) => {
            print!(rt; "May user {user} see \"goods of {from} reach {to}\"? ")
        }
    }
}

fn print_bound(rt: &impl Print, bound: Option<u32>) -> io::Result<()> {
    match bound {
        Some(label) => println!(rt; "label {label}."),
        None => println!(rt; "none, since nothing supports it."),
    }
}

fn print_answer(rt: &impl Print, answer: Result<Answer, SheetFault>) -> io::Result<()> {
    match answer {
        Ok(Answer::Entered(number)) => println!(rt; "it is axiom {number}."),
        Ok(Answer::Done) => println!(rt; "done."),
        Ok(Answer::Count(count)) => println!(rt; "{count} supports."),
        Ok(Answer::Bound(bound)) => print_bound(rt, bound),
        Ok(Answer::RowAt(((from, to), bound))) => {
            print!(rt; "\"goods of {from} reach {to}\", ")?;
            print_bound(rt, bound)
        }
        Ok(Answer::Seen(true)) => println!(rt; "yes."),
        Ok(Answer::Seen(false)) => println!(rt; "no."),
        Err(fault) => println!(rt; "refused by {}.", fault.number()),
    }
}

fn print_day(
    rt: &impl Print,
    calls: &[Call],
    answers: &[Result<Answer, SheetFault>],
) -> io::Result<()> {
    for (call, answer) in calls.iter().zip(answers) {
        print_call(rt, *call)?;
        print_answer(rt, *answer)?;
    }
    Ok(())
}

fn print_supports(rt: &impl Print, places: &[u64; 2]) -> io::Result<()> {
    let [first, second] = *places;
    println!(rt; "The supports, as sets of bits: {first} and {second}.")
}

fn play(rt: &impl Print, kind: Chain, logic: Links) -> io::Result<()> {
    let calls = calls_of_the_day();
    let mut answers = [Ok(Answer::Done); 13];
    let mut places = [0u64; 2];
    let mut area = [0u8; 8];
    run(kind, logic, &calls, &mut answers, &mut places, &mut area);
    print_day(rt, &calls, &answers)?;
    print_supports(rt, &places)
}

fn main(rt: HostRuntime) -> io::Result<()> {
    let Ok(kind) = Chain::new(6) else {
        return println!(rt; "The size of the chain is refused.");
    };
    let Ok(logic) = Links::new(8) else {
        return println!(rt; "The number of points is refused.");
    };
    play(&rt, kind, logic)
}
