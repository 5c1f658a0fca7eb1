// A small vocabulary of supplies, and what follows from it. Every answer that it prints is asked of the logic el.
#![tactic(auto)]

use logics::{El, Form, Logic, Record};
use std::io;

const NAMES: [&str; 6] = [
    "supply",
    "ribbon",
    "wax thing",
    "wax ribbon",
    "label printer",
    "paper printer",
];

// The axioms, and what each says. Role 0 is "holds".
const AXIOMS: [(Record, &str); 5] = [
    (
        Record {
            form: Form::Lies as u16,
            a: 3,
            b: 1,
            c: 0,
        },
        "Every wax ribbon is a ribbon.",
    ),
    (
        Record {
            form: Form::Lies as u16,
            a: 3,
            b: 2,
            c: 0,
        },
        "Every wax ribbon is a wax thing.",
    ),
    (
        Record {
            form: Form::Both as u16,
            a: 1,
            b: 2,
            c: 3,
        },
        "What is a ribbon and a wax thing is a wax ribbon.",
    ),
    (
        Record {
            form: Form::Partner as u16,
            a: 4,
            b: 0,
            c: 3,
        },
        "Every label printer holds a wax ribbon.",
    ),
    (
        Record {
            form: Form::Source as u16,
            a: 0,
            b: 2,
            c: 5,
        },
        "What holds a wax thing is a paper printer.",
    ),
];

// A goal, and the axioms that are marked.
type Question = (u64, (u32, u32));

const QUESTIONS: [Question; 6] = [
    (0b11111, (3, 1)),
    (0b11111, (1, 3)),
    (0b11111, (4, 5)),
    (0b10111, (4, 5)),
    (0b11101, (4, 5)),
    (0b00000, (4, 0)),
];

fn answer(el: &El, marks: u64, goal: (u32, u32)) -> bool {
    let mut area = [0u8; 36];
    let axioms = AXIOMS.map(|(axiom, _)| axiom);
    el.follows(&axioms, marks, goal, &mut area)
}

fn print_marked(rt: &impl Print, marks: u64) -> io::Result<()> {
    if marks == 0 {
        return println!(rt; " by no axiom.");
    }
    print!(rt; " by axioms")?;
    for i in 0..5u32 {
        if base::contains(marks, i) {
            let number = i + 1;
            print!(rt; " {number}")?;
        }
    }
    println!(rt; ".")
}

fn print_answers(rt: &impl Print, el: &El) -> io::Result<()> {
    for (marks, goal) in QUESTIONS {
        if let (Some(low), Some(high)) = (NAMES.get(goal.0 as usize), NAMES.get(goal.1 as usize)) {
            let word = if answer(el, marks, goal) { "Yes" } else { "No" };
            print!(rt; "Is every {low} a {high}? {word},")?;
            print_marked(rt, marks)?;
        }
    }
    Ok(())
}

fn main(rt: HostRuntime) -> io::Result<()> {
    for (place, (_, saying)) in AXIOMS.iter().enumerate() {
        let number = place + 1;
        println!(rt; "Axiom {number}: {saying}")?;
    }
    match El::new(6, 1) {
        Ok(el) => print_answers(&rt, &el),
        Err(fault) => {
            let number = fault.number();
            println!(rt; "refused by {number}")
        }
    }
}
