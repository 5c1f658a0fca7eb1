// A release list, worked through from beginning to end: which regions have each axiom, which may see what follows
// from them, and who is admitted as a user. Every fact that it prints is asked of the label kind.
#![tactic(auto)]

use labels::check::{check_label, check_user};
use labels::kind::LabelKind;
use labels::sets::Sets;
use std::io;

// The labels of the regions, from region 1 on.
const REGIONS: [u32; 3] = [1, 2, 4];

// The axioms of the list, each with the regions that it is released to.
const RELEASES: [(u32, [bool; 3]); 3] = [
    (1, [true, true, true]),
    (2, [true, true, false]),
    (4, [false, true, false]),
];

// The label of some regions: the join of the labels of each.
fn label_of(kind: &Sets, released: &[bool; 3]) -> u32 {
    let mut label = 0;
    for (region, to_it) in REGIONS.iter().zip(released) {
        if *to_it {
            label = kind.join(label, *region);
        }
    }
    label
}

// " region 1, region 2": the regions whose label is at or below this one.
fn print_regions(rt: &impl Print, kind: &Sets, label: u32) -> io::Result<()> {
    let seen = (1u32..)
        .zip(REGIONS)
        .filter(|&(_, region)| kind.at_or_below(region, label));
    for (i, (number, _)) in seen.enumerate() {
        if i > 0 {
            print!(rt; ",")?;
        }
        print!(rt; " region {number}")?;
    }
    Ok(())
}

// Two labels that show why a user is not admitted: it is at or below their join, and at or below neither.
fn why_not(kind: &Sets, user: u32) -> Option<(u32, u32)> {
    (0..kind.top()).map(|a| (a, without(kind, user, a))).find(|&(a, rest)| {
        !kind.at_or_below(user, a)
            && !kind.at_or_below(user, rest)
            && kind.at_or_below(user, kind.join(a, rest))
    })
}

// The join of the regions of a label that another label lacks.
fn without(kind: &Sets, label: u32, other: u32) -> u32 {
    REGIONS
        .iter()
        .filter(|&&region| kind.at_or_below(region, label) && !kind.at_or_below(region, other))
        .fold(0, |rest, &region| kind.join(rest, region))
}

fn print_axioms(rt: &impl Print, kind: &Sets) -> io::Result<()> {
    for (number, released) in RELEASES {
        let label = label_of(kind, &released);
        print!(rt; "Axiom {number} has label {label} and is released to")?;
        print_regions(rt, kind, label)?;
        println!(rt; ".")?;
    }
    Ok(())
}

fn print_conclusions(rt: &impl Print, kind: &Sets) -> io::Result<()> {
    let labels = RELEASES.map(|(_, released)| label_of(kind, &released));
    let all = labels
        .iter()
        .fold(kind.top(), |all, &label| kind.meet(all, label));
    let any = labels.iter().fold(0, |any, &label| kind.join(any, label));
    print!(rt;
        "A conclusion that needs all three has their meet, label {all}, and may be seen in"
    )?;
    print_regions(rt, kind, all)?;
    println!(rt; ".")?;
    print!(rt;
        "A conclusion that any one of them gives has their join, label {any}, and may be seen in"
    )?;
    print_regions(rt, kind, any)?;
    println!(rt; ".")
}

fn print_user(rt: &impl Print, kind: &Sets, user: u32) -> io::Result<()> {
    print!(rt; "Label {user}, a reader of")?;
    if user == 0 {
        print!(rt; " no region")?;
    }
    print_regions(rt, kind, user)?;
    if let Err(fault) = check_user(kind, user) {
        print!(rt; " at once, is refused as a user by {}", fault.number())?;
        if let Some((a, b)) = why_not(kind, user) {
            print!(rt;
                ": it is at or below {}, the join of {a} and {b}, and at or below neither",
                kind.join(a, b)
            )?;
        }
        return println!(rt; ".");
    }
    println!(rt; ", is admitted as a user.")
}

fn print_refusals(rt: &impl Print, kind: &Sets) -> io::Result<()> {
    let missing = 1 << REGIONS.len();
    if let Err(fault) = check_label(kind, missing) {
        println!(rt;
            "Region {} would be label {missing}, which is no label here: it is refused by {}.",
            REGIONS.len() + 1,
            fault.number()
        )?;
    }
    if let Err(fault) = Sets::new(33) {
        println!(rt;
            "Thirty-three regions are too many: they are refused by {}.",
            fault.number()
        )?;
    }
    Ok(())
}

fn main(rt: HostRuntime) -> io::Result<()> {
    let kind = Sets::new(REGIONS.len() as u32).unwrap();
    println!(rt;
        "A release list over {} regions: {} labels, from 0, no region, to {}, every region.",
        REGIONS.len(),
        kind.size(),
        kind.top()
    )?;
    print_axioms(&rt, &kind)?;
    print_conclusions(&rt, &kind)?;
    for user in 0..=kind.top() {
        print_user(&rt, &kind, user)?;
    }
    print_refusals(&rt, &kind)
}
