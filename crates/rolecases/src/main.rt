// Trials of admissibility. What they answer is compared with the file `stdout`.
#![tactic(auto)]

use roles::admissible::first_breaking;
use rules::base::RuleBase;
use rules::statements::Statement;
use std::io;

fn chain(first: u16, second: u16, role: u16) -> Statement {
    Statement::Chain {
        first,
        second,
        role,
    }
}

fn range(role: u16, range: u16) -> Statement {
    Statement::DomainRange {
        role,
        domain: 0,
        range,
    }
}

fn subrole(role: u16, within: u16) -> Statement {
    Statement::Subrole { role, within }
}

fn self_within(role: u16) -> Statement {
    Statement::SelfWithin { role, class: 0 }
}

fn self_paired(role: u16) -> Statement {
    Statement::SelfPaired { class: 0, role }
}

fn role_both(left: u16, right: u16, role: u16) -> Statement {
    Statement::RoleBoth { left, right, role }
}

// What is answered to statements over one individual, three classes and six roles.
fn show(rt: &HostRuntime, title: &str, statements: &[Statement]) -> io::Result<()> {
    match RuleBase::check(1, 3, 6, statements) {
        Err(refusal) => println!(rt;
            "{title}: refused, statement {}, field {}",
            refusal.place, refusal.item
        ),
        Ok(base) => match first_breaking(&base) {
            None => println!(rt; "{title}: admissible"),
            Some(place) => println!(rt; "{title}: statement {place} breaks its condition"),
        },
    }
}

// Call by call, and no table: a table of pairs of a title and a slice, laid out, is longer and nested deeper.
fn simple_trials(rt: &HostRuntime) -> io::Result<()> {
    show(rt, "no statements", &[])?;
    show(rt, "n k", &[chain(0, 1, 2), self_within(2)])?;
    show(rt, "k n", &[self_within(2), chain(0, 1, 2)])?;
    show(
        rt,
        "n k of its first role",
        &[chain(0, 1, 2), self_within(0)],
    )?;
    show(rt, "n l", &[chain(0, 1, 2), self_paired(2)])?;
    show(
        rt,
        "two that break",
        &[
            subrole(3, 4),
            self_paired(2),
            self_within(2),
            chain(0, 1, 2),
        ],
    )?;
    show(rt, "a role of no number", &[chain(0, 1, 2), self_within(6)])
}

fn range_trials(rt: &HostRuntime) -> io::Result<()> {
    show(rt, "n q", &[chain(0, 1, 2), range(2, 1)])?;
    show(
        rt,
        "n q and q of its second role",
        &[chain(0, 1, 2), range(2, 1), range(1, 1)],
    )?;
    show(
        rt,
        "n q and q of its first role",
        &[chain(0, 1, 2), range(2, 1), range(0, 1)],
    )?;
    show(
        rt,
        "n q and another class",
        &[chain(0, 1, 2), range(2, 1), range(1, 2)],
    )
}

fn both_trials(rt: &HostRuntime) -> io::Result<()> {
    show(rt, "o", &[role_both(0, 1, 2)])?;
    show(rt, "o q", &[role_both(0, 1, 2), range(2, 1)])?;
    show(
        rt,
        "o q and q of its first role",
        &[role_both(0, 1, 2), range(2, 1), range(0, 1)],
    )?;
    show(
        rt,
        "o q and q of its second role",
        &[role_both(0, 1, 2), range(2, 1), range(1, 1)],
    )?;
    show(
        rt,
        "n into its first role, o",
        &[chain(3, 4, 0), role_both(0, 1, 2)],
    )?;
    show(
        rt,
        "n into its second role, o",
        &[chain(3, 4, 1), role_both(0, 1, 2)],
    )?;
    show(
        rt,
        "n into its third role, o",
        &[chain(3, 4, 2), role_both(0, 1, 2)],
    )
}

fn subrole_trials(rt: &HostRuntime) -> io::Result<()> {
    show(
        rt,
        "n m m k upwards",
        &[chain(3, 4, 0), subrole(0, 1), subrole(1, 2), self_within(2)],
    )?;
    show(
        rt,
        "k m m n upwards",
        &[self_within(2), subrole(1, 2), subrole(0, 1), chain(3, 4, 0)],
    )?;
    show(
        rt,
        "n m m k downwards",
        &[chain(3, 4, 2), subrole(0, 1), subrole(1, 2), self_within(0)],
    )?;
    show(
        rt,
        "q m m n downwards",
        &[range(2, 1), subrole(1, 2), subrole(0, 1), chain(5, 3, 0)],
    )?;
    show(
        rt,
        "m m q n q downwards",
        &[
            subrole(0, 1),
            subrole(1, 2),
            range(2, 1),
            chain(5, 3, 0),
            range(3, 1),
        ],
    )?;
    show(
        rt,
        "q m m n upwards",
        &[range(0, 1), subrole(0, 1), subrole(1, 2), chain(5, 3, 2)],
    )
}

fn main(rt: HostRuntime) -> io::Result<()> {
    simple_trials(&rt)?;
    range_trials(&rt)?;
    both_trials(&rt)?;
    subrole_trials(&rt)
}
