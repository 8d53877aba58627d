// Times the marking of generated books, in a word table and in a slot table: how many facts each has goes to standard output,
// and how long it took to standard error.
#![tactic(auto)]

use marks::mark::{Marked, mark};
use marks::rules::RuleSet;
use reasoner::book::BookRules;
use rules::base::RuleBase;
use rules::forms::{Kind, field_kinds};
use rules::statements::Statement;
use slottable::SlotTable;
use std::alloc::{AllocError, Global};
use std::time::Instant;
use wordtable::WordTable;

// What a generated book is like: its counts, the letters of its forms in turn, and how many facts to mark at most.
#[derive(Clone, Copy)]
struct Plan<'a> {
    name: &'a str,
    individuals: u16,
    classes: u16,
    roles: u16,
    statements: u16,
    letters: &'a [char],
    most: u64,
}

const EVERY_FORM: [char; 17] = [
    'a', 'b', 'c', 'd', 'e', 'f', 'g', 'h', 'i', 'j', 'k', 'l', 'm', 'n', 'o', 'p', 'q',
];

const OFFICE_FORMS: [char; 8] = ['a', 'b', 'g', 'a', 'j', 'b', 'h', 'i'];

const OFFICE: Plan<'static> = Plan {
    name: "office",
    individuals: 12,
    classes: 24,
    roles: 4,
    statements: 32,
    letters: &OFFICE_FORMS,
    most: 1000000,
};

const BOOK: Plan<'static> = Plan {
    name: "book",
    individuals: 64,
    classes: 64,
    roles: 8,
    statements: 150,
    letters: &EVERY_FORM,
    most: 1000000,
};

const LARGEST: Plan<'static> = Plan {
    name: "largest",
    individuals: 128,
    classes: 256,
    roles: 32,
    statements: 384,
    letters: &EVERY_FORM,
    most: 100000,
};

// A number below another, drawn for a field of the statement at a place.
fn draw(place: u16, field: u16, below: u16) -> u16 {
    if below == 0 {
        return 0;
    }
    let seed = (u64::from(place) * 104729 + u64::from(field) * 1299709 + 12345) % 2147483648;
    let once = (seed * 1103515245 + 12345) % 2147483648;
    let twice = (once * 1103515245 + 12345) % 2147483648;
    ((twice / 65536) % u64::from(below)) as u16
}

// A field of a statement. The emptied class is the last, which no other form names.
fn field(plan: Plan, letter: char, kind: Option<Kind>, place: u16, field: u16) -> u16 {
    match kind {
        None => 0,
        Some(Kind::Individual) => draw(place, field, plan.individuals),
        Some(Kind::Role) => draw(place, field, plan.roles),
        Some(Kind::Class) if letter == 'c' => plan.classes.saturating_sub(1),
        Some(Kind::Class) => draw(place, field, plan.classes.saturating_sub(1)),
    }
}

fn statement(plan: Plan, place: u16) -> Option<Statement> {
    let turn = usize::from(place).checked_rem(plan.letters.len())?;
    let letter = plan.letters[turn];
    let kinds = field_kinds(letter)?;
    Statement::new(
        letter,
        field(plan, letter, kinds.first, place, 1),
        field(plan, letter, kinds.second, place, 2),
        field(plan, letter, kinds.third, place, 3),
    )
}

fn statements(heap: Global, plan: Plan) -> Result<Vec<Statement>, AllocError> {
    (0..plan.statements)
        .filter_map(|place| statement(plan, place))
        .collect(heap)
}

// Marks in words that are cleared first.
fn in_words(rules: &BookRules, words: &mut [u64], most: u64) -> Option<Marked> {
    let mut table = WordTable::over(words);
    table.set_up(rules.bound()).ok()?;
    mark(rules, &mut table, most).ok()
}

// Marks in slots that are freed first. Only the set-up of words may be refused, so one function for both would be no shorter.
fn in_slots(rules: &BookRules, slots: &mut [Option<u64>], most: u64) -> Option<Marked> {
    let mut table = SlotTable::over(slots);
    table.set_up(rules.bound());
    mark(rules, &mut table, most).ok()
}

// Makes the book of a plan, marks it in a table of the given name, and tells how many facts it has and how long marking took.
fn run<F: FnOnce(&BookRules) -> Option<Marked>>(
    rt: &HostRuntime,
    plan: Plan,
    table: &str,
    mark_in: F,
) -> anyhow::Result<()>
    requires { F.IsAlwaysCallable mark_in }
{
    let all = statements(rt.alloc(), plan)?;
    let Ok(base) = RuleBase::check(
        usize::from(plan.individuals),
        usize::from(plan.classes),
        usize::from(plan.roles),
        &all,
    ) else {
        println!(rt; "no such book")?;
        return Ok(());
    };
    let rules = BookRules::over(base);
    let start = Instant::now(rt)?;
    let marked = mark_in(&rules);
    let micros = start.elapsed(rt)?.as_micros();
    let name = plan.name;
    match marked {
        Some(Marked { added, state }) => {
            println!(rt; "{name}, {table}: {added} facts, {state}")?;
            eprintln!(rt; "{name}, {table}: {added} facts in {micros} us")?;
        }
        None => println!(rt; "{name}, {table}: too little room")?,
    }
    Ok(())
}

fn main(rt: HostRuntime) -> anyhow::Result<()> {
    let mut words = [0u64; 135000];
    let mut slots = [None::<u64>; 262144];
    run(&rt, BOOK, "word table", |rules| {
        in_words(rules, &mut words, BOOK.most)
    })?;
    run(&rt, BOOK, "slot table", |rules| {
        in_slots(rules, &mut slots, BOOK.most)
    })?;
    run(&rt, OFFICE, "word table", |rules| {
        in_words(rules, &mut words, OFFICE.most)
    })?;
    run(&rt, OFFICE, "slot table", |rules| {
        in_slots(rules, &mut slots, OFFICE.most)
    })?;
    run(&rt, LARGEST, "word table", |rules| {
        in_words(rules, &mut words, LARGEST.most)
    })
}
