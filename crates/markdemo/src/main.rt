// Trials of the two mark stores and of marking. What they answer is compared with the file `stdout`.
#![tactic(auto)]

mod refused;

ghost use Rattle.std.specs.Prelude.{◌≡◌, ◌<◌, length, MatchResult, None};
ghost use Rattle.marks.specs.Marking.{Marking};
ghost use Rattle.marks.specs.Rows.{Filled};
ghost use Rattle.marks.specs.Sets.{capped, empty};
ghost use Rattle.marks.specs.Trees.{Grounded};
ghost use Rattle.wordtable.specs.Bits.{bit};
ghost use Rattle.slottable.specs.Table.{slotted};
ghost use Rattle.edges.specs.Reaches.{By};
ghost use Rattle.markdemo.specs.Refusals.{Means};
ghost use Rattle.markdemo.specs.declared.refused.Refused.TheVariants.{LimitTooLow};

use edges::{Edge, Graph};
use marks::mark::{Marked, mark};
use marks::store::MarkStore;
use refused::Refused;
use slottable::SlotTable;
use std::{fmt, io};
use wordtable::WordTable;

// What a store answers to some numbers, one after the other, and then to `clear`.
fn put_all<S: MarkStore>(rt: &HostRuntime, store: &mut S) -> io::Result<()> {
    for number in [0u64, 8, 8, 15, 63, 64, 99, 100, 18446744073709551615] {
        let answer = store.put(number);
        let has = store.has(number);
        let count = store.count();
        println!(rt; "  put {number}: {answer}, has {has}, count {count}")?;
    }
    store.clear();
    let count = store.count();
    let limit = store.limit();
    let capacity = store.capacity();
    println!(rt; "  clear: count {count}, limit {limit}, capacity {capacity}")
}

fn put_trials(rt: &HostRuntime) -> io::Result<()> {
    let mut words = [7u64; 2];
    let mut table = WordTable::over(&mut words);
    println!(rt; "two words, limit 0")?;
    put_all(rt, &mut table)?;
    for limit in [129u64, 100] {
        let made = match table.set_up(limit) {
            Ok(()) => "made",
            Err(_) => "too few",
        };
        println!(rt; "two words, limit {limit}: {made}")?;
    }
    put_all(rt, &mut table)?;
    let mut slots = [Some(3); 4];
    let mut table = SlotTable::over(&mut slots);
    table.set_up(100);
    println!(rt; "four slots, limit 100")?;
    put_all(rt, &mut table)
}

// Marks what the graph reaches in words that are cleared first.
fn in_words(graph: &Graph, words: &mut [u64], limit: u64, most: u64) -> Result<Marked, Refused>
    ensures { MatchResult result (λ m. Marking (Grounded (By graph.now.edges.now graph.now.start graph.now.bound)) empty (capped (bit words.new) limit) limit limit most m.added m.state) (λ e. Means e graph.now.bound limit words.old words.new) }
{
    let mut table = WordTable::over(words);
    let Ok(()) = table.set_up(limit) else {
        return Err(Refused::TooFewWords);
    };
    Ok(mark(graph, &mut table, most)?)
}

// Marks what the graph reaches in slots that are freed first. It has fewer ways to be refused than in words, and so a function of its own.
fn in_slots(
    graph: &Graph,
    slots: &mut [Option<u64>],
    limit: u64,
    most: u64,
) -> Result<Marked, Refused>
    ensures { MatchResult result (λ m. Marking (Grounded (By graph.now.edges.now graph.now.start graph.now.bound)) empty (capped (slotted slots.new) limit) limit (length slots.old) most m.added m.state) (λ e. (e ≡ LimitTooLow) × (limit < graph.now.bound) × Filled None slots.old slots.new) }
{
    let mut table = SlotTable::over(slots);
    table.set_up(limit);
    Ok(mark(graph, &mut table, most)?)
}

fn show<T: fmt::Display + Drop>(
    rt: &HostRuntime,
    title: T,
    outcome: Result<Marked, Refused>,
) -> io::Result<()> {
    match outcome {
        Ok(Marked { added, state }) => println!(rt; "{title}: {added} {state}"),
        Err(refused) => println!(rt; "{title}: {refused}"),
    }
}

// Marks in some memory, at each limit and for each number of facts at most.
fn mark_each<F: FnMut(u64, u64) -> Result<Marked, Refused>>(
    rt: &HostRuntime,
    memory: &str,
    trials: &[(u64, u64)],
    mut mark_in: F,
) -> io::Result<()>
    requires { F.IsAlwaysCallable mark_in }
{
    for (limit, most) in trials {
        let outcome = mark_in(*limit, *most);
        show(
            rt,
            format_args!("{memory}, limit {limit}, most {most}"),
            outcome,
        )?;
    }
    Ok(())
}

fn mark_trials(rt: &HostRuntime, graph: &Graph) -> io::Result<()> {
    let mut words = [7u64; 2];
    mark_each(
        rt,
        "two words",
        &[(100, 50), (100, 4), (100, 3), (100, 0), (129, 50), (99, 50)],
        |limit, most| in_words(graph, &mut words, limit, most),
    )?;
    mark_each(rt, "no words", &[(100, 50)], |limit, most| {
        in_words(graph, &mut [], limit, most)
    })?;
    let mut slots = [Some(9); 4];
    mark_each(
        rt,
        "four slots",
        &[(1000, 50), (1000, 2), (99, 50)],
        |limit, most| in_slots(graph, &mut slots, limit, most),
    )?;
    let mut slots = [None::<u64>; 3];
    mark_each(rt, "three slots", &[(100, 50), (100, 3)], |limit, most| {
        in_slots(graph, &mut slots, limit, most)
    })?;
    mark_each(rt, "no slots", &[(100, 50)], |limit, most| {
        in_slots(graph, &mut [], limit, most)
    })
}

// Marks one at a time in the same store: each call goes on where the last one ended.
fn one_by_one<S: MarkStore>(rt: &HostRuntime, graph: &Graph, store: &mut S) -> io::Result<()> {
    for turn in 1u8..6 {
        let outcome = mark(graph, store, 1).map_err(Refused::from);
        show(rt, "  one more", outcome)?;
        let count = store.count();
        println!(rt; "  turn {turn}: count {count}")?;
    }
    Ok(())
}

fn main(rt: HostRuntime) -> io::Result<()> {
    let edges = [
        Edge { from: 0, to: 3 },
        Edge { from: 3, to: 70 },
        Edge { from: 70, to: 9 },
        Edge { from: 8, to: 1 },
        Edge { from: 9, to: 0 },
        Edge { from: 9, to: 100 },
    ];
    let graph = Graph {
        edges: &edges,
        start: 0,
        bound: 100,
    };
    put_trials(&rt)?;
    mark_trials(&rt, &graph)?;
    let mut slots = [None::<u64>; 5];
    let mut table = SlotTable::over(&mut slots);
    table.set_up(100);
    println!(rt; "five slots, one at a time")?;
    one_by_one(&rt, &graph, &mut table)
}
