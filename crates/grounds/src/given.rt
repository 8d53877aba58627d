// A question, and the way from its fact and ground back to the given of a line.
ghost use Rattle.std.specs.Prelude.{◌≡◌, ◌+◌};
ghost use Rattle.calculus.specs.Terms.{first_at, by_rule};
ghost use Rattle.calculus.specs.Tests.{Decides};
ghost use Rattle.linetable.specs.Table.{witness};
ghost use Rattle.grounds.specs.Given.{Held, start_told, finish_told, given_of};

use calculus::numbers::number_of;
use calculus::term::Term;
use calculus::terms::{Fact, First, Ground, Second};
use linetable::shapes::{Key, Line, Told};
use linetable::table::{finish_of, start_of};
use marks::store::MarkStore;
use rules::counts::Counts;

/// The question whether a ground gives a fact from the facts that a store holds. The definitions speak of its numbers and not of
/// this struct, so that they can be read without the code.
#[derive_where(Clone, Copy)]
pub(crate) struct Question<'a, S: MarkStore> {
    pub counts: Counts,
    pub store: &'a S,
    pub fact: Fact,
    pub ground: Ground,
}

impl<'a, S: MarkStore> Question<'a, S> {
    // Whether a fact is inside the book and held.
    pub(crate) fn is_held(&self, f: Fact) -> bool
        ensures { Decides result (Held self.now.counts.individuals self.now.counts.classes self.now.counts.roles (S.MarkStore.held self.now.store.now) f) }
    {
        number_of(self.counts, f).is_some_and(|number| self.store.has(number))
    }

    // Whether the ground is that of a rule without a statement.
    pub(crate) fn is_by_rule(&self, rule: u16, u: u16) -> bool
        ensures { Decides result (self.now.ground ≡ by_rule rule u) }
    {
        let of_rule = Ground {
            rule,
            place: 0,
            u,
            w: 0,
        };
        self.ground == of_rule
    }

    // Whether the ground has the statement at a place.
    pub(crate) fn is_at(&self, p: u16) -> bool
        ensures { Decides result (self.now.ground.place ≡ p + 1) }
    {
        self.ground.place.checked_sub(1) == Some(p)
    }

    // The first term that the ground tells as the witness u.
    pub(crate) fn first_told(&self) -> First
        ensures { result ≡ first_at self.now.counts.individuals self.now.ground.u }
    {
        First::at(self.counts, self.ground.u)
    }

    fn start_told(&self, told: Told) -> First
        ensures { result ≡ start_told self.now.counts.individuals told self.now.fact self.now.ground.u }
    {
        match told {
            Told::TellStart => self.first_told(),
            _ => start_of(self.fact),
        }
    }

    fn finish_told(&self, told: Told) -> First
        ensures { result ≡ finish_told self.now.counts.individuals told self.now.fact self.now.ground.u }
    {
        match told {
            Told::TellFinish => self.first_told(),
            _ => finish_of(self.fact),
        }
    }

    // The given from which a line with that key leads to the fact.
    pub(crate) fn given_of(&self, on: Key, line: Line) -> Fact
        ensures { result ≡ given_of self.now.counts.individuals on line.pair line.told self.now.fact self.now.ground.u }
    {
        let start = self.start_told(line.told);
        match on {
            Key::Never => self.fact,
            Key::Anyone => Fact::Instance(start, Second::at(self.counts, self.ground.u)),
            Key::Of(c) => Fact::Instance(start, c),
            Key::Role(r) if line.pair => Fact::Pair(start, r, self.finish_told(line.told)),
            Key::Role(r) => Fact::SelfPair(start, r),
        }
    }

    // The number that a line tells of its given.
    pub(crate) fn told_number(&self, told: Told, g: Fact) -> u64
        ensures { result ≡ witness self.now.counts.individuals told g }
    {
        match (told, g) {
            (Told::TellStart, _) => start_of(g).number(self.counts),
            (Told::TellFinish, _) => finish_of(g).number(self.counts),
            (Told::TellSecond, Fact::Instance(_, y)) => y.number(self.counts),
            _ => 0,
        }
    }
}
