// The grounds that are no lines: rules 1, 2, 4, 27, 28 and 29.
ghost use Rattle.calculus.specs.Tests.{Decides};
ghost use Rattle.grounds.specs.Rules.{ByRule1, ByRule2, ByRule4, ByRule27, ByRule28, ByRule29, Unplaced};

use crate::given::Question;
use calculus::term::Term;
use calculus::terms::{Fact, First, Second};
use marks::store::MarkStore;

impl<'a, S: MarkStore> Question<'a, S> {
    fn by_rule_1(&self) -> bool
        ensures { Decides result (ByRule1 self.now.counts.individuals self.now.fact self.now.ground) }
    {
        match self.fact {
            Fact::Instance(First::Individual(x), Second::Individual(y)) => {
                x < self.counts.individuals && x == y && self.is_by_rule(1, 0)
            }
            _ => false,
        }
    }

    fn by_rule_2(&self) -> bool
        ensures { Decides result (ByRule2 self.now.counts.individuals self.now.counts.classes self.now.counts.roles (S.MarkStore.held self.now.store.now) self.now.fact self.now.ground) }
    {
        match self.fact {
            Fact::SelfPair(First::Individual(x), v) => {
                x < self.counts.individuals
                    && self.is_held(Fact::Pair(First::Individual(x), v, First::Individual(x)))
                    && self.is_by_rule(2, 0)
            }
            _ => false,
        }
    }

    fn by_rule_27(&self) -> bool
        ensures { Decides result (ByRule27 self.now.counts.individuals self.now.counts.classes self.now.counts.roles (S.MarkStore.held self.now.store.now) self.now.fact self.now.ground) }
    {
        match self.fact {
            Fact::Instance(First::Individual(x), z) => {
                let u = self.first_told();
                x < self.counts.individuals
                    && self.is_held(Fact::Instance(u, Second::Individual(x)))
                    && self.is_held(Fact::Instance(u, z))
                    && self.is_by_rule(27, self.ground.u)
            }
            _ => false,
        }
    }

    fn by_rule_28(&self) -> bool
        ensures { Decides result (ByRule28 self.now.counts.individuals self.now.counts.classes self.now.counts.roles (S.MarkStore.held self.now.store.now) self.now.fact self.now.ground) }
    {
        match self.fact {
            Fact::Instance(x, z) => {
                let u = self.ground.u;
                u < self.counts.individuals
                    && self.is_held(Fact::Instance(x, Second::Individual(u)))
                    && self.is_held(Fact::Instance(First::Individual(u), z))
                    && self.is_by_rule(28, u)
            }
            _ => false,
        }
    }

    fn by_rule_29(&self) -> bool
        ensures { Decides result (ByRule29 self.now.counts.individuals self.now.counts.classes self.now.counts.roles (S.MarkStore.held self.now.store.now) self.now.fact self.now.ground) }
    {
        match self.fact {
            Fact::Pair(x, v, First::Individual(y)) => {
                let u = self.first_told();
                y < self.counts.individuals
                    && self.is_held(Fact::Pair(x, v, u))
                    && self.is_held(Fact::Instance(u, Second::Individual(y)))
                    && self.is_by_rule(29, self.ground.u)
            }
            _ => false,
        }
    }

    // Whether a rule without a statement gives the fact.
    pub(crate) fn unplaced_gives(&self) -> bool
        ensures { Decides result (Unplaced self.now.counts.individuals self.now.counts.classes self.now.counts.roles (S.MarkStore.held self.now.store.now) self.now.fact self.now.ground) }
    {
        self.by_rule_1()
            || self.by_rule_2()
            || self.by_rule_27()
            || self.by_rule_28()
            || self.by_rule_29()
    }

    // Rule 4 with the form-c statement of a class at a place.
    pub(crate) fn by_rule_4(&self, p: u16, class: u16) -> bool
        ensures { Decides result (ByRule4 self.now.counts.individuals self.now.counts.classes self.now.counts.roles p class (S.MarkStore.held self.now.store.now) self.now.fact self.now.ground) }
    {
        match self.fact {
            Fact::Instance(x, Second::Class(c)) => {
                let u = self.first_told();
                let w = Second::at(self.counts, self.ground.w);
                c < self.counts.classes
                    && self.is_held(Fact::Instance(u, Second::Class(class)))
                    && self.is_held(Fact::Instance(x, w))
                    && self.ground.rule == 4
                    && self.is_at(p)
            }
            _ => false,
        }
    }
}
