// From a whole text to its rules, line by line.
ghost use Rattle.std.specs.Prelude.{◌≡◌, ◌+◌, ◌<◌, true, List, [], ◌∷◌, map, length, position, IfOk, Ok, Err, Option as MayBe, MatchResult, OnOk};
ghost use Rattle.std.specs.Str.{bytes_eq};
ghost use Rattle.rules.specs.declared.forms.Kind.{Kind as KindOf};
ghost use Rattle.rules.specs.Forms.{in_order};
ghost use Rattle.reader.specs.Text.{words};
ghost use Rattle.ruletext.specs.Outcome.{names as names_of, declared, numbers, then, declares, stating, by_letter, by_line, counted, nothing, by_text};
ghost use Rattle.reader.specs.Cut.{LinesWhole};
ghost use Rattle.ruletext.specs.Laws.{Orderly};
ghost use Rattle.ruletext.specs.Means.{Means, OneOutcome, BreaksAt};
ghost use Rattle.roles.specs.Roles.{Admissible};
ghost use Rattle.rules.specs.Fits.{all_fit};
ghost use Rattle.ruletext.specs.Reading.{spelt, contents, Counted};
ghost use Rattle.rules.specs.Limits.{most};

use crate::letters::{Lettered, kind_of, letter_of, used};
use crate::text_rules::Rules;
use crate::words::{check_names, last_word};
use reader::letters::is_proper;
use reader::reader::{Line, Reader, Word};
use roles::admissible::first_breaking;
use rules::base::RuleBase;
use rules::counts::Counts;
use rules::forms::{Kind, field_kinds};
use rules::refusals::{Reason, Refusal};
use rules::statements::Statement;
use rules::three::Three;
use std::alloc::{AllocError, Global};

// The place of a name among those declared.
fn find(names: &[Word<'_>], name: &[u8]) -> Option<usize>
    ensures { result ≡ position (λ word. bytes_eq word.bytes.now name.now) names.now }
{
    names.iter().position(|word| word.bytes == name)
}

impl<'a> Rules<'a> {
    fn names(&self, kind: Kind) -> &[Word<'a>]
        ensures { map spelt result.now ≡ names_of (contents self.now) kind }
    {
        match kind {
            Kind::Individual => self.individuals.as_slice(),
            Kind::Class => self.classes.as_slice(),
            Kind::Role => self.roles.as_slice(),
        }
    }

    // An arm for each kind: tried a method that gives the `&mut Vec` of a kind, and a `match` that picks it; the borrow checker covers neither.
    fn put_name(&mut self, kind: Kind, word: Word<'a>)
        requires { length (names_of (contents self.old) kind) < most kind }
        ensures { contents self.new ≡ declared (contents self.old) kind (spelt word.entry) }
    {
        match kind {
            Kind::Individual => self.individuals.push_reserved(word),
            Kind::Class => self.classes.push_reserved(word),
            Kind::Role => self.roles.push_reserved(word),
        }
    }

    // The number of the next word as a field of some kind, or 0 for a field that is not in use.
    fn field(&self, kind: Option<Kind>, line: &mut Line<'a>) -> Result<u16, Refusal>
        ensures kept { line.new.line ≡ line.old.line }
        ensures cases { MatchResult result (λ i. (ks : List (MayBe KindOf)) → numbers line.old.line (line.old.word + 1) (contents self.now) (kind ∷ ks) (words line.old.here.now) ≡ then (numbers line.old.line (line.new.word + 1) (contents self.now) ks (words line.new.here.now)) (λ is. Ok (i ∷ is))) (λ e. (ks : List (MayBe KindOf)) → numbers line.old.line (line.old.word + 1) (contents self.now) (kind ∷ ks) (words line.old.here.now) ≡ Err e) }
    {
        let Some(kind) = kind else {
            return Ok(0);
        };
        let word = line
            .next_word()
            .ok_or(Reason::WrongWordCount.at(line.line, 1))?;
        let place = find(self.names(kind), word.bytes).ok_or(Reason::NotDeclared.at(
            word.line, word.word,
        ))?;
        Ok(place as u16)
    }

    // The numbers of three fields, from the words that are left.
    fn fields(&self, kinds: Three<Option<Kind>>, mut line: Line<'a>) -> Result<Three<u16>, Refusal>
        ensures { MatchResult result (λ three. numbers line.entry.line (line.entry.word + 1) (contents self.now) (in_order kinds) (words line.entry.here.now) ≡ Ok (three.first ∷ three.second ∷ three.third ∷ [])) (λ e. numbers line.entry.line (line.entry.word + 1) (contents self.now) (in_order kinds) (words line.entry.here.now) ≡ Err e) }
    {
        let a = self.field(kinds.first, &mut line)?;
        let b = self.field(kinds.second, &mut line)?;
        let c = self.field(kinds.third, &mut line)?;
        Ok(Three::new(a, b, c))
    }

    // A line that declares a name.
    fn declare(&mut self, kind: Kind, said: Lettered<'a>) -> Result<(), Refusal>
        ensures { MatchResult result (λ _. (declares said.entry.rest.line (contents self.old) kind (words said.entry.rest.here.now) ≡ Ok (contents self.new))) (λ e. declares said.entry.rest.line (contents self.old) kind (words said.entry.rest.here.now) ≡ Err e) }
    {
        let mut line = said.rest;
        if last_word(line) != 2 {
            return Err(Reason::WrongWordCount.at(line.line, 1));
        }
        check_names(line)?;
        let word = line
            .next_word()
            .ok_or(Reason::WrongWordCount.at(line.line, 1))?;
        let names = self.names(kind);
        if find(names, word.bytes).is_some() {
            return Err(Reason::DeclaredBefore.at(word.line, word.word));
        }
        if names.len() >= kind.limit() {
            return Err(Reason::CountOutOfLimits.at(word.line, 1));
        }
        self.put_name(kind, word);
        Ok(())
    }

    // A line that states: what it states.
    fn stated(&self, kinds: Three<Option<Kind>>, said: Lettered<'a>) -> Result<Statement, Refusal>
        ensures { result ≡ stating said.entry.rest.line (contents self.now) said.entry.letter (in_order kinds) (words said.entry.rest.here.now) }
    {
        let line = said.rest;
        if last_word(line) != used(kinds) + 1 {
            return Err(Reason::WrongWordCount.at(line.line, 1));
        }
        check_names(line)?;
        let fields = self.fields(kinds, line)?;
        Statement::new(said.letter, fields.first, fields.second, fields.third).ok_or(
            Reason::UnknownLetter.at(line.line, 1),
        )
    }

    // A line by its letter.
    fn read_letter(&mut self, said: Lettered<'a>) -> Result<(), Refusal>
        ensures { MatchResult result (λ _. (by_letter said.entry.rest.line (contents self.old) said.entry.letter (words said.entry.rest.here.now) ≡ Ok (contents self.new))) (λ e. by_letter said.entry.rest.line (contents self.old) said.entry.letter (words said.entry.rest.here.now) ≡ Err e) }
    {
        if let Some(kind) = kind_of(said.letter) {
            return self.declare(kind, said);
        }
        let line = said.rest.line;
        let kinds = field_kinds(said.letter).ok_or(Reason::UnknownLetter.at(line, 1))?;
        let statement = self.stated(kinds, said)?;
        if self.statements.len() >= 384 {
            return Err(Reason::CountOutOfLimits.at(line, 1));
        }
        self.statements.push_reserved(statement);
        self.lines.push_reserved(line);
        Ok(())
    }

    // A line.
    fn read_line(&mut self, mut line: Line<'a>) -> Result<(), Refusal>
        requires first { line.word ≡ 0 }
        ensures { MatchResult result (λ _. (by_line line.entry.line (contents self.old) line.entry.here.now ≡ Ok (contents self.new))) (λ e. by_line line.entry.line (contents self.old) line.entry.here.now ≡ Err e) }
    {
        if !is_proper(line.here) {
            return Err(Reason::ImproperLine.at(line.line, 1));
        }
        let Some(word) = line.next_word() else {
            return Ok(());
        };
        let letter = letter_of(word.bytes).ok_or(Reason::UnknownLetter.at(line.line, 1))?;
        self.read_letter(Lettered { letter, rest: line })
    }

    // The counts of names and statements; a text with too few is refused.
    fn counts(&self) -> Result<Counts, Refusal>
        ensures { MatchResult result (λ c. (counted (contents self.now) ≡ Ok (contents self.now)) × Counted c (contents self.now)) (λ e. counted (contents self.now) ≡ Err e) }
    {
        Counts::new(
            self.individuals.len(),
            self.classes.len(),
            self.roles.len(),
            self.statements.len(),
        )
    }
}

impl<'a> Rules<'a> {
    /// No names and no statements yet, with memory set aside for all that a text can give.
    pub fn new(heap: Global) -> Result<Rules<'a>, AllocError>
        ensures { IfOk result (λ rules. contents rules ≡ nothing) }
    {
        let individuals = Vec::with_capacity(heap, 128)?;
        let classes = Vec::with_capacity(heap, 256)?;
        let roles = Vec::with_capacity(heap, 32)?;
        let statements = Vec::with_capacity(heap, 384)?;
        let lines = Vec::with_capacity(heap, 384)?;
        Ok(Rules {
            individuals,
            classes,
            roles,
            statements,
            lines,
        })
    }

    // Forgets what was read.
    pub(crate) fn clear(&mut self)
        ensures { contents self.new ≡ nothing }
    {
        self.individuals.clear();
        self.classes.clear();
        self.roles.clear();
        self.statements.clear();
        self.lines.clear();
    }

    // Reads the lines of a text in place of what was read before.
    fn read_lines(&mut self, text: &'a [u8]) -> Result<Counts, Refusal>
        ensures { MatchResult result (λ c. (by_text text.now ≡ Ok (contents self.new)) × Counted c (contents self.new)) (λ e. by_text text.now ≡ Err e) }
    {
        self.clear();
        for line in Reader::new(text) {
            self.read_line(line)?;
        }
        self.counts()
    }

    // Refuses the first statement that breaks its condition.
    fn admit(&self, counts: Counts) -> Result<(), Refusal>
        requires { (Counted counts (contents self.now)) × (all_fit counts.individuals counts.classes counts.roles (contents self.now).statements ≡ true) }
        ensures { MatchResult result (λ _. Admissible (contents self.now).statements) (λ e. BreaksAt (contents self.now) e) }
    {
        let base = RuleBase::new(counts, self.statements.as_slice());
        match first_breaking(&base) {
            None => Ok(()),
            Some(place) => Err(Reason::NotAdmissible.at(self.lines[place], 1)),
        }
    }

    // Reads a text in place of what was read before.
    fn read_text(&mut self, text: &'a [u8]) -> Result<Counts, Refusal>
        ensures { MatchResult result (λ c. Means text.now (Ok (contents self.new)) × Counted c (contents self.new)) (λ e. Means text.now (Err e)) }
    {
        let counts = self.read_lines(text)?;
        self.admit(counts)?;
        Ok(counts)
    }

    /// Reads a rule text in place of what was read before: its names and statements, and answers their counts; or its one
    /// refusal, which leaves nothing read.
    pub fn read(&mut self, text: &'a [u8]) -> Result<Counts, Refusal>
        ensures exact { MatchResult result (λ _. Means text.now (Ok (contents self.new))) (λ e. Means text.now (Err e) × (contents self.new ≡ nothing)) }
        ensures counts { IfOk result (λ c. Counted c (contents self.new)) }
        ensures one { OneOutcome text.now }
        ensures lines { LinesWhole text.now }
        ensures orderly { OnOk result (Orderly text.now (contents self.new)) }
    {
        let outcome = self.read_text(text);
        if outcome.is_err() {
            self.clear();
        }
        outcome
    }
}
