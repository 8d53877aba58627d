// The answers of a book whose marking is done, with what they mean.
ghost use Rattle.std.specs.Prelude.{◌≡◌, ◌+◌, ◌*◌};
ghost use Rattle.meaning.specs.Theorems.{Soundness, Countermodels, YesMeans, NoMeans, ClashMeans};
ghost use Rattle.meaning.specs.Answers.{answer_for, verdict_for, AnswerRight, VerdictRight};

/// What ask answers of an individual and a class.
#[derive(Clone, Copy)]
pub enum Answer {
    /// Every satisfying interpretation puts the individual into the class.
    Yes,
    /// A small satisfying interpretation leaves it out.
    No,
}

/// What is said of the statements as a whole.
#[derive(Clone, Copy)]
pub enum Verdict {
    /// A small interpretation satisfies them.
    Sound,
    /// Nothing satisfies them.
    Clash,
}

// No `From<bool>` for these two: it would not say of what the truth value tells, a mark or a clash.
impl Answer {
    /// The answer by whether the fact is marked. A marked fact has a proof tree, and proof trees are sound.
    pub fn by_mark(marked: bool) -> Answer
        ensures value { result ≡ answer_for marked }
        ensures right { AnswerRight marked result }
        ensures sound { Soundness }
        ensures yes { YesMeans }
        ensures no { NoMeans }
    {
        if marked { Answer::Yes } else { Answer::No }
    }
}

impl Verdict {
    /// The verdict by whether the class of some form-c statement has a marked first term.
    pub fn by_clash(found: bool) -> Verdict
        ensures value { result ≡ verdict_for found }
        ensures right { VerdictRight found result }
        ensures clash { ClashMeans }
    {
        if found {
            Verdict::Clash
        } else {
            Verdict::Sound
        }
    }
}

/// How many things a small interpretation has at most, by the individuals and the form-j statements; closed marks without a
/// clash always have one.
pub fn most_things(individuals: u16, requirements: u16) -> u32
    ensures value { result ≡ individuals + 2 * requirements }
    ensures small { Countermodels }
{
    u32::from(individuals) + 2 * u32::from(requirements)
}
