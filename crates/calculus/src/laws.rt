// The laws of the calculus. Each function computes nothing: its contract is the theorem.
ghost use Rattle.calculus.specs.Safety.{ReadOnce, LengthIsSize};
ghost use Rattle.calculus.specs.Safety.{ReadingsApart, ReadingsKept, GivenReadings, EntriesJoin, AnswersRead};
ghost use Rattle.calculus.specs.Safety.{OneType, InferExact, TypingKept, TypedScoped};
ghost use Rattle.calculus.specs.Safety.{ValueRests, OneNext, NextExact, ValueExact};
ghost use Rattle.calculus.specs.Safety.{ClosedKept, TypeKept, Progress};
ghost use Rattle.calculus.specs.Safety.{RunsCompose, RunsAgree, RunKeepsType, Stops, OneStop};
ghost use Rattle.calculus.specs.Substitution.{SubstitutionUsual};
ghost use Rattle.calculus.specs.Examples.{WorkedRules, EmptyLawful};

// How terms are read from lists of nodes.
pub fn flat_lists()
    ensures once { ReadOnce }
    ensures length { LengthIsSize }
{}

// How type tables are read.
pub fn type_tables()
    ensures apart { ReadingsApart }
    ensures kept { ReadingsKept }
    ensures given { GivenReadings }
    ensures joined { EntriesJoin }
    ensures answers { AnswersRead }
{}

// What the substitution of a redex does.
pub fn substitution()
    ensures usual { SubstitutionUsual }
{}

// Types of terms.
pub fn typing()
    ensures unique { OneType }
    ensures computed { InferExact }
    ensures kept { TypingKept }
    ensures scoped { TypedScoped }
{}

// Steps of terms.
pub fn steps()
    ensures rests { ValueRests }
    ensures unique { OneNext }
    ensures computed { NextExact }
    ensures values { ValueExact }
{}

// What a step keeps.
pub fn preservation()
    ensures closed { ClosedKept }
    ensures typed { TypeKept }
{}

// A closed term with a type is a value or has a next term.
pub fn progress()
    ensures either { Progress }
{}

// Runs of steps.
pub fn runs()
    ensures compose { RunsCompose }
    ensures agree { RunsAgree }
    ensures typed { RunKeepsType }
    ensures stops { Stops }
    ensures unique { OneStop }
{}

// Rules with their types and the outcomes of their runs.
pub fn examples()
    ensures rules { WorkedRules }
    ensures host { EmptyLawful }
{}
