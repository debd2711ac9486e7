// What a board file is: the verdict on any list of bytes, the rules, and what is proved of the two.
#![tactic(auto)]

ghost use Rattle.rules.specs.Examples.{Examples};

mod refusal;

pub use refusal::Refusal;

// The verdicts on the worked files.
pub fn examples_stand()
    ensures { Examples }
{}
