// Forcing rules: whether a message may be delivered at once, or its receiver has to take a checkpoint first.
#![tactic(auto)]

ghost use Rattle.std.specs.Prelude.{◌≡◌, ℕ};
ghost use Rattle.law.specs.Messages.{Rule, Meaning, on_news, always as at_every};
ghost use Rattle.std.proofs.Common.{rules};

// A rule answers from three numbers alone: the receiver's entry for the sender, the message's number, and how many
// checkpoints the receiver keeps.
pub trait ForcingRule {
    // The letter by which a run list names the rule.
    const LETTER: char;

    // The same letter, for clauses.
    ghost LETTER: { ℕ };

    // The answer of the rule.
    ghost says: { Rule };

    fn forces(&self, entry: u32, number: u32, kept: usize) -> bool
        ensures { result ≡ says entry number kept };

    // Every rule forces a checkpoint before news: without it a restart could not tell what hangs on the message.
    ghost news: { Meaning says };
}

// Forces only before news. The fewest checkpoints that keep the promise.
#[derive(Clone, Copy, PartialEq, Eq, Debug)]
pub struct OnNews;

// Forces before every delivery. More checkpoints, and shorter ways back.
#[derive(Clone, Copy, PartialEq, Eq, Debug)]
pub struct Always;

impl ForcingRule for OnNews {
    const LETTER: char = 'N';

    ghost LETTER = { 78 };

    ghost says = { on_news };

    ghost news = { Prim.search rules };

    fn forces(&self, entry: u32, number: u32, _kept: usize) -> bool {
        entry < number
    }
}

impl ForcingRule for Always {
    const LETTER: char = 'E';

    ghost LETTER = { 69 };

    ghost says = { at_every };

    ghost news = { Prim.search rules };

    fn forces(&self, _entry: u32, _number: u32, _kept: usize) -> bool {
        true
    }
}
