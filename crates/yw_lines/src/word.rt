// The words of commands and queries.
ghost use Rattle.std.specs.Prelude.{◌≡◌};
ghost use Rattle.yw_lines.specs.Words.{word_in, word_text, written};

/// The text under `cmd`: which command or query a line is. The words are our own.
#[derive(Clone, Copy, Debug, PartialEq, Eq)]
pub enum Word {
    Person,
    Load,
    Rule,
    Launch,
    Enter,
    Start,
    Complete,
    Add,
    Raise,
    Suspend,
    Continue,
    Cancel,
    Advance,
    List,
    Show,
    Ended,
    Specs,
}

fn word_among(words: &[Word], text: &str) -> Option<Word>
    ensures { result ≡ written word_text words.now text.now }
{
    words.iter().copied().find(|word| text == word.text())
}

impl Word {
    /// All words.
    pub const ALL: [Word; 17] = [
        Word::Person,
        Word::Load,
        Word::Rule,
        Word::Launch,
        Word::Enter,
        Word::Start,
        Word::Complete,
        Word::Add,
        Word::Raise,
        Word::Suspend,
        Word::Continue,
        Word::Cancel,
        Word::Advance,
        Word::List,
        Word::Show,
        Word::Ended,
        Word::Specs,
    ];

    /// The word as a line has it.
    pub fn text(self) -> &'static str
        ensures { result.now ≡ word_text self }
    {
        match self {
            Word::Person => "person",
            Word::Load => "load",
            Word::Rule => "rule",
            Word::Launch => "launch",
            Word::Enter => "enter",
            Word::Start => "start",
            Word::Complete => "complete",
            Word::Add => "add",
            Word::Raise => "raise",
            Word::Suspend => "suspend",
            Word::Continue => "continue",
            Word::Cancel => "cancel",
            Word::Advance => "advance",
            Word::List => "list",
            Word::Show => "show",
            Word::Ended => "ended",
            Word::Specs => "specs",
        }
    }

    /// The word that a line has so, and `None` where it has none.
    #[tactic(auto, unfolding(crate::specs::Words::word_in))]
    pub fn read(text: &str) -> Option<Word>
        ensures { result ≡ word_in text.now }
    {
        word_among(&Word::ALL, text)
    }
}
