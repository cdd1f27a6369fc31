// What the words of a call ask for.
#![tactic(auto)]

ghost use Rattle.std.specs.Prelude.{◌≡◌};
ghost use Rattle.command_rules.specs.Words.{asked};

use command_rules::Asked;

// What is asked for by so many words, the command's own name among them, of which this is the first behind that.
#[tactic(auto, unfolding(command_rules::specs::Words::asked))]
pub fn asked(count: usize, word: &[u8]) -> Option<Asked>
    ensures { result ≡ asked count word.now }
{
    if count == 3 {
        if text_compare::exact::is_same(word, b"strip") {
            return Some(Asked::Strip);
        }
        if text_compare::exact::is_same(word, b"report") {
            return Some(Asked::Report);
        }
        if text_compare::exact::is_same(word, b"explain") {
            return Some(Asked::Explain);
        }
        if text_compare::exact::is_same(word, b"judge") {
            return Some(Asked::Judge);
        }
        if text_compare::exact::is_same(word, b"check") {
            return Some(Asked::Check);
        }
        if text_compare::exact::is_same(word, b"log") {
            return Some(Asked::Log);
        }
        return None;
    }
    if count == 2 {
        if text_compare::exact::is_same(word, b"write") {
            return Some(Asked::Write);
        }
    }
    None
}
