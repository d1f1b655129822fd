//! Command lines: the words after the program's name.
ghost use Rattle.std.specs.Prelude.{◌≡◌, ◌⊎◌, Some, None, Err, IfOk, map, string_bytes, MatchResult};
ghost use Rattle.std.specs.List.{list_all};
ghost use Rattle.boot_words.specs.declared.task.Task.{Task};
ghost use Rattle.boot_words.specs.Grammar.{grammar_task};
ghost use Rattle.boot_words.specs.Lines.{AnswersLine, is_word, line_task};

use crate::options::task;
use crate::program::matches;
use crate::task::Task;
use std::alloc::Global;

/// Why words ask for nothing.
#[derive(Clone, Copy, PartialEq, Eq, Debug)]
pub enum WordsFault {
    /// They are no command line.
    Bad,
    /// There was no memory for the work.
    OutOfResources,
}

fn is_word(word: &str) -> bool
    ensures { result ≡ is_word word.now }
{
    !word.is_empty() && word != "-" && word != "--"
}

fn are_words(words: &[String]) -> bool
    ensures { result ≡ list_all (λ word. is_word (string_bytes word)) words.now }
{
    words.iter().all(|word| is_word(word.as_str()))
}

fn read(alloc: Global, words: &[String]) -> Result<Task, WordsFault>
    ensures { AnswersLine result (line_task (map string_bytes words.now)) }
{
    if !are_words(words) {
        return Err(WordsFault::Bad);
    }
    match matches(alloc, words) {
        Ok(matches) => match task(&matches) {
            Some(task) => Ok(task),
            None => Err(WordsFault::Bad),
        },
        Err(fault) => Err(fault),
    }
}

/// Reads what the words ask for.
pub fn read_words(alloc: Global, words: &Vec<String>) -> Result<Task, WordsFault>
    ensures read { IfOk result (λ task. line_task (map string_bytes words.now.items) ≡ Some task) }
    ensures refused { result ≡ Err WordsFault.Bad → line_task (map string_bytes words.now.items) ≡ None }
    ensures asked { (task : Task) → line_task (map string_bytes words.now.items) ≡ Some task
        → MatchResult result (λ read. read ≡ task) (λ fault. fault ≡ WordsFault.OutOfResources) }
    ensures bad { line_task (map string_bytes words.now.items) ≡ None
        → MatchResult result (λ read. ⊥) (λ fault. (fault ≡ WordsFault.Bad) ⊎ (fault ≡ WordsFault.OutOfResources)) }
    ensures grammar { line_task (map string_bytes words.now.items) ≡ grammar_task (map string_bytes words.now.items) }
{
    read(alloc, words.as_slice())
}
