//! What holds of the definitions: each law is the contract of a function that does nothing.
ghost use Rattle.std.specs.Prelude.{◌≡◌, List, None, Some, map, true};
ghost use Rattle.std.specs.List.{AllByRecursion, list_all};
ghost use Rattle.std.specs.Str.{IsUtf8};
ghost use Rattle.clap.specs.Words.{Text};
ghost use Rattle.boot_words.specs.Lines.{line_task};
ghost use Rattle.boot_words.specs.Grammar.{grammar_task, option_names, settings_of};
ghost use Rattle.boot_words.specs.Parts.{Part, is_part, line_of, setting_of};

/// What words of text ask for is what the grammar of command lines says: one command, and options with one value each,
/// as `--name value` or `--name=value`, in any order, each at most once.
pub fn lines_are_of_the_grammar()
    ensures { (words : List Text) → AllByRecursion IsUtf8 words → line_task words ≡ grammar_task words }
{}

/// A line that is written in parts, in any order, is read as the settings of the parts.
pub fn parts_are_read()
    ensures { (parts : List Part) → list_all is_part parts ≡ true
        → settings_of option_names (line_of parts) None ≡ Some (map setting_of parts) }
{}
