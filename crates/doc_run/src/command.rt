// What the words of a run ask for.
ghost use Rattle.std.specs.Prelude.{◌≡◌, ℕ, List, [], ◌∷◌, MatchOption, map, codes};
ghost use Rattle.std.specs.String.{string_bytes};
ghost use Rattle.summary_set.specs.Written.{IsTitle};
ghost use Rattle.document_commands.specs.Tasks.{FileTask, retitle_task, task_of};
ghost use Rattle.doc_run.specs.Commands.{request_of, AsksFor, IsCommand, IsNoCommand, IsPosition, IsSeed};

use document_commands::{Pair, Task, Title};
use script_run::MAX_SEED;

/// A command, with the names that it is given.
#[derive(Drop)]
pub enum Command<'a> {
    /// List the streams of the root.
    Streams {
        file: &'a str,
    },
    /// Ask something of the document of a file.
    OnDocument {
        task: Task<'a>,
        file: &'a str,
    },
    /// Ask something of the documents of two files.
    OnTwo {
        pair: Pair<'a>,
        first: &'a str,
        second: &'a str,
    },
    /// Edit the document of a file by a script, and put its last save under a name.
    Edit {
        file: &'a str,
        script: &'a str,
        out: &'a str,
    },
    /// Save the document that is the JSON of a file under a name.
    Import {
        file: &'a str,
        out: &'a str,
    },
    /// Put what the generator makes of a seed under a name.
    Gen {
        seed: u32,
        out: &'a str,
    },
}

/// The most digits of a position or a seed.
const MAX_DIGITS: usize = 9;

/// The command that the words are, where they are one.
pub(crate) fn command_of(words: &[String]) -> Option<Command<'_>>
    ensures { MatchOption result
        (IsNoCommand (map string_bytes words.now))
        (λ command. IsCommand (map string_bytes words.now) (request_of command)) }
{
    match words {
        [word, file] => command_on(word.as_str(), file.as_str()),
        [word, first, second] => { command_on_two(word.as_str(), first.as_str(), second.as_str()) }
        [word, file, script, out] => {
            command_on_three(word.as_str(), file.as_str(), script.as_str(), out.as_str())
        }
        _ => None,
    }
}

/// The command that a word names, where it asks for a file alone.
fn command_on<'a>(word: &str, file: &'a str) -> Option<Command<'a>>
    ensures { MatchOption result
        (IsNoCommand (word.now ∷ file.now ∷ []))
        (λ command. IsCommand (word.now ∷ file.now ∷ []) (request_of command)) }
{
    if word == "streams" {
        return Some(Command::Streams { file });
    }
    let task = task_named(word)?;
    Some(Command::OnDocument { task, file })
}

/// The command that a word names, where two words are behind it.
fn command_on_two<'a>(word: &str, first: &'a str, second: &'a str) -> Option<Command<'a>>
    ensures { MatchOption result
        (IsNoCommand (word.now ∷ first.now ∷ second.now ∷ []))
        (λ command. IsCommand (word.now ∷ first.now ∷ second.now ∷ []) (request_of command)) }
{
    if word == "full" {
        let task = Task::Full { out: second };
        return Some(Command::OnDocument { task, file: first });
    }
    if word == "export" {
        let task = Task::Export { out: second };
        return Some(Command::OnDocument { task, file: first });
    }
    if word == "import" {
        return Some(Command::Import {
            file: first,
            out: second,
        });
    }
    if word == "equal" {
        let pair = Pair::Compare;
        return Some(Command::OnTwo {
            pair,
            first,
            second,
        });
    }
    if word == "gen" {
        let seed = seed_of(first)?;
        return Some(Command::Gen { seed, out: second });
    }
    let pos = props_position(word, second)?;
    let task = Task::Props(pos);
    Some(Command::OnDocument { task, file: first })
}

/// The command that a word names, where three words are behind it.
fn command_on_three<'a>(
    word: &str,
    file: &'a str,
    second: &'a str,
    out: &'a str,
) -> Option<Command<'a>>
    ensures { MatchOption result
        (IsNoCommand (word.now ∷ file.now ∷ second.now ∷ out.now ∷ []))
        (λ command. IsCommand (word.now ∷ file.now ∷ second.now ∷ out.now ∷ []) (request_of command)) }
{
    if word == "edit" {
        return Some(Command::Edit {
            file,
            script: second,
            out,
        });
    }
    if word == "join" {
        let pair = Pair::Join { out };
        return Some(Command::OnTwo {
            pair,
            first: file,
            second,
        });
    }
    let task = retitle_asked(word, second, out)?;
    Some(Command::OnDocument { task, file })
}

/// The task where another title is asked for, and it is one that may be put.
fn retitle_asked<'a>(word: &str, text: &'a str, out: &'a str) -> Option<Task<'a>>
    ensures { MatchOption result
        (word.now ≡ codes "retitle" → ¬ IsTitle text.now)
        (λ task. (word.now ≡ codes "retitle") × (IsTitle text.now
        × (task_of task ≡ retitle_task text.now out.now))) }
{
    if word != "retitle" {
        return None;
    }
    let title = Title::of(text)?;
    Some(Task::Retitle { title, out })
}

/// The task that a word names, where it asks for no more than a file.
fn task_named<'a>(word: &str) -> Option<Task<'a>>
    ensures { MatchOption result
        ((task : FileTask) (file : List ℕ) → ¬ (AsksFor (word.now ∷ file ∷ []) task file))
        (λ task. (file : List ℕ) → AsksFor (word.now ∷ file ∷ []) (task_of task) file) }
{
    if word == "text" {
        Some(Task::Text)
    } else if word == "check" {
        Some(Task::Check)
    } else if word == "show" {
        Some(Task::Show)
    } else if word == "outline" {
        Some(Task::Outline)
    } else if word == "title" {
        Some(Task::Title)
    } else {
        None
    }
}

/// The position where the properties are asked for.
fn props_position(word: &str, position: &str) -> Option<u32>
    ensures { MatchOption result
        ((pos : ℕ) → word.now ≡ codes "props" → ¬ IsPosition position.now pos)
        (λ pos. (word.now ≡ codes "props") × IsPosition position.now pos) }
{
    if word == "props" {
        position_of(position)
    } else {
        None
    }
}

/// The seed of a word of at most nine digits.
fn seed_of(word: &str) -> Option<u32>
    ensures { MatchOption result
        ((seed : ℕ) → ¬ IsSeed word.now seed)
        (λ seed. IsSeed word.now seed) }
{
    let seed = position_of(word)?;
    if seed <= MAX_SEED { Some(seed) } else { None }
}

/// The number of a word of at most nine digits.
fn position_of(word: &str) -> Option<u32>
    ensures { MatchOption result
        ((pos : ℕ) → ¬ IsPosition word.now pos)
        (λ pos. IsPosition word.now pos) }
{
    if word.len() > MAX_DIGITS || word.starts_with('+') {
        return None;
    }
    match word.parse::<u32>() {
        Ok(pos) => Some(pos),
        Err(_) => None,
    }
}
