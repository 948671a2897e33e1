// What the words of a run ask for.
ghost use Rattle.std.specs.Prelude.{◌≡◌, ◌∷◌, [], MatchOption, None, Some, map};
ghost use Rattle.std.specs.String.{string_bytes};
ghost use Rattle.docfit_run.specs.Requests.{request_of, requested};

/// What is asked for.
#[derive(Drop)]
pub enum Asked<'a> {
    /// How the program is called.
    Help,
    /// Which program this is.
    Version,
    /// The document of a file, under a name: plain, or with its endnotes and comments as notes.
    Fit {
        plain: bool,
        file: &'a str,
        out: &'a str,
    },
}

/// What the words ask for, where they ask for something.
pub(crate) fn asked_by(words: &[String]) -> Option<Asked<'_>>
    ensures { MatchOption result
        (requested (map string_bytes words.now) ≡ None)
        (λ asked. requested (map string_bytes words.now) ≡ Some (request_of asked)) }
{
    match words {
        [word] => asked_alone(word.as_str()),
        [file, out] => Some(Asked::Fit {
            plain: false,
            file: file.as_str(),
            out: out.as_str(),
        }),
        [word, file, out] => asked_plain(word.as_str(), file.as_str(), out.as_str()),
        _ => None,
    }
}

/// What a word before two names asks for.
fn asked_plain<'a>(word: &str, file: &'a str, out: &'a str) -> Option<Asked<'a>>
    ensures { MatchOption result
        (requested (word.now ∷ file.now ∷ out.now ∷ []) ≡ None)
        (λ asked. requested (word.now ∷ file.now ∷ out.now ∷ []) ≡ Some (request_of asked)) }
{
    if word == "--plain" {
        return Some(Asked::Fit {
            plain: true,
            file,
            out,
        });
    }
    None
}

/// What one word asks for.
fn asked_alone(word: &str) -> Option<Asked<'_>>
    ensures { MatchOption result
        (requested (word.now ∷ []) ≡ None)
        (λ asked. requested (word.now ∷ []) ≡ Some (request_of asked)) }
{
    if word == "--help" {
        return Some(Asked::Help);
    }
    if word == "--version" {
        return Some(Asked::Version);
    }
    None
}
