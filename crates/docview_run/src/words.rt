// What the words of a run ask for.
ghost use Rattle.std.specs.Prelude.{◌≡◌, ◌≤◌, [], ◌∷◌, true, false, MatchOption, None, Some, length, map};
ghost use Rattle.std.specs.String.{string_bytes};
ghost use Rattle.docview_run.specs.Requests.{begins_with_hyphen, behind_option, in_form, is_headers, is_hidden};
ghost use Rattle.docview_run.specs.Requests.{is_strict, page_request, plain_view, request_of, requested, viewed};
ghost use Rattle.docview_run.specs.Requests.{viewed_by};
ghost use Rattle.docview_run.specs.Requests.{asks_for_properties, properties_by, properties_named, requested_many};
ghost use Rattle.docview_run.specs.Requests.{forced, illustrated, pictured_in, with_headers, with_hidden};

use crate::{Form, View};
use doc_pictures::Album;
use doc_view::Options;
use property_text::PropertyForm;

/// The standard input, as `-` names it.
const STANDARD_INPUT: &str = "/dev/stdin";

/// What is asked for.
#[derive(Drop)]
pub enum Asked<'a> {
    /// How the program is called.
    Help,
    /// Which program this is.
    Version,
    /// The page of the document of a file.
    Page {
        view: View,
        file: &'a str,
    },
    /// The page of the document of a file, once the files of its pictures are written.
    Pictured {
        view: View,
        album: Album<'a>,
        file: &'a str,
    },
    /// The properties of a file.
    Properties {
        form: PropertyForm,
        file: &'a str,
    },
}

/// What options ask for, and the words behind them.
#[derive(Clone, Copy)]
struct Behind<'a> {
    view: View,
    words: &'a [String],
}

/// What the words ask for, where they ask for something.
pub(crate) fn asked_by(words: &[String]) -> Option<Asked<'_>>
    ensures { MatchOption result
        (requested (map string_bytes words.now) ≡ None)
        (λ asked. requested (map string_bytes words.now) ≡ Some (request_of asked)) }
{
    match words {
        [] => None,
        [word] => asked_alone(word.as_str()),
        [_, _, ..] => asked_many(words),
    }
}

/// What several words ask for: the properties of a file, or its page.
fn asked_many(words: &[String]) -> Option<Asked<'_>>
    requires { 1 ≤ length words.now }
    ensures { MatchOption result
        (requested_many (map string_bytes words.now) ≡ None)
        (λ asked. requested_many (map string_bytes words.now) ≡ Some (request_of asked)) }
{
    if asks_for_properties(words) {
        return asked_properties(&words[1..]);
    }
    asked_behind(words)
}

/// Whether the first word asks for properties.
fn asks_for_properties(words: &[String]) -> bool
    ensures { result ≡ asks_for_properties (map string_bytes words.now) }
{
    match words {
        [first, ..] => first.as_str() == "meta",
        [] => false,
    }
}

/// The properties that words behind `meta` ask for: of a file alone, or as JSON.
fn asked_properties(words: &[String]) -> Option<Asked<'_>>
    ensures { MatchOption result
        (properties_by (map string_bytes words.now) ≡ None)
        (λ asked. properties_by (map string_bytes words.now) ≡ Some (request_of asked)) }
{
    match words {
        [file] => properties_of(PropertyForm::Lines, file.as_str()),
        [option, file] => {
            if option.as_str() == "--json" {
                return properties_of(PropertyForm::Json, file.as_str());
            }
            None
        }
        _ => None,
    }
}

/// The properties of a file. A word that begins with a hyphen names none.
fn properties_of(form: PropertyForm, file: &str) -> Option<Asked<'_>>
    ensures { MatchOption result
        (properties_named form file.now ≡ None)
        (λ asked. properties_named form file.now ≡ Some (request_of asked)) }
{
    if file == "-" {
        return Some(Asked::Properties {
            form,
            file: STANDARD_INPUT,
        });
    }
    if begins_with_hyphen(file) {
        return None;
    }
    Some(Asked::Properties { form, file })
}

/// What one word asks for.
fn asked_alone(word: &str) -> Option<Asked<'_>>
    ensures { MatchOption result
        (requested (word.now ∷ []) ≡ None)
        (λ asked. requested (word.now ∷ []) ≡ Some (request_of asked)) }
{
    if word == "--help" {
        return Some(Asked::Help);
    }
    if word == "--version" {
        return Some(Asked::Version);
    }
    asked_of(plain_view(), word)
}

/// What words ask for behind their options.
fn asked_behind(words: &[String]) -> Option<Asked<'_>>
    ensures { MatchOption result
        (viewed_by (map string_bytes words.now) ≡ None)
        (λ asked. viewed_by (map string_bytes words.now) ≡ Some (request_of asked)) }
{
    let first = behind_option(plain_view(), words);
    let second = behind_option(first.view, first.words);
    let third = behind_option(second.view, second.words);
    asked_view(third.view, third.words)
}

/// What is shown without options.
fn plain_view() -> View
    ensures { result ≡ plain_view }
{
    View {
        form: Form::Text,
        options: Options {
            hidden: false,
            headers: false,
        },
        strict: false,
    }
}

/// One option more, where the first word is one that was not there.
fn behind_option(view: View, words: &[String]) -> Behind<'_>
    ensures view { result.view ≡ (behind_option view (map string_bytes words.now)).view }
    ensures words { map string_bytes result.words.now ≡ (behind_option view (map string_bytes words.now)).words }
{
    let [word, ..] = words else {
        return Behind { view, words };
    };
    let word = word.as_str();
    if is_hidden(view, word) {
        return Behind {
            view: with_hidden(view),
            words: &words[1..],
        };
    }
    if is_headers(view, word) {
        return Behind {
            view: with_headers(view),
            words: &words[1..],
        };
    }
    if is_strict(view, word) {
        return Behind {
            view: View {
                form: view.form,
                options: view.options,
                strict: true,
            },
            words: &words[1..],
        };
    }
    Behind { view, words }
}

/// Whether a word is the option for hidden text, which was not there.
fn is_hidden(view: View, word: &str) -> bool
    ensures { result ≡ is_hidden view word.now }
{
    !view.options.hidden && word == "--hidden"
}

/// Whether a word is the option for header texts, which was not there.
fn is_headers(view: View, word: &str) -> bool
    ensures { result ≡ is_headers view word.now }
{
    !view.options.headers && word == "--headers"
}

/// Whether a word is the option for files that break no rule, which was not there.
fn is_strict(view: View, word: &str) -> bool
    ensures { result ≡ is_strict view word.now }
{
    !view.strict && word == "--strict"
}

/// The page with hidden text.
fn with_hidden(view: View) -> View
    ensures { result ≡ with_hidden view }
{
    View {
        form: view.form,
        options: Options {
            hidden: true,
            headers: view.options.headers,
        },
        strict: view.strict,
    }
}

/// The page with header texts.
fn with_headers(view: View) -> View
    ensures { result ≡ with_headers view }
{
    View {
        form: view.form,
        options: Options {
            hidden: view.options.hidden,
            headers: true,
        },
        strict: view.strict,
    }
}

/// The page that words behind options ask for: of a file alone, or in a form.
fn asked_view(view: View, words: &[String]) -> Option<Asked<'_>>
    ensures { MatchOption result
        (viewed view (map string_bytes words.now) ≡ None)
        (λ asked. viewed view (map string_bytes words.now) ≡ Some (request_of asked)) }
{
    match words {
        [] => None,
        [file] => asked_of(view, file.as_str()),
        [form, file] => asked_in_form(view, form.as_str(), file.as_str()),
        [_, _, _] => None,
        [form, option, folder, file] => asked_illustrated(
            view,
            form.as_str(),
            option.as_str(),
            folder.as_str(),
            file.as_str(),
        ),
        [form, option, folder, force, file] => asked_forced(
            view,
            form.as_str(),
            option.as_str(),
            folder.as_str(),
            force.as_str(),
            file.as_str(),
        ),
        [_, _, _, _, _, _, ..] => None,
    }
}

/// The page of a file behind the files of its pictures, where the second word is the option for these.
fn asked_illustrated<'a>(
    view: View,
    form: &str,
    option: &str,
    folder: &'a str,
    file: &'a str,
) -> Option<Asked<'a>>
    ensures { MatchOption result
        (illustrated view form.now option.now folder.now file.now ≡ None)
        (λ asked. illustrated view form.now option.now folder.now file.now ≡ Some (request_of asked)) }
{
    if option != "--pictures" {
        return None;
    }
    asked_pictured(view, form, folder, false, file)
}

/// What is asked for by `--pictures FOLDER --force FILE`, which writes over files that are there.
fn asked_forced<'a>(
    view: View,
    form: &str,
    option: &str,
    folder: &'a str,
    force: &str,
    file: &'a str,
) -> Option<Asked<'a>>
    ensures { MatchOption result
        (forced view form.now option.now folder.now force.now file.now ≡ None)
        (λ asked. forced view form.now option.now folder.now force.now file.now ≡ Some (request_of asked)) }
{
    if option != "--pictures" || force != "--force" {
        return None;
    }
    asked_pictured(view, form, folder, true, file)
}

/// The page of a file in the form that a word names, behind the files of its pictures.
fn asked_pictured<'a>(
    view: View,
    form: &str,
    folder: &'a str,
    force: bool,
    file: &'a str,
) -> Option<Asked<'a>>
    ensures { MatchOption result
        (pictured_in view form.now folder.now force file.now ≡ None)
        (λ asked. pictured_in view form.now folder.now force file.now ≡ Some (request_of asked)) }
{
    match asked_in_form(view, form, file) {
        Some(Asked::Page { view, file }) => {
            let album = Album { folder, force };
            Some(Asked::Pictured { view, album, file })
        }
        Some(Asked::Help) => None,
        Some(Asked::Version) => None,
        Some(Asked::Pictured { .. }) => None,
        Some(Asked::Properties { .. }) => None,
        None => None,
    }
}

/// The page of a file in the form that a word names.
fn asked_in_form<'a>(view: View, form: &str, file: &'a str) -> Option<Asked<'a>>
    ensures { MatchOption result
        (in_form view form.now file.now ≡ None)
        (λ asked. in_form view form.now file.now ≡ Some (request_of asked)) }
{
    if form == "text" {
        return asked_of(with_form(view, Form::Text), file);
    }
    if form == "markdown" {
        return asked_of(with_form(view, Form::Markdown), file);
    }
    if form == "html" {
        return asked_of(with_form(view, Form::Html), file);
    }
    None
}

/// The page in another form.
fn with_form(view: View, form: Form) -> View
    ensures { result ≡ record view { form = form } }
{
    View {
        form,
        options: view.options,
        strict: view.strict,
    }
}

/// The page of a file. A word that begins with a hyphen names none.
fn asked_of(view: View, file: &str) -> Option<Asked<'_>>
    ensures { MatchOption result
        (page_request view file.now ≡ None)
        (λ asked. page_request view file.now ≡ Some (request_of asked)) }
{
    if file == "-" {
        return Some(Asked::Page {
            view,
            file: STANDARD_INPUT,
        });
    }
    if begins_with_hyphen(file) {
        return None;
    }
    Some(Asked::Page { view, file })
}

/// Whether a word begins with a hyphen.
fn begins_with_hyphen(word: &str) -> bool
    ensures { result ≡ begins_with_hyphen word.now }
{
    match word.as_bytes() {
        [first, ..] => *first == b'-',
        [] => false,
    }
}
