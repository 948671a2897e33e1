// How a run ends: its status, what is printed and what is put.
ghost use Rattle.std.specs.Prelude.{◌≡◌, option_map};
ghost use Rattle.run_stages.specs.Outcomes.{says, puts};

use crate::status::STATUS_DONE;
use doc_bits::{Bytes, Text};
use std::marker::Model;

/// Bytes that are put under a name.
#[derive(Drop)]
pub struct FilePut {
    pub name: Text,
    pub bytes: Bytes,
}

impl Model for FilePut {
    ghost use Rattle.run_stages.specs.Outcomes.{PutFile};

    ghost Value = { PutFile };

    ghost view = { λ f. record { name = f.name; bytes = f.bytes } };
}

/// How a run ends where the outside takes all. Why it ends so may go with it, for people: no clause sees that.
#[derive(Drop)]
pub struct Ending {
    status: u8,
    text: Text,
    file: Option<FilePut>,
    reason: Option<Text>,
}

impl Model for Ending {
    ghost use Rattle.run_stages.specs.Outcomes.{Outcome};

    ghost Value = { Outcome };

    ghost view = { λ e. record { status = e.status; text = e.text; put = e.file } };
}

impl Ending {
    /// The ending that prints a text and puts nothing.
    pub fn new(status: u8, text: Text) -> Ending
        ensures { result ≡ says status text }
    {
        Ending {
            status,
            text,
            file: None,
            reason: None,
        }
    }

    /// The ending that puts bytes under a name and prints a text.
    pub fn with_file(text: Text, file: FilePut) -> Ending
        ensures { result ≡ puts text file.name file.bytes }
    {
        Ending {
            status: STATUS_DONE,
            text,
            file: Some(file),
            reason: None,
        }
    }

    /// The ending with why it is so, a line without its end.
    pub fn because(self, reason: Text) -> Ending
        ensures { result ≡ self }
    {
        Ending {
            status: self.status,
            text: self.text,
            file: self.file,
            reason: Some(reason),
        }
    }

    /// The status that the run answers.
    pub fn status(&self) -> u8
        ensures { result ≡ self.now.status }
    {
        self.status
    }

    /// What is printed.
    pub fn text(&self) -> &str
        ensures { result.now ≡ self.now.text }
    {
        self.text.as_str()
    }

    /// What is put before that.
    pub fn file(&self) -> Option<&FilePut>
        ensures { option_map (λ file. file.now) result ≡ self.now.put }
    {
        self.file.as_ref()
    }

    /// Why the run ends so, for people.
    pub fn reason(&self) -> Option<&str> {
        match &self.reason {
            Some(reason) => Some(reason.as_str()),
            None => None,
        }
    }
}
