// What a command has ready before its first byte is written.
ghost use Rattle.std.specs.Prelude.{◌≡◌};
ghost use Rattle.place_edges.specs.Sink.{IsWritten};
ghost use Rattle.place_run.specs.Answers.{done};

use crate::reason_rows::ReasonRows;
use crate::status::Ending;
use place_edges::{Failed, Sink, write_whole};
use std::marker::Model;

// An answer: how the run ends, and a text. All its memory is taken when it is made.
pub(crate) struct Answer {
    ending: Ending,
    text: Text,
}

// By hand, so that letting one go is one call in the proof of whoever holds it.
impl Drop for Answer {
    fn drop(self) {
        let Self {
            ending: _,
            text: _text,
        } = self;
    }
}

// The kinds of text.
#[derive(Drop)]
enum Text {
    // One that stands in memory whole.
    Whole(Vec<u8>),
    // One that is made a row at a time while it is written.
    Reasons(ReasonRows),
}

impl Model for Answer {
    ghost use Rattle.place_run.specs.Answers.{Answer};
    ghost use Rattle.place_run.specs.Texts.{text_bytes};

    ghost Value = { Answer };

    ghost view = { λ a. record { ending = a.ending; text = text_bytes a.text } };
}

impl Answer {
    // The answer of a command that is done, with this text.
    pub(crate) fn done(text: Vec<u8>) -> Answer
        ensures { result ≡ done text.items }
    {
        Answer {
            ending: Ending::Done,
            text: Text::Whole(text),
        }
    }

    // The answer of a command that is done, with these reasons.
    pub(crate) fn reasons(rows: ReasonRows) -> Answer
        ensures { result ≡ done rows }
    {
        Answer {
            ending: Ending::Done,
            text: Text::Reasons(rows),
        }
    }

    // The answer of an audit that ends so, with this text.
    pub(crate) fn audited(ending: Ending, text: Vec<u8>) -> Answer
        ensures { result ≡ record { ending = ending; text = text.items } }
    {
        Answer {
            ending,
            text: Text::Whole(text),
        }
    }

    // How the run ends where the text is written whole.
    pub(crate) fn ending(&self) -> Ending
        ensures { result ≡ self.now.ending }
    {
        self.ending
    }

    // Writes the text.
    pub(crate) fn write<K: Sink>(&self, out: &mut K) -> Result<(), Failed>
        ensures { IsWritten self.now.text result (K.written out.old) (K.written out.new)
            (K.faults out.old) (K.faults out.new) }
    {
        match &self.text {
            Text::Whole(bytes) => write_whole(out, bytes),
            Text::Reasons(rows) => rows.write(out),
        }
    }
}
