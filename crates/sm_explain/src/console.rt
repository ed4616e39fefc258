use crate::listener::Listener;
use crate::sentence::Sentence;
use crate::sentences::settings_sentence;
use sm_script::Form;
use std::cell::Cell;
use std::io::Eprint;

/// A listener that writes its events to standard error, one in a line. If writing fails, nothing else changes.
#[derive(Drop)]
pub struct Console<'a, R> {
    rt: &'a R,
    has_heard_error: Cell<bool>,
}

impl<'a, R> Console<'a, R> {
    /// Returns a listener that has heard nothing, and writes to the standard error of `rt`.
    pub fn new(rt: &'a R) -> Console<'a, R> {
        Console {
            rt,
            has_heard_error: Cell::new(false),
        }
    }

    /// Returns whether a line was answered by `error`.
    pub fn has_heard_error(&self) -> bool {
        self.has_heard_error.get()
    }
}

impl<'a, R: Eprint> Console<'a, R> {
    /// Writes the right form of the line.
    fn tell_form(&self, line: u64, answer: &str, form: Form) {
        let (name, arguments) = (form.name, form.arguments);
        let space = if arguments.is_empty() { "" } else { " " };
        let _told = eprintln!(self.rt;
            "line {line}: {answer}: too few or too many words: {name}{space}{arguments}"
        ).is_ok();
    }

    /// Writes why settings are answered by this name.
    pub fn tell_settings(&self, name: &str) {
        let sentence = settings_sentence(name);
        let _told = eprintln!(self.rt; "settings: {name}: {sentence}").is_ok();
    }
}

impl<'a, R: Eprint> Listener for Console<'a, R> {
    fn hear(&self, line: u64, answer: &str, sentence: Sentence) {
        if answer.starts_with("error ") {
            self.has_heard_error.set(true);
        }
        match sentence {
            Sentence::Text(text) => {
                let _told = eprintln!(self.rt; "line {line}: {answer}: {text}").is_ok();
            }
            Sentence::Written(form) => self.tell_form(line, answer, form),
        }
    }
}
