// What the command line asks for.
use crate::saying::{usage, wrong};
use host::{word_count, word_if_any};

// Files, each by the number of the argument that names it, where one does.
#[derive(Clone, Copy)]
pub struct Files {
    pub capture: Option<usize>,
    pub half: Option<usize>,
    pub full: Option<usize>,
    pub pbm: Option<usize>,
}

#[derive(Clone, Copy)]
pub struct Asked {
    pub files: Files,
    pub records: u64,
    pub phase: bool,
    pub time: bool,
    // Beside a picture file, which may be asked for too, before it or behind it: then the file alone is written.
    pub plain: bool,
    pub missing: bool,
}

// Help is asked for instead of a glass, and is no lack of one.
#[derive(Clone, Copy)]
pub enum Task {
    Help,
    Show(Asked),
}

// An option whose value is the next word.
#[derive(Clone, Copy)]
enum Waits {
    Half,
    Full,
    Pbm,
    Phase,
    Records,
}

// What the words up to one of them ask for.
#[derive(Clone, Copy)]
struct Words {
    asked: Asked,
    // Beside the rest, for a word behind `--help` is looked at all the same, and may be wrong.
    help: bool,
    waits: Option<Waits>,
}

// A number: none where the text is none, or has more than 1844674407370955160 before its last digit. `parse` would take a plus sign, and the
// six numbers more that 64 bits hold.
fn number_in(text: &[u8]) -> Option<u64> {
    if text.is_empty() {
        return None;
    }
    let mut number: u64 = 0;
    for digit in text {
        if !digit.is_ascii_digit() || number > 1844674407370955160 {
            return None;
        }
        number = 10 * number + u64::from(*digit - b'0');
    }
    Some(number)
}

// A word is refused: said about it what is wrong, and what there is.
fn refused<T>(rt: &HostRuntime, word: &[u8], what: &[u8]) -> Option<T> {
    wrong(rt, word, what);
    usage(&rt.stderr());
    None
}

impl Words {
    fn none() -> Words {
        Words {
            asked: Asked {
                files: Files {
                    capture: None,
                    half: None,
                    full: None,
                    pbm: None,
                },
                records: u64::MAX,
                phase: false,
                time: false,
                plain: false,
                missing: false,
            },
            help: false,
            waits: None,
        }
    }

    // A word that stands for itself: an option, or the capture's name.
    fn word(mut self, rt: &HostRuntime, at: usize, word: &[u8]) -> Option<Words> {
        match word {
            b"--half" => self.waits = Some(Waits::Half),
            b"--full" => self.waits = Some(Waits::Full),
            b"--pbm" => self.waits = Some(Waits::Pbm),
            b"--phase" => self.waits = Some(Waits::Phase),
            b"--records" => self.waits = Some(Waits::Records),
            b"--time" => self.asked.time = true,
            b"--plain" => self.asked.plain = true,
            b"--missing" => self.asked.missing = true,
            b"--help" => self.help = true,
            [b'-', ..] => return refused(rt, word, b"there is no such option"),
            _ => {
                if self.asked.files.capture.is_some() {
                    return refused(rt, word, b"a second capture; there is room for one");
                }
                self.asked.files.capture = Some(at);
            }
        }
        Some(self)
    }

    // The value of the option before it.
    fn value(mut self, rt: &HostRuntime, option: Waits, at: usize, word: &[u8]) -> Option<Words> {
        self.waits = None;
        match option {
            Waits::Half => self.asked.files.half = Some(at),
            Waits::Full => self.asked.files.full = Some(at),
            Waits::Pbm => self.asked.files.pbm = Some(at),
            Waits::Phase => match word {
                b"0" => self.asked.phase = false,
                b"1" => self.asked.phase = true,
                _ => return refused(rt, word, b"the phase is 0 or 1"),
            },
            Waits::Records => match number_in(word) {
                Some(records) => self.asked.records = records,
                None => return refused(rt, word, b"no number of records"),
            },
        }
        Some(self)
    }

    // The next word of the command line.
    fn next(self, rt: &HostRuntime, at: usize) -> Option<Words> {
        let mut room = [0u8; 4096];
        let Some(word) = word_if_any(rt, at, &mut room) else {
            return refused(rt, b"", b"an argument of more than 4,096 bytes");
        };
        match self.waits {
            Some(option) => self.value(rt, option, at, word),
            None => self.word(rt, at, word),
        }
    }

    // After the last word no option waits for its value.
    fn ended(self, rt: &HostRuntime) -> Option<Task> {
        match self.waits {
            None if self.help => Some(Task::Help),
            None => Some(Task::Show(self.asked)),
            Some(Waits::Half) => refused(rt, b"--half", b"the font's file is missing"),
            Some(Waits::Full) => refused(rt, b"--full", b"the font's file is missing"),
            Some(Waits::Pbm) => refused(rt, b"--pbm", b"the picture's file is missing"),
            Some(Waits::Phase) => refused(rt, b"--phase", b"0 or 1 is missing"),
            Some(Waits::Records) => refused(rt, b"--records", b"the number is missing"),
        }
    }
}

impl Task {
    // None where something was wrong, which has been said; no word behind that is looked at.
    pub fn from_arguments(rt: &HostRuntime) -> Option<Task> {
        let mut words = Words::none();
        for at in 1..word_count(rt) {
            words = words.next(rt, at)?;
        }
        words.ended(rt)
    }
}
