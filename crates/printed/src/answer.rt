use capture::Kind;

// What an accepted record answers.
#[derive(Clone, Copy, Debug, PartialEq, Eq)]
pub struct RecordAnswer {
    pub kind: Kind,
    pub reply: u8,
    pub count: usize,
}
