// A row, and an answer to it.

/// A question, and the answer that is wanted.
#[derive(Drop)]
pub struct Row {
    /// What the row is called in a report.
    pub name: String,
    /// The words of the question.
    pub words: Vec<String>,
    /// The text of the question.
    pub input: Vec<u8>,
    /// The answer that is wanted.
    pub wanted: Answer,
}

/// An answer: a status, and a text.
#[derive(Drop)]
pub struct Answer {
    /// How the call ended.
    pub status: u8,
    /// What it gave.
    pub text: Vec<u8>,
}

impl Answer {
    /// Whether the two are the same.
    pub(crate) fn is_same(&self, other: &Answer) -> bool {
        self.status == other.status && self.text.as_slice() == other.text.as_slice()
    }
}
