//! What comes of comparing a script or a file.

/// What came of comparing a script or a file.
#[derive(Drop)]
pub struct Compared {
    /// How many texts were compared: it as it is, cut off, and with bytes changed.
    pub texts: u64,
    /// Whether it was compared as it is, and not only cut off.
    pub is_whole: bool,
    /// The first difference, in words.
    pub difference: Option<String>,
}

impl Compared {
    /// Nothing was compared yet.
    pub const fn new() -> Compared {
        Compared {
            texts: 0,
            is_whole: false,
            difference: None,
        }
    }

    /// Counts one more text.
    pub fn count(&mut self) {
        self.texts = self.texts.saturating_add(1);
    }
}
