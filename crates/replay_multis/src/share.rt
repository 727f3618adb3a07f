// Which pages are a bank's.
ghost use Rattle.std.specs.Prelude.{◌≡◌, ◌%◌, ◌≤◌, ◌↔◌, IsTrue};

/// A bank, and how many there are: it has each page whose number divided by theirs leaves its own.
#[derive(Clone, Copy, Debug, PartialEq, Eq)]
pub struct Share {
    /// At least 1.
    pub banks: u32,
    /// Below `banks`.
    pub bank: u32,
}

impl Share {
    /// Whether a page is one of the bank's.
    pub fn has_page(&self, page: u32) -> bool
        requires { 1 ≤ self.now.banks }
        ensures { IsTrue result ↔ (page % self.now.banks ≡ self.now.bank) }
    {
        page % self.banks == self.bank
    }
}
